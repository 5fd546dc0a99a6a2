// Where the bytes of a space lie.
ghost use Rattle.std.specs.Prelude.{◌≡◌, ◌+◌, ◌-◌, ◌<◌, ◌≤◌, ◌≢◌, ◌^◌, IsTrue, IfOk, OnErr, Some, length, map};
ghost use Rattle.ip_ground.specs.Counts.{CountsAs, FileFault};
ghost use Rattle.ip_ground.specs.Told.{NoFile, ChangesOnly};
ghost use Rattle.ip_mapping.specs.Parsing.{IsRowAt};
ghost use Rattle.ip_space.specs.SpaceView.{IsReadable, byte_at};
ghost use Rattle.ip_space.specs.Ahead.{ReadsBytes};
ghost use Rattle.ip_space.specs.Viewed.{view_of, IsSource, IsBorder};

use ip_chunks::Chunks;
use ip_ground::{FileName, Ground, GroundFault};
use ip_image::layout::Layout;
use ip_image::run::Row;
use ip_mapping::Mapping;

/// The layout, and the mapping into the live prefix, which has no runs where none is live.
#[derive(Debug, Drop)]
pub struct Source {
    pub layout: Layout,
    pub mapping: Mapping,
}

impl Source {
    /// The first offset from `at` on at which another file begins, the live prefix being one and each chunk one.
    pub fn border(&self, at: u64) -> u64
        requires { IsSource self.now }
        ensures { at + self.now.layout.chunk ≤ 2 ^ 64 → IsBorder self.now.layout at result }
    {
        let Layout { chunk, horizon, .. } = self.layout;
        if at <= horizon {
            return horizon;
        }
        let above = at.saturating_add(chunk - 1);
        above - above % chunk
    }

    /// Copies the bytes from an offset on into `out`, up to the first that is missing, and says how many. It reads a file once: the prefix, and
    /// where a run ends at the horizon, the chunks behind it.
    pub fn read<G: Ground>(
        &self,
        outside: &mut G,
        at: u64,
        out: &mut [u8],
    ) -> Result<usize, GroundFault>
        requires source { IsSource self.now }
        requires room { at + length out.old ≤ self.now.layout.end }
        ensures reads { IsTrue G.tells → IsReadable (G.told outside.old) (view_of self.now) →
            ReadsBytes (byte_at (G.told outside.old) (view_of self.now)) at (length out.old) out.new result }
        ensures fits { IfOk result (λ n. n ≤ length out.old) }
        ensures only { IsTrue G.tells → ChangesOnly NoFile (G.told outside.old) (G.told outside.new) }
        ensures counts { CountsAs FileFault result (G.counts_of outside.old) (G.counts_of outside.new) }
    {
        if at >= self.layout.horizon {
            return self.read_chunks(outside, at, out);
        }
        let Some(row) = self.mapping.row_at(at) else {
            return Ok(0);
        };
        if out.len() as u64 <= row.length - (at - row.at) {
            return self.read_run(outside, &row, at, out);
        }
        self.read_across(outside, &row, at, out)
    }

    // Copies bytes of one run.
    fn read_run<G: Ground>(
        &self,
        outside: &mut G,
        row: &Row,
        at: u64,
        out: &mut [u8],
    ) -> Result<usize, GroundFault>
        requires source { IsSource self.now }
        requires row { IsRowAt self.now.mapping at row.now }
        requires room { at + length out.old ≤ row.now.at + row.now.length }
        ensures reads { IsTrue G.tells → IsReadable (G.told outside.old) (view_of self.now) →
            ReadsBytes (byte_at (G.told outside.old) (view_of self.now)) at (length out.old) out.new result }
        ensures fits { IfOk result (λ n. n ≤ length out.old) }
        ensures only { IsTrue G.tells → ChangesOnly NoFile (G.told outside.old) (G.told outside.new) }
        ensures counts { CountsAs FileFault result (G.counts_of outside.old) (G.counts_of outside.new) }
    {
        let place = row.place + (at - row.at);
        outside.read(FileName::Prefix(self.layout.live), place, out)
    }

    // Copies bytes of a run and, where it ends at the horizon, those behind it.
    fn read_across<G: Ground>(
        &self,
        outside: &mut G,
        row: &Row,
        at: u64,
        out: &mut [u8],
    ) -> Result<usize, GroundFault>
        requires source { IsSource self.now }
        requires row { IsRowAt self.now.mapping at row.now }
        requires past { row.now.at + row.now.length ≤ at + length out.old }
        requires room { at + length out.old ≤ self.now.layout.end }
        ensures reads { IsTrue G.tells → IsReadable (G.told outside.old) (view_of self.now) →
            ReadsBytes (byte_at (G.told outside.old) (view_of self.now)) at (length out.old) out.new result }
        ensures fits { IfOk result (λ n. n ≤ length out.old) }
        ensures only { IsTrue G.tells → ChangesOnly NoFile (G.told outside.old) (G.told outside.new) }
        ensures counts { CountsAs FileFault result (G.counts_of outside.old) (G.counts_of outside.new) }
    {
        let behind = row.at + row.length;
        let left = (behind - at) as usize;
        let (front, back) = out.split_at_mut(left);
        let count = self.read_run(outside, row, at, front)?;
        if count < left || behind < self.layout.horizon {
            return Ok(count);
        }
        let more = self.read_chunks(outside, behind, back)?;
        Ok(count + more)
    }

    // Copies bytes from the chunks.
    #[tactic(auto, using(ip_chunks::proofs::Bytes::virtual_bytes))]
    fn read_chunks<G: Ground>(
        &self,
        outside: &mut G,
        at: u64,
        out: &mut [u8],
    ) -> Result<usize, GroundFault>
        requires source { IsSource self.now }
        requires above { self.now.layout.horizon ≤ at }
        requires room { at + length out.old ≤ self.now.layout.end }
        ensures reads { IsTrue G.tells → ReadsBytes (byte_at (G.told outside.old) (view_of self.now)) at (length out.old) out.new result }
        ensures fits { IfOk result (λ n. n ≤ length out.old) }
        ensures only { IsTrue G.tells → ChangesOnly NoFile (G.told outside.old) (G.told outside.new) }
        ensures counts { CountsAs FileFault result (G.counts_of outside.old) (G.counts_of outside.new) }
    {
        let chunks = Chunks {
            size: self.layout.chunk,
        };
        chunks.read_at(outside, at, out)
    }
}
