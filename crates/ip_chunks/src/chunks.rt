// The list of bytes, and its four calls.
ghost use Rattle.std.specs.Prelude.{◌≡◌, ◌+◌, ◌-◌, ◌<◌, ◌≤◌, min, Ok, IsTrue, IfOk, OnErr, length};
ghost use Rattle.ip_base.specs.declared.limit.TheConstants.{OFFSET_MAX};
ghost use Rattle.ip_ground.specs.Counts.{CountsAs, CountsLeft, FileFault};
ghost use Rattle.ip_ground.specs.Told.{ChangesOnly};
ghost use Rattle.ip_image.specs.Slot.{IsChunkSize};
ghost use Rattle.ip_image.specs.Virtual.{place_in_chunk};
ghost use Rattle.ip_chunks.specs.Places.{chunk_start, chunk_file, NoGap, IsChunkBetween};
ghost use Rattle.ip_chunks.specs.Effects.{Appends, ReadsAt, SyncsRange, Sweeps};

use ip_ground::{FileName, Ground, GroundFault};

/// The chunk files of a store as one list of bytes. The size of a chunk, in bytes, is a power of two from `CHUNK_MIN` to `CHUNK_MAX`; each call
/// asks for such a one.
#[derive(Clone, Copy, Debug, PartialEq, Eq)]
pub struct Chunks {
    /// The size of a chunk, in bytes.
    pub size: u64,
}

impl Chunks {
    /// The file that holds a place of the list, and the place in that file.
    pub fn file_of(&self, at: u64) -> (FileName, u64)
        requires { IsChunkSize self.now.size }
        ensures { result ≡ (chunk_file self.now.size at, place_in_chunk self.now.size at) }
    {
        (FileName::Chunk(at / self.size), at % self.size)
    }

    // How many of so many bytes from a place on lie in the chunk of that place.
    fn within(&self, at: u64, count: usize) -> usize
        requires { IsChunkSize self.now.size }
        ensures { result ≡ min count (self.now.size - place_in_chunk self.now.size at) }
    {
        (count as u64).min(self.size - at % self.size) as usize
    }

    /// Writes the bytes at the place `end` of the list, by one write for each chunk. What it does is told where there is no gap from the
    /// start of its chunk up to `end`. What is written is pending until the chunks are synced, and after a fault any bytes may stand in
    /// its place.
    pub fn append<G: Ground>(
        &self,
        outside: &mut G,
        end: u64,
        bytes: &[u8],
    ) -> Result<(), GroundFault>
        requires allowed { IsChunkSize self.now.size }
        requires room { end + length bytes.now ≤ OFFSET_MAX }
        ensures does { IsTrue G.tells → NoGap self.now.size (G.told outside.old).held (chunk_start self.now.size end) end → Appends self.now.size end bytes.now result (G.told outside.old) (G.told outside.new) }
        // whatever the files are
        ensures only { IsTrue G.tells → ChangesOnly (IsChunkBetween self.now.size end (end + length bytes.now)) (G.told outside.old) (G.told outside.new) }
        ensures empty { length bytes.now ≡ 0 → (result ≡ Ok tt) × (outside.new ≡ outside.old) }
        ensures counts { CountsAs FileFault result (G.counts_of outside.old) (G.counts_of outside.new) }
    {
        let mut done = 0;
        while done < bytes.len() {
            let at = end + done as u64;
            let count = self.within(at, bytes.len() - done);
            self.write_piece(outside, at, &bytes[done..done + count])?;
            done += count;
        }
        Ok(())
    }

    // Appends bytes that lie in one chunk.
    fn write_piece<G: Ground>(
        &self,
        outside: &mut G,
        at: u64,
        bytes: &[u8],
    ) -> Result<(), GroundFault>
        requires allowed { IsChunkSize self.now.size }
        requires room { at + length bytes.now ≤ OFFSET_MAX }
        requires some { 0 < length bytes.now }
        requires within { length bytes.now ≤ self.now.size - place_in_chunk self.now.size at }
        ensures does { IsTrue G.tells → NoGap self.now.size (G.told outside.old).held (chunk_start self.now.size at) at → Appends self.now.size at bytes.now result (G.told outside.old) (G.told outside.new) }
        ensures only { IsTrue G.tells → ChangesOnly (IsChunkBetween self.now.size at (at + length bytes.now)) (G.told outside.old) (G.told outside.new) }
        ensures counts { CountsAs FileFault result (G.counts_of outside.old) (G.counts_of outside.new) }
    {
        let (file, place) = self.file_of(at);
        outside.write(file, place, bytes)
    }

    /// Copies the bytes from the place `at` on, up to the first gap, into `out`, and says how many: fewer than `out` takes exactly
    /// where a gap comes before. It makes one read for each chunk.
    pub fn read_at<G: Ground>(
        &self,
        outside: &mut G,
        at: u64,
        out: &mut [u8],
    ) -> Result<usize, GroundFault>
        requires allowed { IsChunkSize self.now.size }
        requires room { at + length out.old ≤ OFFSET_MAX }
        ensures does { IsTrue G.tells → ReadsAt self.now.size at out.old out.new result (G.told outside.old) (G.told outside.new) }
        ensures fits { IfOk result (λ n. n ≤ length out.old) }
        ensures counts { CountsAs FileFault result (G.counts_of outside.old) (G.counts_of outside.new) }
    {
        let mut done = 0;
        while done < out.len() {
            let from = at + done as u64;
            let count = self.within(from, out.len() - done);
            let got = self.read_piece(outside, from, &mut out[done..done + count])?;
            done += got;
            if got < count {
                return Ok(done);
            }
        }
        Ok(done)
    }

    // Copies bytes of one chunk.
    fn read_piece<G: Ground>(
        &self,
        outside: &mut G,
        at: u64,
        out: &mut [u8],
    ) -> Result<usize, GroundFault>
        requires allowed { IsChunkSize self.now.size }
        requires room { at + length out.old ≤ OFFSET_MAX }
        requires within { length out.old ≤ self.now.size - place_in_chunk self.now.size at }
        ensures does { IsTrue G.tells → ReadsAt self.now.size at out.old out.new result (G.told outside.old) (G.told outside.new) }
        ensures fits { IfOk result (λ n. n ≤ length out.old) }
        ensures counts { CountsAs FileFault result (G.counts_of outside.old) (G.counts_of outside.new) }
    {
        let (file, place) = self.file_of(at);
        outside.read(file, place, out)
    }

    /// Syncs the chunks that hold a place from `from` up to, and without, `to`, each once, and no others; none where there is no such
    /// place. After a fault some of them may be synced and others not.
    pub fn sync_range<G: Ground>(
        &self,
        outside: &mut G,
        from: u64,
        to: u64,
    ) -> Result<(), GroundFault>
        requires allowed { IsChunkSize self.now.size }
        requires room { to ≤ OFFSET_MAX }
        ensures does { IsTrue G.tells → SyncsRange self.now.size from to result (G.told outside.old) (G.told outside.new) }
        ensures none { to ≤ from → (result ≡ Ok tt) × (outside.new ≡ outside.old) }
        ensures counts { CountsAs FileFault result (G.counts_of outside.old) (G.counts_of outside.new) }
    {
        if from >= to {
            return Ok(());
        }
        let last = (to - 1) / self.size;
        for number in from / self.size..last + 1 {
            outside.sync(FileName::Chunk(number))?;
        }
        Ok(())
    }

    /// Removes the chunks numbered from `from` up to, and without, `to`, which nobody may need any more, and says how many may be left, since
    /// their removal failed. A removal is pending until it is synced.
    pub fn sweep<G: Ground>(&self, outside: &mut G, from: u64, to: u64) -> u64
        ensures does { IsTrue G.tells → Sweeps from to result (G.told outside.old) (G.told outside.new) }
        ensures counts { CountsLeft result (G.counts_of outside.old) (G.counts_of outside.new) }
    {
        let mut left = 0;
        for number in from..to {
            if outside.remove(FileName::Chunk(number)).is_err() {
                left += 1;
            }
        }
        left
    }
}
