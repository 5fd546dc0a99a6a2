// Bytes that were read ahead, and the record that they begin with.
ghost use Rattle.std.specs.Prelude.{◌≡◌, ◌+◌, ◌-◌, ◌≤◌, [], length, take, drop, IsTrue, IfOk, OnOk, OnErr, IsErrOf};
ghost use Rattle.ip_space.specs.Faults.{counted_fetch};
ghost use Rattle.ip_ground.specs.Counts.{Counts, CountsAs, FileFault};
ghost use Rattle.ip_ground.specs.Told.{NoFile, ChangesOnly};
ghost use Rattle.ip_spec.specs.Record.{Fits, spelling};
ghost use Rattle.ip_spec.specs.Reading.{reading};
ghost use Rattle.ip_object.specs.Body.{IsBehindHead};
ghost use Rattle.ip_image.specs.Slot.{newest_version};
ghost use Rattle.ip_space.specs.SpaceView.{IsReadable, byte_at, read_at};
ghost use Rattle.ip_space.specs.Viewed.{view_of, IsSource};
ghost use Rattle.ip_space.specs.Fetching.{ReadsOne, BlamesPlace, IsReadFault};
ghost use Rattle.ip_space.specs.Head.{needed};
ghost use Rattle.ip_space.specs.Ahead.{held_in, IsAhead, BeginsWith, Shows, ReadsBytes};
ghost use Rattle.ip_space.specs.Filling.{GoesOn, Fills};
ghost use Rattle.ip_space.specs.declared.fault.FetchFault.TheVariants as FetchFault;

use crate::FetchFault;
use crate::noting::note;
use crate::source::Source;
use ip_base::limit::CONTENTS_MAX;
use ip_base::{Cursor, Memory};
use ip_ground::{Ground, GroundFault};
use ip_object::read_record;
use ip_spec::kind::{BRANCH_TABLE, CONTENTS};
use ip_spec::record::{Record, RecordFault};
use std::alloc::Global;

/// The version of the format.
const VERSION: u32 = 1;

/// The bytes of a kind and a length.
const HEAD: usize = 5;

/// The bytes of a space from one place on, as many as were read ahead, in a buffer that is used again.
#[derive(Drop)]
pub struct Ahead {
    buffer: Vec<u8>,
    /// Where in the buffer they begin and stop.
    start: usize,
    stop: usize,
}

impl Ahead {
    /// No byte was read. It takes no memory yet.
    pub fn new(alloc: Global) -> Ahead
        ensures ahead { IsAhead result }
        ensures held { held_in result ≡ [] }
    {
        Ahead {
            buffer: Vec::new(alloc),
            start: 0,
            stop: 0,
        }
    }

    /// Forgets the bytes.
    pub fn clear(&mut self)
        ensures ahead { IsAhead self.new }
        ensures held { held_in self.new ≡ [] }
    {
        self.start = 0;
        self.stop = 0;
    }

    /// Forgets the bytes where there are more than so many.
    pub fn keep_up_to(&mut self, count: u64)
        requires { IsAhead self.old }
        ensures ahead { IsAhead self.new }
        ensures room { length (held_in self.new) ≤ count }
        ensures held { length (held_in self.old) ≤ count → held_in self.new ≡ held_in self.old }
    {
        if (self.stop - self.start) as u64 > count {
            self.clear();
        }
    }

    /// The bytes.
    pub fn held(&self) -> &[u8]
        requires { IsAhead self.now }
        ensures { result.now ≡ held_in self.now }
    {
        &self.buffer[self.start..self.stop]
    }

    /// Goes on behind so many bytes.
    pub fn pass(&mut self, count: usize)
        requires ahead { IsAhead self.old }
        requires held { count ≤ length (held_in self.old) }
        ensures ahead { IsAhead self.new }
        ensures held { held_in self.new ≡ drop count (held_in self.old) }
    {
        self.start += count;
    }

    /// The record at the offset `at`, where the bytes begin, and its length in bytes. Where they do not tell it, more are read: at first
    /// those of the head, and then those of the record. Each read is of as many as are needed, and of up to `stretch` bytes where these lie in the
    /// same file and below `to`.
    pub fn read_one<G: Ground>(
        &mut self,
        alloc: Global,
        source: &Source,
        outside: &mut G,
        at: u64,
        stretch: u64,
        to: u64,
    ) -> Result<(Record, u64), FetchFault>
        requires source { IsSource source.now }
        requires ahead { IsAhead self.old }
        requires room { length (held_in self.old) ≤ source.now.layout.end - at }
        ensures ahead { IsAhead self.new }
        ensures room { length (held_in self.new) ≤ source.now.layout.end - at }
        ensures shows { IsTrue G.tells → IsReadable (G.told outside.old) (view_of source.now) →
            Shows (byte_at (G.told outside.old) (view_of source.now)) source.now.layout.end at (held_in self.old) →
            Shows (byte_at (G.told outside.new) (view_of source.now)) source.now.layout.end at (held_in self.new) }
        ensures reads { IsTrue G.tells → IsReadable (G.told outside.old) (view_of source.now) →
            Shows (byte_at (G.told outside.old) (view_of source.now)) source.now.layout.end at (held_in self.old) →
            ReadsOne (read_at (G.told outside.old) (view_of source.now) at) result }
        ensures blames { BlamesPlace at result }
        ensures found { IfOk result (λ found. Fits newest_version found.0 × (found.1 ≡ length (spelling found.0)) × (found.1 ≤ length (held_in self.new))) }
        ensures spelled { IfOk result (λ found. BeginsWith (spelling found.0) (held_in self.new)) }
        ensures only { IsTrue G.tells → ChangesOnly NoFile (G.told outside.old) (G.told outside.new) }
        ensures counts { Counts counted_fetch result (G.counts_of outside.old) (G.counts_of outside.new) }
    {
        self.fill(source, outside, at, stretch, to)?;
        noted_front(alloc, outside, at, self.held())
    }

    // Reads until the bytes tell the record that they begin with.
    fn fill<G: Ground>(
        &mut self,
        source: &Source,
        outside: &mut G,
        at: u64,
        stretch: u64,
        to: u64,
    ) -> Result<(), FetchFault>
        requires source { IsSource source.now }
        requires ahead { IsAhead self.old }
        requires room { length (held_in self.old) ≤ source.now.layout.end - at }
        ensures ahead { IsAhead self.new }
        ensures room { length (held_in self.new) ≤ source.now.layout.end - at }
        ensures fills { IsTrue G.tells → IsReadable (G.told outside.old) (view_of source.now) → Fills at (view_of source.now) (held_in self.old) (held_in self.new) result (G.told outside.old) (G.told outside.new) }
        ensures only { IsTrue G.tells → ChangesOnly NoFile (G.told outside.old) (G.told outside.new) }
        ensures fault { IsReadFault result }
        ensures counts { Counts counted_fetch result (G.counts_of outside.old) (G.counts_of outside.new) }
    {
        self.fill_head(source, outside, at, stretch, to)?;
        self.fill_body(source, outside, at, stretch, to)
    }

    // Reads until the bytes have a head.
    fn fill_head<G: Ground>(
        &mut self,
        source: &Source,
        outside: &mut G,
        at: u64,
        stretch: u64,
        to: u64,
    ) -> Result<(), FetchFault>
        requires source { IsSource source.now }
        requires ahead { IsAhead self.old }
        requires room { length (held_in self.old) ≤ source.now.layout.end - at }
        ensures ahead { IsAhead self.new }
        ensures room { length (held_in self.new) ≤ source.now.layout.end - at }
        ensures goes { IsTrue G.tells → IsReadable (G.told outside.old) (view_of source.now) → GoesOn at 5 (view_of source.now) (held_in self.old) (held_in self.new) result (G.told outside.old) (G.told outside.new) }
        ensures only { IsTrue G.tells → ChangesOnly NoFile (G.told outside.old) (G.told outside.new) }
        ensures fault { IsReadFault result }
        ensures counts { Counts counted_fetch result (G.counts_of outside.old) (G.counts_of outside.new) }
    {
        if self.stop - self.start >= HEAD {
            return Ok(());
        }
        let want = self.wanted(source, at, HEAD as u64, stretch, to);
        self.more(source, outside, at, want)
    }

    // Reads until the bytes have as many as their head says.
    fn fill_body<G: Ground>(
        &mut self,
        source: &Source,
        outside: &mut G,
        at: u64,
        stretch: u64,
        to: u64,
    ) -> Result<(), FetchFault>
        requires source { IsSource source.now }
        requires ahead { IsAhead self.old }
        requires room { length (held_in self.old) ≤ source.now.layout.end - at }
        ensures ahead { IsAhead self.new }
        ensures room { length (held_in self.new) ≤ source.now.layout.end - at }
        ensures goes { IsTrue G.tells → IsReadable (G.told outside.old) (view_of source.now) → GoesOn at (needed (held_in self.old)) (view_of source.now) (held_in self.old) (held_in self.new) result (G.told outside.old) (G.told outside.new) }
        ensures only { IsTrue G.tells → ChangesOnly NoFile (G.told outside.old) (G.told outside.new) }
        ensures fault { IsReadFault result }
        ensures counts { Counts counted_fetch result (G.counts_of outside.old) (G.counts_of outside.new) }
    {
        let need = needed(self.held());
        if self.stop - self.start >= need {
            return Ok(());
        }
        let want = self.wanted(source, at, need as u64, stretch, to);
        self.more(source, outside, at, want)
    }

    // How many bytes to read up to: as many as are needed, and a stretch more at most as far as that lies in the file in which these end, and
    // below `to`.
    fn wanted(&self, source: &Source, at: u64, need: u64, stretch: u64, to: u64) -> u64
        requires source { IsSource source.now }
        requires ahead { IsAhead self.now }
        ensures { need ≤ result }
    {
        let held = (self.stop - self.start) as u64;
        let border = source.border(at.saturating_add(need)).min(to);
        let most = border.saturating_sub(at);
        need.max(held + stretch.min(most.saturating_sub(held)))
    }

    // Reads on, up to so many bytes.
    fn more<G: Ground>(
        &mut self,
        source: &Source,
        outside: &mut G,
        at: u64,
        want: u64,
    ) -> Result<(), FetchFault>
        requires source { IsSource source.now }
        requires ahead { IsAhead self.old }
        requires room { length (held_in self.old) ≤ source.now.layout.end - at }
        ensures ahead { IsAhead self.new }
        ensures room { length (held_in self.new) ≤ source.now.layout.end - at }
        ensures goes { IsTrue G.tells → IsReadable (G.told outside.old) (view_of source.now) → GoesOn at want (view_of source.now) (held_in self.old) (held_in self.new) result (G.told outside.old) (G.told outside.new) }
        ensures only { IsTrue G.tells → ChangesOnly NoFile (G.told outside.old) (G.told outside.new) }
        ensures fault { IsReadFault result }
        ensures counts { Counts counted_fetch result (G.counts_of outside.old) (G.counts_of outside.new) }
    {
        let want = want.min(source.layout.end.saturating_sub(at)) as usize;
        self.make_room(want)?;
        if self.stop >= want {
            return Ok(());
        }
        let behind = at + self.stop as u64;
        let room = want - self.stop;
        self.stop += read_into(source, outside, behind, &mut self.buffer, self.stop, room)?;
        Ok(())
    }

    // Moves the bytes to the front of the buffer, where there is room for so many then.
    fn make_room(&mut self, want: usize) -> Result<(), Memory>
        requires { IsAhead self.old }
        ensures ahead { IsAhead self.new }
        ensures held { held_in self.new ≡ held_in self.old }
        ensures front { self.new.start ≡ 0 }
        ensures room { OnOk result (want ≤ length self.new.buffer.items) }
    {
        if self.start > 0 {
            self.buffer.copy_within(self.start..self.stop, 0);
            self.stop -= self.start;
            self.start = 0;
        }
        if self.buffer.len() < want {
            self.buffer.resize(want, 0)?;
        }
        Ok(())
    }
}

// Reads the bytes from an offset on into a part of a buffer, fewer where the next is missing, and says how many.
fn read_into<G: Ground>(
    source: &Source,
    outside: &mut G,
    at: u64,
    buffer: &mut Vec<u8>,
    from: usize,
    room: usize,
) -> Result<usize, GroundFault>
    requires source { IsSource source.now }
    requires inside { at + room ≤ source.now.layout.end }
    requires fits { from + room ≤ length buffer.old.items }
    ensures size { length buffer.new.items ≡ length buffer.old.items }
    ensures front { take from buffer.new.items ≡ take from buffer.old.items }
    ensures reads { IsTrue G.tells → IsReadable (G.told outside.old) (view_of source.now) → ReadsBytes (byte_at (G.told outside.old) (view_of source.now)) at room (drop from buffer.new.items) result }
    ensures fits { IfOk result (λ n. n ≤ room) }
    ensures only { IsTrue G.tells → ChangesOnly NoFile (G.told outside.old) (G.told outside.new) }
    ensures counts { CountsAs FileFault result (G.counts_of outside.old) (G.counts_of outside.new) }
{
    source.read(outside, at, &mut buffer[from..from + room])
}

// How many bytes the record has that these begin: 0 where they do not have its head, or begin none.
#[tactic(auto, unfolding(crate::specs::Head::needed))]
fn needed(bytes: &[u8]) -> usize
    ensures { result ≡ needed bytes.now }
{
    let [kind, rest @ ..] = bytes else {
        return 0;
    };
    if *kind == 0 || *kind > BRANCH_TABLE {
        return 0;
    }
    let Some(length) = Cursor::new(rest).take_u32() else {
        return 0;
    };
    if *kind == CONTENTS && length > CONTENTS_MAX as u32 {
        return 0;
    }
    5 + length as usize
}

// The record that the bytes from an offset on begin with.
fn front_record(alloc: Global, at: u64, bytes: &[u8]) -> Result<(Record, u64), FetchFault>
    ensures reads { ReadsOne (reading newest_version bytes.now) result }
    ensures blames { BlamesPlace at result }
    ensures found { IfOk result (λ found. Fits newest_version found.0 × (found.1 ≡ length (spelling found.0)) × (found.1 ≤ length bytes.now)) }
    ensures spelled { IfOk result (λ found. BeginsWith (spelling found.0) bytes.now) }
    ensures ground { IsErrOf result FetchFault.Ground → ⊥ }
    ensures head { IsErrOf result FetchFault.Memory → IsBehindHead (reading newest_version bytes.now) }
{
    match read_record(alloc, VERSION, bytes) {
        Ok(found) => Ok(found),
        Err(RecordFault::Memory) => Err(FetchFault::Memory),
        Err(fault) => Err(FetchFault::Form { at, fault }),
    }
}

// So, and where they begin with none damage is noted. Want of memory hides no fault of the head.
fn noted_front<G: Ground>(
    alloc: Global,
    outside: &mut G,
    at: u64,
    bytes: &[u8],
) -> Result<(Record, u64), FetchFault>
    ensures reads { ReadsOne (reading newest_version bytes.now) result }
    ensures blames { BlamesPlace at result }
    ensures found { IfOk result (λ found. Fits newest_version found.0 × (found.1 ≡ length (spelling found.0)) × (found.1 ≤ length bytes.now)) }
    ensures spelled { IfOk result (λ found. BeginsWith (spelling found.0) bytes.now) }
    ensures ground { IsErrOf result FetchFault.Ground → ⊥ }
    ensures head { IsErrOf result FetchFault.Memory → IsBehindHead (reading newest_version bytes.now) }
    ensures only { IsTrue G.tells → ChangesOnly NoFile (G.told outside.old) (G.told outside.new) }
    ensures counts { Counts counted_fetch result (G.counts_of outside.old) (G.counts_of outside.new) }
{
    let found = front_record(alloc, at, bytes);
    note(outside, &found);
    found
}
