// The space of a store's records.
ghost use Rattle.std.specs.Prelude.{◌≡◌, ◌≢◌, ℕ, ◌+◌, ◌<◌, ◌≤◌, ◌^◌, ◌==◌, [], length, map, take, slice_get, None, Some, Ok, option_copied, IfSome, IsSome, IsTrue, IfOk, IsOk, IsErrOf, MatchResult, if◌then◌else◌};
ghost use Rattle.ip_space.specs.Faults.{counted_fetch, counted_space};
ghost use Rattle.ip_ground.specs.Counts.{Counts, CountsAs, FileFault};
ghost use Rattle.ip_ground.specs.Told.{NoFile, ChangesOnly};
ghost use Rattle.ip_base.specs.declared.limit.TheConstants.{OFFSET_MAX};
ghost use Rattle.ip_spec.specs.declared.kind.TheConstants as kinds;
ghost use Rattle.ip_spec.specs.declared.record.Record.{Record as Stored};
ghost use Rattle.ip_spec.specs.Record.{Fits, name_of, spelling, reference_kind as kind_referred};
ghost use Rattle.ip_image.specs.Slot.{newest_version, IsChunkSize};
ghost use Rattle.ip_image.specs.Virtual.{run_of, placed, RowsFit, lies_at};
ghost use Rattle.ip_space.specs.SpaceView.{grown, bare, kept_at, stretches_of, AreBelow, IsLayout, OnlyReads, IsReadable, records_of, read_at, byte_at};
ghost use Rattle.ip_space.specs.Ahead.{ReadsBytes};
ghost use Rattle.ip_space.specs.Fetching.{Blames, BlamesPlace, Fetches, FindsRecord, IsBecause, IsFoundOf, Meets, ReadsOne, Refers, TellsDamage};
ghost use Rattle.ip_space.specs.Kept.{IsBounded, brought, GainsNone, GainsAtMost, IsKnown, answer_of, found_again};
ghost use Rattle.ip_space.specs.Pair.{IsOwnPair, FindsSpace};
ghost use Rattle.ip_space.specs.Scanning.{IsWhole};
ghost use Rattle.ip_space.specs.ScanView.{ScanView};
ghost use Rattle.ip_space.specs.declared.fault.FetchFault.TheVariants as FetchFault;
ghost use Rattle.ip_space.specs.declared.fault.SpaceFault.TheVariants as SpaceFault;

use crate::ahead::Ahead;
use crate::cache::{Cache, RECORD_BYTES_MAX};
use crate::copied::copy_record;
use crate::live::read_live;
use crate::noting::note;
use crate::source::Source;
use crate::{FetchFault, Scan, SpaceFault};
use ip_base::{Hash, Memory};
use ip_chunks::Chunks;
use ip_ground::{FileName, Ground, GroundFault};
use ip_image::layout::Layout;
use ip_image::run::Run;
use ip_mapping::Mapping;
use ip_object::{kind_of, name_of_record};
use ip_spec::kind::{DIRECTORY, INODE};
use ip_spec::record::{Record, RecordFault, Ref};
use std::alloc::Global;
use std::marker::Model;

/// The bytes that are asked for where the length of a record is not known yet. Most records have fewer.
const PAGE: u64 = 4096;

/// The records of a store by reference, below the end of a layout, and those of them that were fetched last.
#[derive(Drop)]
pub struct Space {
    alloc: Global,
    pub(crate) source: Source,
    ahead: Ahead,
    cache: Cache,
}

impl Model for Space {
    ghost use Rattle.std.specs.Prelude.{map};
    ghost use Rattle.ip_image.specs.Virtual.{run_of};
    ghost use Rattle.ip_space.specs.SpaceView.{SpaceView};
    ghost use Rattle.ip_space.specs.Viewed.{IsSource};

    ghost Value = { SpaceView };

    ghost view = { λ s. record { layout = s.source.layout; runs = map run_of s.source.mapping.rows; kept = s.cache } };

    ghost invariant = { λ s. IsSource s.source };
}

impl Space {
    /// The space of a layout. Where a generation of a collection is live its mapping is read, which takes memory for it, and the length of
    /// its prefix is asked for. Else nothing is read, and no memory is taken.
    pub fn of<G: Ground>(
        alloc: Global,
        outside: &mut G,
        layout: Layout,
    ) -> Result<Space, SpaceFault>
        requires chunk { IsChunkSize layout.chunk }
        requires order { layout.horizon ≤ layout.end }
        requires ends { layout.end ≤ OFFSET_MAX }
        requires nothing_below { layout.live ≡ 0 → layout.horizon ≡ 0 }
        ensures view { IfOk result (λ space. space.layout ≡ layout) }
        ensures runs { layout.live ≡ 0 → IfOk result (λ space. space.runs ≡ []) }
        ensures kept { IfOk result (λ space. space.kept ≡ []) }
        ensures opens { layout.live ≡ 0 → IsOk result }
        ensures finds { IsTrue G.tells → layout.live ≢ 0 → IsOwnPair (G.told outside.old) layout → FindsSpace (G.told outside.new).held layout result }
        ensures only { IsTrue G.tells → ChangesOnly NoFile (G.told outside.old) (G.told outside.new) }
        ensures readable { IsTrue G.tells → (layout.live ≢ 0 → IsOwnPair (G.told outside.old) layout) → IfOk result (λ space. IsReadable (G.told outside.new) space) }
        ensures unread { layout.live ≡ 0 → outside.new ≡ outside.old }
        ensures counts { Counts counted_space result (G.counts_of outside.old) (G.counts_of outside.new) }
    {
        if layout.live == 0 {
            let mapping = Mapping::none(alloc, layout.horizon, layout.end);
            return Ok(Space::with(alloc, layout, mapping));
        }
        let mapping = match read_live(alloc, outside, layout) {
            Ok(mapping) => mapping,
            Err(fault) => return Err(fault),
        };
        Ok(Space::with(alloc, layout, mapping))
    }

    /// The space of a layout over these runs, which fill the live prefix one behind another. It reads nothing.
    pub fn over(alloc: Global, layout: Layout, runs: &[Run]) -> Result<Space, Memory>
        requires chunk { IsChunkSize layout.chunk }
        requires order { layout.horizon ≤ layout.end }
        requires ends { layout.end ≤ OFFSET_MAX }
        requires nothing_below { layout.live ≡ 0 → layout.horizon ≡ 0 }
        requires fits { RowsFit layout.horizon (placed 0 runs.now) }
        ensures { IfOk result (λ space. space ≡ record { layout = layout; runs = runs.now; kept = [] }) }
    {
        let mapping = Mapping::of_runs(alloc, layout.horizon, layout.end, runs)?;
        Ok(Space::with(alloc, layout, mapping))
    }

    /// The space up to an earlier end, of which nothing is kept yet.
    pub fn copy_up_to(&self, end: u64) -> Result<Space, Memory>
        requires above { self.now.layout.horizon ≤ end }
        requires earlier { end ≤ self.now.layout.end }
        ensures { IfOk result (λ space. space ≡ bare (grown self.now end)) }
    {
        let mapping = self.source.mapping.copy(self.alloc)?;
        let layout = Layout {
            end,
            ..self.source.layout
        };
        Ok(Space::with(self.alloc, layout, mapping))
    }

    fn with(alloc: Global, layout: Layout, mapping: Mapping) -> Space
        requires layout { IsLayout layout }
        requires horizon { mapping.horizon ≡ layout.horizon }
        ensures { result ≡ record { layout = layout; runs = map run_of mapping.rows; kept = [] } }
    {
        Space {
            alloc,
            source: Source { layout, mapping },
            ahead: Ahead::new(alloc),
            cache: Cache::new(alloc),
        }
    }

    /// The numbers of the slot that tell where records lie.
    pub fn layout(&self) -> Layout
        ensures { result ≡ self.now.layout }
    {
        self.source.layout
    }

    /// The file where the byte at an offset lies, and the place in that file; nothing where no byte may lie there.
    pub fn lies_at(&self, at: u64) -> Option<(FileName, u64)>
        ensures { result ≡ lies_at self.now.layout self.now.runs at }
    {
        let Layout {
            chunk,
            horizon,
            live,
            ..
        } = self.source.layout;
        if at >= horizon {
            return Some(Chunks { size: chunk }.file_of(at));
        }
        let place = self.source.mapping.locate(at)?;
        Some((FileName::Prefix(live), place))
    }

    /// The stretch of this number, counted from 0, in which records lie end to end: a run below the horizon, or behind all of these what lies
    /// from the horizon to the end. Nothing where there are no more.
    pub fn stretch_at(&self, number: usize) -> Option<Run>
        ensures is { result ≡ slice_get (stretches_of self.now) number }
        ensures in_order { IfSome result (λ run. AreBelow run.at (take number (stretches_of self.now))) }
        ensures inside { IfSome result (λ run. run.at + run.length ≤ self.now.layout.end) }
        ensures countable { IfSome result (λ run. number < 2 ^ 63) }
    {
        let rows = self.source.mapping.rows();
        if number < rows.len() {
            let row = rows[number];
            return Some(Run {
                at: row.at,
                length: row.length,
            });
        }
        if number > rows.len() {
            return None;
        }
        let Layout { horizon, end, .. } = self.source.layout;
        Some(Run {
            at: horizon,
            length: end - horizon,
        })
    }

    /// The record at a reference, of its kind and name, as `bring` finds it. Where it is kept it is a copy.
    pub fn fetch<G: Ground>(
        &mut self,
        outside: &mut G,
        reference: Ref,
    ) -> Result<Record, FetchFault>
        ensures reads { IsTrue G.tells → OnlyReads (G.told outside.old) (G.told outside.new) self.old self.new }
        ensures found { IsTrue G.tells → IsReadable (G.told outside.old) self.old →
            Fetches (records_of (G.told outside.old) self.old) reference result }
        ensures because { IsTrue G.tells → IsReadable (G.told outside.old) self.old →
            IsBecause (read_at (G.told outside.old) self.old reference.at) result }
        ensures blames { Blames reference result }
        ensures meets { IfOk result (λ found. Meets reference found) }
        ensures bounds { IfOk result (λ found. Fits newest_version found) }
        ensures layout { self.new.layout ≡ self.old.layout }
        ensures runs { self.new.runs ≡ self.old.runs }
        ensures kept { IsBounded self.new.kept }
        ensures known { (rec : Stored) → kept_at reference.at self.old.kept ≡ Some rec → IsFoundOf rec reference result }
        ensures unread { IsSome (kept_at reference.at self.old.kept) → (TellsDamage result → ⊥) → outside.new ≡ outside.old }
        ensures counts { Counts counted_fetch result (G.counts_of outside.old) (G.counts_of outside.new) }
    {
        let at = reference.at;
        match self.bring(outside, reference) {
            Ok(Some(rec)) => Ok(rec),
            Ok(None) => self.copy_kept(at),
            Err(fault) => Err(fault),
        }
    }

    /// Brings the record at a reference, of its kind and name, and keeps it: then `kept` lends it. One that is not kept, since it has too many
    /// bytes or memory was refused, is handed out. What is kept is not read again, so no want of memory hides that it is not the reference's; else it
    /// reads as `record_at` does. The kind is tried before the name, also of what is kept.
    pub fn bring<G: Ground>(
        &mut self,
        outside: &mut G,
        reference: Ref,
    ) -> Result<Option<Record>, FetchFault>
        ensures reads { IsTrue G.tells → OnlyReads (G.told outside.old) (G.told outside.new) self.old self.new }
        ensures found { IsTrue G.tells → IsReadable (G.told outside.old) self.old →
            Fetches (records_of (G.told outside.old) self.old) reference (brought (kept_at reference.at self.new.kept) result) }
        ensures because { IsTrue G.tells → IsReadable (G.told outside.old) self.old →
            IsBecause (read_at (G.told outside.old) self.old reference.at) (brought (kept_at reference.at self.new.kept) result) }
        ensures here { IfOk result (λ found. found ≡ None → IsSome (kept_at reference.at self.new.kept)) }
        ensures blames { Blames reference (brought (kept_at reference.at self.new.kept) result) }
        ensures meets { IfOk (brought (kept_at reference.at self.new.kept) result) (λ found. Meets reference found) }
        ensures bounds { IfOk (brought (kept_at reference.at self.new.kept) result) (λ found. Fits newest_version found) }
        ensures layout { self.new.layout ≡ self.old.layout }
        ensures runs { self.new.runs ≡ self.old.runs }
        ensures kept { IsBounded self.new.kept }
        ensures known { (rec : Stored) → kept_at reference.at self.old.kept ≡ Some rec → Refers rec reference (brought (kept_at reference.at self.new.kept) result) }
        ensures unread { IsSome (kept_at reference.at self.old.kept) → (TellsDamage result → ⊥) → outside.new ≡ outside.old }
        ensures counts { Counts counted_fetch result (G.counts_of outside.old) (G.counts_of outside.new) }
    {
        if let Some(answer) = self.known(&reference) {
            let found = self.again(reference.at, answer);
            note(outside, &found);
            return found;
        }
        let (rec, length) = match self.record_at(outside, reference.at) {
            Ok(found) => found,
            Err(fault) => return Err(fault),
        };
        self.take_noted(outside, &reference, rec, length)
    }

    // What is kept is used again.
    fn again(
        &mut self,
        at: u64,
        answer: Result<(), FetchFault>,
    ) -> Result<Option<Record>, FetchFault>
        ensures layout { self.new.layout ≡ self.old.layout }
        ensures runs { self.new.runs ≡ self.old.runs }
        ensures none { GainsNone self.old.kept self.new.kept }
        ensures is { kept_at at self.new.kept ≡ kept_at at self.old.kept }
        ensures answers { result ≡ found_again answer }
        ensures bounded { IsBounded self.new.kept }
    {
        self.cache.touch(at);
        match answer {
            Ok(()) => Ok(None),
            Err(fault) => Err(fault),
        }
    }

    // What comes of a record that was read at a reference: it is kept or handed back, or it is not the reference's.
    fn take(
        &mut self,
        reference: &Ref,
        rec: Record,
        bytes: u64,
    ) -> Result<Option<Record>, FetchFault>
        requires fits { Fits newest_version rec }
        requires bytes { bytes ≡ length (spelling rec) }
        ensures layout { self.new.layout ≡ self.old.layout }
        ensures runs { self.new.runs ≡ self.old.runs }
        ensures gains { GainsAtMost reference.now.at rec self.old.kept self.new.kept }
        ensures refers { Refers rec reference.now (brought (kept_at reference.now.at self.new.kept) result) }
        ensures bounded { IsBounded self.old.kept → IsBounded self.new.kept }
    {
        let name = name_if_of_kind(&rec, reference);
        match refers(&rec, name, reference) {
            Ok(()) => Ok(self.keep(reference, rec, bytes)),
            Err(refused) => Err(refused),
        }
    }

    // So, and where it is not the reference's damage is noted. Where memory for keeping it is refused it is handed back, so want of memory is no answer.
    fn take_noted<G: Ground>(
        &mut self,
        outside: &mut G,
        reference: &Ref,
        rec: Record,
        bytes: u64,
    ) -> Result<Option<Record>, FetchFault>
        requires fits { Fits newest_version rec }
        requires bytes { bytes ≡ length (spelling rec) }
        ensures layout { self.new.layout ≡ self.old.layout }
        ensures runs { self.new.runs ≡ self.old.runs }
        ensures gains { GainsAtMost reference.now.at rec self.old.kept self.new.kept }
        ensures refers { Refers rec reference.now (brought (kept_at reference.now.at self.new.kept) result) }
        ensures bounded { IsBounded self.old.kept → IsBounded self.new.kept }
        ensures memory { IsErrOf result FetchFault.Memory → ⊥ }
        ensures only { IsTrue G.tells → ChangesOnly NoFile (G.told outside.old) (G.told outside.new) }
        ensures counts { Counts counted_fetch result (G.counts_of outside.old) (G.counts_of outside.new) }
    {
        let found = self.take(reference, rec, bytes);
        note(outside, &found);
        found
    }

    /// The record that is kept for an offset.
    pub fn kept(&self, at: u64) -> Option<&Record>
        ensures { option_copied result ≡ kept_at at self.now.kept }
    {
        let kept = self.cache.get(at)?;
        Some(&kept.rec)
    }

    /// The record that `bring` answered for a reference at this offset: the one that is kept, where it handed none out.
    pub fn lent<'a>(&'a self, at: u64, found: &'a Option<Record>) -> &'a Record
        requires { found.now ≡ None → IsSome (kept_at at self.now.kept) }
        ensures { Ok result.now ≡ brought (kept_at at self.now.kept) (Ok found.now) }
    {
        match found {
            Some(rec) => rec,
            None => match self.kept(at) {
                Some(rec) => rec,
                None => unreachable!(),
            },
        }
    }

    // Whether the record that is kept for the offset of a reference is the reference's, if there is one.
    fn known(&self, reference: &Ref) -> Option<Result<(), FetchFault>>
        ensures is { IsKnown (kept_at reference.now.at self.now.kept) reference.now result }
        ensures bounded { IsBounded self.now.kept }
    {
        let kept = self.cache.get(reference.at)?;
        Some(refers(&kept.rec, Some(kept.name), reference))
    }

    // Keeps the record of a reference, or hands it back.
    fn keep(&mut self, reference: &Ref, rec: Record, bytes: u64) -> Option<Record>
        requires fits { Fits newest_version rec }
        requires meets { Meets reference.now rec }
        requires bytes { bytes ≡ length (spelling rec) }
        ensures layout { self.new.layout ≡ self.old.layout }
        ensures runs { self.new.runs ≡ self.old.runs }
        ensures gains { GainsAtMost reference.now.at rec self.old.kept self.new.kept }
        ensures kept { result ≡ None → kept_at reference.now.at self.new.kept ≡ Some rec }
        ensures back { IfSome result (λ back. back ≡ rec) }
        ensures bounded { IsBounded self.old.kept → IsBounded self.new.kept }
    {
        if bytes > RECORD_BYTES_MAX {
            return Some(rec);
        }
        self.cache.keep(reference.at, reference.name, rec)
    }

    // A copy of the record that is kept for an offset.
    fn copy_kept(&self, at: u64) -> Result<Record, FetchFault>
        requires { IsSome (kept_at at self.now.kept) }
        ensures { MatchResult result (λ rec. kept_at at self.now.kept ≡ Some rec) (λ fault. fault ≡ FetchFault.Memory) }
    {
        match self.cache.get(at) {
            Some(kept) => Ok(copy_record(self.alloc, &kept.rec)?),
            None => unreachable!(),
        }
    }

    /// The record at an offset, whatever it is, and its length in bytes. It makes two reads at most of the file in which the record begins, and one of each file into which
    /// the record goes on. They go into a buffer that is used again, and memory is taken for what the record holds.
    pub fn record_at<G: Ground>(
        &mut self,
        outside: &mut G,
        at: u64,
    ) -> Result<(Record, u64), FetchFault>
        ensures reads { IsTrue G.tells → OnlyReads (G.told outside.old) (G.told outside.new) self.old self.new }
        ensures found { IsTrue G.tells → IsReadable (G.told outside.old) self.old → FindsRecord (records_of (G.told outside.old) self.old) at result }
        ensures because { IsTrue G.tells → IsReadable (G.told outside.old) self.old → ReadsOne (read_at (G.told outside.old) self.old at) result }
        ensures whole { IsTrue G.tells → IsReadable (G.told outside.old) self.old → IfOk result (λ found. IsWhole (byte_at (G.told outside.new) self.old) self.old.layout.end at found.0) }
        ensures blames { BlamesPlace at result }
        ensures bounds { IfOk result (λ found. Fits newest_version found.0) }
        ensures length { IfOk result (λ found. found.1 ≡ length (spelling found.0)) }
        ensures inside { IfOk result (λ found. at + found.1 ≤ self.old.layout.end) }
        ensures layout { self.new.layout ≡ self.old.layout }
        ensures runs { self.new.runs ≡ self.old.runs }
        ensures kept { self.new.kept ≡ self.old.kept }
        ensures counts { Counts counted_fetch result (G.counts_of outside.old) (G.counts_of outside.new) }
    {
        self.ahead.clear();
        let found = match self
            .ahead
            .read_one(self.alloc, &self.source, outside, at, PAGE, u64::MAX)
        {
            Ok(found) => found,
            Err(fault) => return Err(fault),
        };
        Ok(found)
    }

    /// Copies the bytes from an offset on into `out`, up to the first that is missing, and says how many. Each file in which they lie is read
    /// once, and nothing is kept of them.
    pub fn read<G: Ground>(
        &self,
        outside: &mut G,
        at: u64,
        out: &mut [u8],
    ) -> Result<usize, GroundFault>
        requires room { at + length out.old ≤ self.now.layout.end }
        ensures reads { IsTrue G.tells → IsReadable (G.told outside.old) self.now →
            ReadsBytes (byte_at (G.told outside.old) self.now) at (length out.old) out.new result }
        ensures fits { IfOk result (λ n. n ≤ length out.old) }
        ensures only { IsTrue G.tells → ChangesOnly NoFile (G.told outside.old) (G.told outside.new) }
        ensures counts { CountsAs FileFault result (G.counts_of outside.old) (G.counts_of outside.new) }
    {
        self.source.read(outside, at, out)
    }

    /// A walk over the records between two offsets, of which none was read yet. Each is to be the offset of a record, or the end.
    pub fn scan(&self, from: u64, to: u64) -> Scan
        ensures { result ≡ record { next = from; to = to; ahead = [] } }
    {
        Scan::new(self.alloc, from, to)
    }

    /// Raises the end, after records were appended behind it.
    pub fn grow(&mut self, end: u64)
        requires further { self.old.layout.end ≤ end }
        requires ends { end ≤ OFFSET_MAX }
        ensures { self.new ≡ grown self.old end }
    {
        self.source.layout.end = end;
    }
}

// The name of a record of the reference's kind. One of another kind is not hashed.
fn name_if_of_kind(rec: &Record, reference: &Ref) -> Option<Hash>
    requires { Fits newest_version rec.now }
    ensures { kind_referred rec.now ≡ reference.now.kind → result ≡ name_of rec.now }
{
    if reference_kind(kind_of(rec)) != reference.kind {
        return None;
    }
    name_of_record(rec)
}

// Whether a record has the kind and the name of the reference. The name is that of the record, where it has the kind.
fn refers(rec: &Record, name: Option<Hash>, reference: &Ref) -> Result<(), FetchFault>
    requires { kind_referred rec.now ≡ reference.now.kind → name ≡ name_of rec.now }
    ensures { Refers rec.now reference.now (answer_of rec.now result) }
{
    let at = reference.at;
    let want = reference.name;
    let kind = kind_of(rec);
    match name {
        Some(got) if reference_kind(kind) == reference.kind => {
            if got == want {
                Ok(())
            } else {
                Err(FetchFault::Name { at, want, got })
            }
        }
        _ => Err(FetchFault::Form {
            at,
            fault: RecordFault::Kind(kind),
        }),
    }
}

// The number by which a reference tells the kind: an inode is a directory as a leaf is.
fn reference_kind(kind: u8) -> u8
    ensures { result ≡ (if kind == kinds.INODE then kinds.DIRECTORY else kind) }
{
    if kind == INODE { DIRECTORY } else { kind }
}
