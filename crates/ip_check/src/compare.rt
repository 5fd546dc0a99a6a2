// A file beside the bytes that it is to have.
ghost use Rattle.std.specs.Prelude.{◌≡◌, ◌+◌, ◌<◌, ◌≤◌, length, slice_index_or, IsTrue, IfOk, IfSome};
ghost use Rattle.ip_base.specs.declared.limit.TheConstants.{OFFSET_MAX};
ghost use Rattle.ip_ground.specs.Counts.{CountsAs, FileFault};
ghost use Rattle.ip_ground.specs.Told.{NoFile, ChangesOnly, IsForeign};
ghost use Rattle.ip_spec.specs.declared.reply.Seen.TheVariants as Seen;
ghost use Rattle.ip_spec.specs.Path.{Bytes};
ghost use Rattle.ip_check.specs.Alike.{IsByteOf, IsEndOf, IsFirstOther, IsPiece, IsSoFar, SaysAlike, SaysEnd, ends};

use ip_ground::{FileName, Ground, GroundFault};
use ip_spec::reply::{Difference, Produced, Seen};

/// The first difference between the bytes that a file is to have from a place on and those that it has, where what lies before them is alike.
/// `room` is what is read into.
pub fn compare<G: Ground>(
    outside: &mut G,
    file: FileName,
    produced: Produced,
    place: u64,
    want: &[u8],
    room: &mut [u8],
) -> Result<Option<Difference>, GroundFault>
    requires room { length want.now ≤ length room.old }
    requires fits { place + length want.now ≤ OFFSET_MAX }
    ensures differs { IfOk result (λ found. IfSome found (IsByteOf produced place (length want.now))) }
    ensures says { IsTrue G.tells → ¬ IsForeign (G.told outside.old) file → (whole : Bytes) → IsPiece whole place want.now → IsSoFar whole ((G.told outside.old).held file) place →
        SaysAlike produced whole ((G.told outside.old).held file) (place + length want.now) result }
    ensures room { length room.new ≡ length room.old }
    ensures only { IsTrue G.tells → ChangesOnly NoFile (G.told outside.old) (G.told outside.new) }
    ensures counts { CountsAs FileFault result (G.counts_of outside.old) (G.counts_of outside.new) }
{
    if want.is_empty() {
        return Ok(None);
    }
    compare_part(
        outside,
        file,
        produced,
        place,
        want,
        &mut room[..want.len()],
    )
}

/// The difference where a file that is alike up to a place goes on behind it, or is absent; none where it ends there.
pub fn compare_end<G: Ground>(
    outside: &mut G,
    file: FileName,
    produced: Produced,
    place: u64,
) -> Result<Option<Difference>, GroundFault>
    ensures differs { IfOk result (λ found. IfSome found (IsEndOf produced)) }
    ensures says { IsTrue G.tells → ¬ IsForeign (G.told outside.old) file → (whole : Bytes) → length whole ≡ place → IsSoFar whole ((G.told outside.old).held file) place →
        SaysEnd produced whole ((G.told outside.old).held file) result }
    ensures only { IsTrue G.tells → ChangesOnly NoFile (G.told outside.old) (G.told outside.new) }
    ensures counts { CountsAs FileFault result (G.counts_of outside.old) (G.counts_of outside.new) }
{
    let mut room = [0; 1];
    let count = outside.read(file, place, &mut room)?;
    if count > 0 {
        return Ok(Some(Difference {
            file: produced,
            at: place,
            want: Seen::End,
            got: Seen::Byte(room[0]),
        }));
    }
    match outside.length(file)? {
        Some(_) => Ok(None),
        None => Ok(Some(Difference {
            file: produced,
            at: 0,
            want: Seen::End,
            got: Seen::Absent,
        })),
    }
}

// The first place at which bytes are not those that are wanted, or where they end before these do.
fn first_other(want: &[u8], got: &[u8]) -> Option<usize>
    ensures { IsFirstOther want.now got.now result }
{
    for index in 0..want.len() {
        if index >= got.len() || got[index] != want[index] {
            return Some(index);
        }
    }
    None
}

// Compares some bytes, with as much room.
fn compare_part<G: Ground>(
    outside: &mut G,
    file: FileName,
    produced: Produced,
    place: u64,
    want: &[u8],
    room: &mut [u8],
) -> Result<Option<Difference>, GroundFault>
    requires some { 0 < length want.now }
    requires room { length want.now ≡ length room.old }
    requires fits { place + length want.now ≤ OFFSET_MAX }
    ensures differs { IfOk result (λ found. IfSome found (IsByteOf produced place (length want.now))) }
    ensures says { IsTrue G.tells → ¬ IsForeign (G.told outside.old) file → (whole : Bytes) → IsPiece whole place want.now → IsSoFar whole ((G.told outside.old).held file) place →
        SaysAlike produced whole ((G.told outside.old).held file) (place + length want.now) result }
    ensures only { IsTrue G.tells → ChangesOnly NoFile (G.told outside.old) (G.told outside.new) }
    ensures counts { CountsAs FileFault result (G.counts_of outside.old) (G.counts_of outside.new) }
{
    let count = outside.read(file, place, room)?;
    let found = &room[..count];
    let Some(index) = first_other(want, found) else {
        return Ok(None);
    };
    let at = place + index as u64;
    let got = seen_there(outside, file, at, found, index)?;
    Ok(Some(Difference {
        file: produced,
        at,
        want: Seen::Byte(want[index]),
        got,
    }))
}

// What stands at a place of a file where these bytes were read, at an index of them. Where none was, in front of all bytes, the file may be absent.
fn seen_there<G: Ground>(
    outside: &mut G,
    file: FileName,
    at: u64,
    found: &[u8],
    index: usize,
) -> Result<Seen, GroundFault>
    ensures within { index < length found.now → IfOk result (λ got. got ≡ Seen.Byte (slice_index_or found.now index 0)) }
    ensures behind { length found.now ≤ index → 0 < at → IfOk result (λ got. got ≡ Seen.End) }
    ensures front { IsTrue G.tells → ¬ IsForeign (G.told outside.old) file → length found.now ≤ index → at ≡ 0 → IfOk result (λ got. got ≡ ends ((G.told outside.old).held file)) }
    ensures only { IsTrue G.tells → ChangesOnly NoFile (G.told outside.old) (G.told outside.new) }
    ensures counts { CountsAs FileFault result (G.counts_of outside.old) (G.counts_of outside.new) }
{
    if index < found.len() {
        return Ok(Seen::Byte(found[index]));
    }
    if at > 0 {
        return Ok(Seen::End);
    }
    match outside.length(file)? {
        Some(_) => Ok(Seen::End),
        None => Ok(Seen::Absent),
    }
}
