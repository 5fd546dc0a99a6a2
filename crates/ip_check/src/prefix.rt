// The prefix beside what is kept, by stretches in which records lie end to end.
ghost use Rattle.std.specs.Prelude.{◌≡◌, ℕ, ◌+◌, ◌<◌, ◌≤◌, length, reverse, drop, None, IsTrue, IfOk, IfSome, IsErrOf, OnOk};
ghost use Rattle.ip_base.specs.declared.limit.TheConstants.{OFFSET_MAX};
ghost use Rattle.ip_ground.specs.Counts.{Counts};
ghost use Rattle.ip_ground.specs.Told.{NoFile, ChangesOnly, IsForeign};
ghost use Rattle.ip_spec.specs.declared.reply.Produced.TheVariants as Produced;
ghost use Rattle.ip_spec.specs.Path.{Bytes};
ghost use Rattle.ip_image.specs.Virtual.{total, Stands};
ghost use Rattle.ip_space.specs.SpaceView.{IsReadable, byte_at};
ghost use Rattle.ip_keep.specs.Runs.{FitRuns, IsHeld};
ghost use Rattle.ip_check.specs.Alike.{IsByteOf, IsPiece, IsSoFar, SaysAlike};
ghost use Rattle.ip_check.specs.declared.fault.CheckFault.TheVariants as CheckFaultValue;
ghost use Rattle.ip_check.specs.Faults.{counted_check, IsUndamaged};
ghost use Rattle.ip_check.specs.Stretching.{IsStretch};

use crate::CheckFault;
use crate::compare::compare;
use ip_ground::{FileName, Ground};
use ip_image::run::Run;
use ip_space::Space;
use ip_spec::reply::{Difference, Produced};
use std::alloc::Global;

/// The bytes that are read at once: a mebibyte, or one record where that is longer. So one read takes many small records, and what is held does not
/// grow with the files.
const ROOM: u64 = 1048576;

/// Kept records that lie end to end.
#[derive(Clone, Copy, Debug)]
pub struct Stretch {
    pub at: u64,
    pub length: u64,
    pub records: usize,
}

/// The first of the records that are not compared, and those that lie end to end behind it, up to so many. `kept` has the greatest first.
pub fn stretch_from(kept: &[Run], compared: usize, most: u64) -> Stretch
    requires more { compared < length kept.now }
    requires some { 1 ≤ most }
    requires total { total (reverse kept.now) ≤ OFFSET_MAX }
    requires fit { FitRuns kept.now }
    ensures { IsStretch (drop compared (reverse kept.now)) most result }
{
    let left = kept.len() - compared;
    let first = kept[left - 1];
    let mut stretch = Stretch {
        at: first.at,
        length: first.length,
        records: 1,
    };
    while stretch.records < left && (stretch.records as u64) < most {
        let next = kept[left - 1 - stretch.records];
        if stretch.at + stretch.length != next.at || stretch.length + next.length > ROOM {
            break;
        }
        stretch.length += next.length;
        stretch.records += 1;
    }
    stretch
}

/// The first difference between the bytes of a stretch and those that the prefix's file has from a place on, where what lies before is alike.
/// Memory is taken for twice these bytes. Where bytes of the stretch are missing damage is noted, and it is blamed by its offset.
pub fn compare_stretch<G: Ground>(
    alloc: Global,
    outside: &mut G,
    space: &Space,
    file: FileName,
    place: u64,
    stretch: &Stretch,
) -> Result<Option<Difference>, CheckFault>
    requires inside { stretch.now.at + stretch.now.length ≤ space.now.layout.end }
    requires fits { place + stretch.now.length ≤ OFFSET_MAX }
    ensures says { IsTrue G.tells → IsReadable (G.told outside.old) space.now → ¬ IsForeign (G.told outside.old) file →
        (bytes whole : Bytes) → length bytes ≡ stretch.now.length → Stands (byte_at (G.told outside.old) space.now) stretch.now.at bytes →
        IsPiece whole place bytes → IsSoFar whole ((G.told outside.old).held file) place →
        SaysAlike Produced.Prefix whole ((G.told outside.old).held file) (place + stretch.now.length) result }
    ensures differs { IfOk result (λ found. IfSome found (IsByteOf Produced.Prefix place stretch.now.length)) }
    ensures undamaged { IsTrue G.tells → IsReadable (G.told outside.old) space.now →
        (bytes : Bytes) → length bytes ≡ stretch.now.length → Stands (byte_at (G.told outside.old) space.now) stretch.now.at bytes → IsUndamaged result }
    ensures stands { IsTrue G.tells → IsReadable (G.told outside.old) space.now → OnOk result (IsHeld (byte_at (G.told outside.old) space.now) stretch.now.at stretch.now.length) }
    ensures short { IsTrue G.tells → IsReadable (G.told outside.old) space.now → (at : ℕ) → IsErrOf result (CheckFaultValue.Damaged at) →
        (gap : ℕ) × (gap < stretch.now.length) × (byte_at (G.told outside.old) space.now (stretch.now.at + gap) ≡ None) }
    ensures blames { (at : ℕ) → IsErrOf result (CheckFaultValue.Damaged at) → at ≡ stretch.now.at }
    ensures only { IsTrue G.tells → ChangesOnly NoFile (G.told outside.old) (G.told outside.new) }
    ensures counts { Counts counted_check result (G.counts_of outside.old) (G.counts_of outside.new) }
{
    let Ok(mut want) = vec![in alloc; 0; stretch.length as usize] else {
        return Err(CheckFault::Memory);
    };
    let Ok(mut room) = vec![in alloc; 0; stretch.length as usize] else {
        return Err(CheckFault::Memory);
    };
    match read_stretch(outside, space, stretch.at, &mut want) {
        Ok(()) => {}
        Err(fault) => return Err(fault),
    }
    let found = compare(outside, file, Produced::Prefix, place, &want, &mut room)?;
    Ok(found)
}

// Reads all bytes of a stretch. Where some are missing damage is noted; it takes no memory.
fn read_stretch<G: Ground>(
    outside: &mut G,
    space: &Space,
    at: u64,
    want: &mut [u8],
) -> Result<(), CheckFault>
    requires inside { at + length want.old ≤ space.now.layout.end }
    ensures reads { IsTrue G.tells → IsReadable (G.told outside.old) space.now → OnOk result (Stands (byte_at (G.told outside.old) space.now) at want.new) }
    ensures short { IsTrue G.tells → IsReadable (G.told outside.old) space.now → (place : ℕ) → IsErrOf result (CheckFaultValue.Damaged place) →
        (gap : ℕ) × (gap < length want.old) × (byte_at (G.told outside.old) space.now (at + gap) ≡ None) }
    ensures blames { (place : ℕ) → IsErrOf result (CheckFaultValue.Damaged place) → place ≡ at }
    ensures memory { IsErrOf result CheckFaultValue.Memory → ⊥ }
    ensures only { IsTrue G.tells → ChangesOnly NoFile (G.told outside.old) (G.told outside.new) }
    ensures counts { Counts counted_check result (G.counts_of outside.old) (G.counts_of outside.new) }
{
    let count = space.read(outside, at, want)?;
    if count < want.len() {
        outside.note_damage();
        return Err(CheckFault::Damaged(at));
    }
    Ok(())
}
