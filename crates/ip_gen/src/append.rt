// Records behind those that are present.
ghost use Rattle.std.specs.Prelude.{◌≡◌, ℕ, ◌<◌, ◌≤◌, ◌↔◌, ◌++◌, IsTrue, true, false, Ok, OnErr, IfOk, length, take};
ghost use Rattle.std.specs.List.{AllByRecursion};
ghost use Rattle.ip_base.specs.declared.limit.TheConstants.{OFFSET_MAX};
ghost use Rattle.ip_spec.specs.Core.{AreInOrder, IsPresent, Stays, Follows, FollowOn, end_of};
ghost use Rattle.ip_gen.specs.Phases.{phase_of};

use crate::phase::Phase;
use crate::search::{end, find};
use ip_base::limit::OFFSET_MAX;
use ip_base::{Items, Memory};
use ip_spec::event::CoreRecord;
use std::alloc::Global;

fn refs_allowed(records: &[CoreRecord], phase: &Phase, before: u64, refs: &[u64]) -> bool
    requires { AreInOrder 0 records.now }
    ensures { IsTrue result ↔ AllByRecursion (λ at. (at < before) × IsPresent records.now at × Stays (phase_of phase.now) at) refs.now }
{
    for at in refs {
        if *at >= before || find(records, *at).is_none() || !phase.keeps(*at) {
            return false;
        }
    }
    true
}

fn follows(records: &[CoreRecord], phase: &Phase, next: &CoreRecord) -> bool
    requires order { AreInOrder 0 records.now }
    requires room { end_of records.now ≤ OFFSET_MAX }
    ensures { IsTrue result ↔ Follows records.now (phase_of phase.now) next.now }
{
    let end = end(records);
    next.at == end
        && next.length > 0
        && next.length <= OFFSET_MAX - end
        && refs_allowed(records, phase, next.at, next.refs.as_slice())
}

fn copy_of(alloc: Global, source: &CoreRecord) -> Result<CoreRecord, Memory>
    ensures { IfOk result (λ r. r ≡ source.now) }
{
    Ok(CoreRecord {
        at: source.at,
        length: source.length,
        refs: Items::copy_of(alloc, source.refs.as_slice())?,
        commit: source.commit,
    })
}

fn append_while(
    alloc: Global,
    records: &mut Vec<CoreRecord>,
    phase: &Phase,
    more: &[CoreRecord],
) -> Result<bool, Memory>
    requires order { AreInOrder 0 records.old.items }
    requires room { end_of records.old.items ≤ OFFSET_MAX }
    ensures begun { (n : ℕ) × (records.new.items ≡ records.old.items ++ take n more.now) }
    ensures taken { result ≡ Ok true → FollowOn records.old.items (phase_of phase.now) more.now × (records.new.items ≡ records.old.items ++ more.now) }
    ensures refused { result ≡ Ok false → ¬ (FollowOn records.old.items (phase_of phase.now) more.now) }
{
    for record in more {
        if !follows(records, phase, record) {
            return Ok(false);
        }
        records.push(copy_of(alloc, record)?)?;
    }
    Ok(true)
}

/// Appends records: all of them, or none where one does not follow.
pub(crate) fn append(
    alloc: Global,
    records: &mut Vec<CoreRecord>,
    phase: &Phase,
    more: &[CoreRecord],
) -> Result<bool, Memory>
    requires order { AreInOrder 0 records.old.items }
    requires room { end_of records.old.items ≤ OFFSET_MAX }
    ensures taken { result ≡ Ok true → FollowOn records.old.items (phase_of phase.now) more.now × (records.new.items ≡ records.old.items ++ more.now) }
    ensures refused { result ≡ Ok false → ¬ (FollowOn records.old.items (phase_of phase.now) more.now) × (records.new.items ≡ records.old.items) }
    ensures memory { OnErr result (records.new.items ≡ records.old.items) }
{
    let before = records.len();
    let appended = append_while(alloc, records, phase, more);
    if !matches!(appended, Ok(true)) {
        records.truncate(before);
    }
    appended
}
