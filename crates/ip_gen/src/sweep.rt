// What a collection keeps, and what it lets go.
ghost use Rattle.std.specs.Prelude.{◌≡◌, ◌⊎◌, ◌↔◌, ℕ, ◌<◌, ◌≤◌, Contains, IfOk, OnOk, filter};
ghost use Rattle.std.specs.Ordering.{nat_cmp};
ghost use Rattle.std.specs.BTreeSet.{IsOrdered};
ghost use Rattle.ip_spec.specs.Core.{AreInOrder, AreReached, end_of, stays};
ghost use Rattle.ip_gen.specs.Laws.{RefersBelow};

use ip_base::Memory;
use ip_spec::event::CoreRecord;
use std::alloc::Global;
use std::collections::BTreeSet;

fn insert_below(kept: &mut BTreeSet<u64>, commit: u64, refs: &[u64]) -> Result<(), Memory>
    requires { IsOrdered nat_cmp kept.old }
    ensures added { OnOk result ((at : ℕ) → Contains kept.new.keys at ↔ (Contains kept.old.keys at ⊎ (Contains refs.now at × (at < commit)))) }
    ensures ordered { IsOrdered nat_cmp kept.new }
{
    for at in refs {
        if *at < commit {
            kept.insert(*at)?;
        }
    }
    Ok(())
}

/// The offsets below a commit that the records from it on reach. References point strictly below, so one descending pass finds them.
pub(crate) fn reached(
    alloc: Global,
    records: &[CoreRecord],
    commit: u64,
) -> Result<BTreeSet<u64>, Memory>
    requires order { AreInOrder 0 records.now }
    requires below { RefersBelow records.now }
    ensures { IfOk result (λ kept. AreReached records.now commit (end_of records.now) kept.keys) }
{
    let mut kept = BTreeSet::new(alloc);
    for i in (0..records.len()).rev() {
        let record = &records[i];
        if commit <= record.at || kept.contains(&record.at) {
            insert_below(&mut kept, commit, record.refs.as_slice())?;
        }
    }
    Ok(kept)
}

fn lasts(commit: u64, kept: &BTreeSet<u64>, candidate: &CoreRecord) -> bool
    ensures { result ≡ stays commit kept.now.keys candidate.now }
{
    commit <= candidate.at || kept.contains(&candidate.at)
}

/// Lets go of the records below a commit that are not kept.
pub(crate) fn let_go(records: &mut Vec<CoreRecord>, commit: u64, kept: &BTreeSet<u64>)
    ensures { records.new.items ≡ filter (stays commit kept.now.keys) records.old.items }
{
    records.retain(|record| lasts(commit, kept, record));
}
