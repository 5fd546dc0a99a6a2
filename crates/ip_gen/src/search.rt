// Places in the records, which ascend by offset.
ghost use Rattle.std.specs.Prelude.{◌≡◌, ◌≤◌, ◌↔◌, Contains, IfSome, IfNone, IsTrue};
ghost use Rattle.ip_base.specs.declared.limit.TheConstants.{OFFSET_MAX};
ghost use Rattle.ip_spec.specs.Core.{AreInOrder, IsPresent, end_of};
ghost use Rattle.ip_gen.specs.Laws.{HasCommit};

use ip_spec::event::CoreRecord;

/// Where the last record ends.
pub(crate) fn end(records: &[CoreRecord]) -> u64
    requires { end_of records.now ≤ OFFSET_MAX }
    ensures { result ≡ end_of records.now }
{
    match records {
        [.., last] => last.at + last.length,
        [] => 0,
    }
}

/// The record at an offset.
pub(crate) fn find(records: &[CoreRecord], at: u64) -> Option<&CoreRecord>
    requires { AreInOrder 0 records.now }
    ensures found { IfSome result (λ r. Contains records.now r.now × (r.now.at ≡ at)) }
    ensures absent { IfNone result (¬ (IsPresent records.now at)) }
{
    match records.binary_search_by(|r| r.at.cmp(&at)) {
        Ok(index) => Some(&records[index]),
        Err(_) => None,
    }
}

/// Whether a commit lies at an offset.
pub(crate) fn has_commit(records: &[CoreRecord], at: u64) -> bool
    requires { AreInOrder 0 records.now }
    ensures { IsTrue result ↔ HasCommit records.now at }
{
    match find(records, at) {
        Some(record) => record.commit,
        None => false,
    }
}
