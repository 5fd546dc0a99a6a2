// What a session answers, and what it meets.
ghost use Rattle.std.specs.Prelude.{◌≡◌, ◌≤◌, [], true, IfOk, Some, Ok, Err};
ghost use Rattle.std.specs.Vec.{vec_capacity};
ghost use Rattle.ip_spec.specs.declared.reply.Reply.TheVariants as Reply;
ghost use Rattle.ip_spec.specs.Step.{got_reply, listed_reply};
ghost use Rattle.ip_held.specs.Answers.{fault_reply, reply_to};
ghost use Rattle.ip_appends.specs.Merging.{merge_reply};
ghost use Rattle.ip_appends.specs.Naming.{branch_reply, removed_reply};
ghost use Rattle.ip_session.specs.Asking.{MeetsNone, TellsNone};
ghost use Rattle.ip_session.specs.declared.session.TheConstants.{REPLY_ROOM};
ghost use Rattle.ip_session.specs.Session.{met_only, Writes, Fails, fault_answer, tree_fault, IsAnswer};

use crate::session::SessionEnd;
use ip_base::{Blob, Hash};
use ip_script::{Reply, reply_text};
use ip_spec::met::{Child, Met};
use ip_spec::tree::{Got, Listed};
use ip_store::{Merge, Shown, StoreFault};
use ip_tree::TreeFault;

// Nothing is met outside the session, and memory was refused or not.
pub(crate) fn met_only(refused: bool) -> Met
    ensures { result ≡ met_only refused }
{
    Met {
        child: Child::NotAsked,
        checking: None,
        start_failed: false,
        kill_failed: false,
        left: 0,
        short: None,
        refused,
    }
}

// The answer of a command that was refused memory.
pub(crate) fn refuse(met: &mut Met) -> Reply
    ensures reply { result ≡ Reply.Memory }
    ensures met { met.new ≡ met_only true }
    ensures tells_none { TellsNone result }
    ensures meets_none { MeetsNone met.new }
{
    *met = met_only(true);
    Reply::Memory
}

// What a read of the work's tree is answered with.
pub(crate) fn got_reply(got: Got) -> Reply
    ensures value { result ≡ got_reply got }
    ensures tells_none { TellsNone result }
{
    match got {
        Got::Value(contents) => Reply::Value(contents),
        Got::Dir(entries) => Reply::Dir(entries),
        Got::Absent => Reply::Absent,
    }
}

// What a listing of the work's tree is answered with.
pub(crate) fn listed_reply(listed: Listed) -> Reply
    ensures value { result ≡ listed_reply listed }
    ensures tells_none { TellsNone result }
{
    match listed {
        Listed::Entries(items) => Reply::List(items),
        Listed::Contents => Reply::Contents,
        Listed::Absent => Reply::Absent,
    }
}

// What a call of the store is answered with that was not done, or why the session ends.
fn fault_answer(fault: StoreFault) -> Result<Reply, SessionEnd>
    ensures value { result ≡ fault_answer fault }
    ensures answer { IsAnswer {A = Unit {0}} (fault_reply fault) (Err fault) result }
    ensures tells_none { IfOk result TellsNone }
{
    match fault {
        StoreFault::GivenUp(number) => Ok(Reply::GivenUp(number)),
        StoreFault::HeadMoved(name) => Ok(Reply::HeadMoved(name)),
        StoreFault::Leaving(number) => Ok(Reply::Leaving(number)),
        StoreFault::Existing(name) => Ok(Reply::Existing(name)),
        StoreFault::Limit(limit) => Ok(Reply::Limit(limit)),
        StoreFault::Memory => Ok(Reply::Memory),
        StoreFault::Ground => Err(SessionEnd::Ground),
        StoreFault::Damaged { at, names } => Err(SessionEnd::Damaged { at, names }),
    }
}

// What a commit is answered with, or why the session ends.
pub(crate) fn commit_answer(made: Result<Hash, StoreFault>) -> Result<Reply, SessionEnd>
    ensures answer { IsAnswer (reply_to made) made result }
    ensures tells_none { IfOk result TellsNone }
{
    match made {
        Ok(name) => Ok(Reply::Committed(name)),
        Err(refusal) => fault_answer(refusal),
    }
}

// What putting a branch at a commit is answered with, or why the session ends.
pub(crate) fn branch_answer(made: Result<(), StoreFault>) -> Result<Reply, SessionEnd>
    ensures answer { IsAnswer (branch_reply made) made result }
    ensures tells_none { IfOk result TellsNone }
{
    match made {
        Ok(()) => Ok(Reply::Accepted),
        Err(fault) => fault_answer(fault),
    }
}

// What taking away the branch of this name is answered with, or why the session ends.
pub(crate) fn removed_answer(
    name: Blob,
    made: Result<bool, StoreFault>,
) -> Result<Reply, SessionEnd>
    ensures answer { IsAnswer (removed_reply name made) made result }
    ensures tells_none { IfOk result TellsNone }
{
    match made {
        Ok(true) => Ok(Reply::Accepted),
        Ok(false) => Ok(Reply::NoBranch(name)),
        Err(fault) => fault_answer(fault),
    }
}

// What a merge into the branch of this name is answered with, or why the session ends.
pub(crate) fn merge_answer(
    branch: Blob,
    made: Result<Merge, StoreFault>,
) -> Result<Reply, SessionEnd>
    ensures answer { IsAnswer (merge_reply branch made) made result }
    ensures tells_none { IfOk result TellsNone }
{
    match made {
        Ok(merge) => Ok(merged_reply(branch, merge)),
        Err(fault) => fault_answer(fault),
    }
}

// What a merge that came to this is answered with.
fn merged_reply(branch: Blob, merge: Merge) -> Reply
    ensures reply { merge_reply branch (Ok merge) ≡ Some result }
    ensures tells_none { TellsNone result }
{
    match merge {
        Merge::Current(name) => Reply::Current(name),
        Merge::Forward(name) => Reply::Forward(name),
        Merge::Merged(name) => Reply::Merged(name),
        Merge::NoBranch => Reply::NoBranch(branch),
        Merge::Bases(count) => Reply::Bases(count),
        Merge::Conflict(path) => Reply::Conflict(path),
    }
}

// What comes of a call of the store that failed: want of memory is met, other refusals are answered, and faults of the ground and of its files
// end the session.
pub(crate) fn failed(fault: StoreFault, met: &mut Met) -> Result<Reply, SessionEnd>
    ensures value { Fails fault met.old met.new result }
    ensures tells_none { IfOk result TellsNone }
    ensures meets_none { MeetsNone met.old → MeetsNone met.new }
{
    match fault {
        StoreFault::Memory => Ok(refuse(met)),
        other => fault_answer(other),
    }
}

// A call on a tree fails as one of the store.
pub(crate) fn tree_fault(fault: TreeFault) -> StoreFault
    ensures { result ≡ tree_fault fault }
{
    match fault {
        TreeFault::Limit(limit) => StoreFault::Limit(limit),
        TreeFault::Fetch(fault) => StoreFault::from(fault),
        TreeFault::Memory => StoreFault::Memory,
    }
}

// What the command is answered with that shows a commit.
pub(crate) fn shown_reply(shown: Shown) -> Reply
    ensures value { result ≡ Reply.Commit shown.name shown.number shown.root shown.parents shown.info }
    ensures tells_none { TellsNone result }
{
    Reply::Commit {
        name: shown.name,
        number: shown.number,
        root: shown.root,
        parents: shown.parents,
        info: shown.info,
    }
}

// Writes a reply's text into an empty one. There is room for `REPLY_ROOM` bytes; a longer text may be refused memory, and then that
// is met and written instead.
pub(crate) fn put_reply(reply: &Reply, met: &mut Met, text: &mut Vec<u8>)
    requires empty { text.old.items ≡ [] }
    requires room { REPLY_ROOM ≤ vec_capacity text.old }
    ensures room { vec_capacity text.old ≤ vec_capacity text.new }
    ensures written { Writes reply.now met.old met.new text.new.items }
{
    if reply_text(reply, text).is_ok() {
        return;
    }
    text.clear();
    let refusal = refuse(met);
    reply_text(&refusal, text).unwrap();
}
