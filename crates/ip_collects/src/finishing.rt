// The end of a collection: its child is asked, what it wrote is checked, and where that is the valid pair the store goes over to it.
ghost use Rattle.std.specs.Prelude.{◌≡◌, ◌≢◌, ℕ, ◌≤◌, true, false, Some, None, Result, Ok, Err, IsTrue, IsErrOf, OnOk, OnErr, is_some};
ghost use Rattle.ip_ground.specs.Calls.{Settles};
ghost use Rattle.ip_ground.specs.Counts.{CountsAs, FileFault};
ghost use Rattle.ip_ground.specs.Told.{NoFile, ChangesOnly};
ghost use Rattle.ip_base.specs.declared.exit.Reaped.{Reaped as ReapedValue};
ghost use Rattle.ip_spec.specs.declared.command.Command.{Command as CommandValue};
ghost use Rattle.ip_spec.specs.declared.met.Child.TheVariants as Heard;
ghost use Rattle.ip_spec.specs.Repository.{Repository};
ghost use Rattle.ip_held.specs.Collecting.{child_of};
ghost use Rattle.ip_collects.specs.Concluding.{AsksChild, ConcludesAs};
ghost use Rattle.ip_collects.specs.Ending.{Ends, EndsBy, Goes, IsHeardIn, Listens, MayBeHeard, held_behind};
ghost use Rattle.ip_collects.specs.Finishing.{fault_by, met_by_finish, HasAnswer, IsAccepted, IsAsked, IsUndamaged, IsQuiet, CountsFinish, FinishesBy, LooksWithin, WorksStay};
ghost use Rattle.ip_collects.specs.Judging.{IsBlamedIn, IsDamagedIn};
ghost use Rattle.ip_held.specs.Held.{IsOf, Holds, OwnsPair};
ghost use Rattle.ip_held.specs.Sweeping.{EndsFor};
ghost use Rattle.ip_collects.specs.declared.finishing.FinishFault.TheVariants as FinishFault;
ghost use Rattle.ip_collects.specs.declared.finishing.Looked.TheVariants as Looked;
ghost use Rattle.ip_held.specs.declared.collection.Collection.{Collection};

use crate::checking::{Verdict, judge};
use crate::swapping::accept;
use crate::sweeping::sweep;
use ip_base::{Exit, Limit, Memory, Number, Reaped};
use ip_check::CheckFault;
use ip_ground::{Ground, GroundFault};
use ip_held::{Held, nothing_met};
use ip_spawn::{Look, Spawner};
use ip_spec::met::{Child, Met};
use ip_spec::reply::Difference;
use std::alloc::Global;

/// So many records are looked at in one `look`, at most.
const LOOKS: u64 = 1024;

/// What was accepted: the commits below this one are given up, and so many removals failed of what nobody needs any more.
#[derive(Clone, Copy, Debug, PartialEq, Eq)]
pub struct Collected {
    pub floor: Number,
    pub left: u64,
}

/// What a look gave, or a finish, which gives `Collected` alone.
#[derive(Clone, Copy, Debug, PartialEq, Eq)]
pub enum Looked {
    /// The child runs, as far as was seen.
    Running,
    /// It has ended, and the check is not through: so many bytes are left from the first record that was not looked at to the job's end.
    Checking(u64),
    /// The pair was accepted.
    Collected(Collected),
}

/// Why what a child wrote is not served.
#[derive(Clone, Copy, Debug, PartialEq, Eq)]
pub enum Rejection {
    /// It did not end with code 0.
    Exit(Exit),
    /// It is not the valid pair: the first place that differs.
    Differs(Difference),
}

/// Why no collection was accepted.
#[derive(Clone, Copy, Debug, PartialEq, Eq)]
pub enum FinishFault {
    /// None runs.
    Idle,
    /// The child was not heard of, as the spawner's counts show. It is held still.
    Wait,
    /// The collection is over.
    Rejected(Rejection),
    /// The limit that the next slot would pass, of the sequence. The collection is over.
    Limit(Limit),
    /// Records of the store are not whole: the check found it at this offset.
    Damaged(u64),
    /// A call on the ground failed: what the files hold is known again once the store is opened anew.
    Ground,
    /// How the child ended is kept, and the check as far as it is.
    Memory,
}

impl From<GroundFault> for FinishFault {
    ghost use Rattle.ip_collects.specs.declared.finishing.FinishFault.TheVariants as FinishFault;

    ghost from_gives = { λ _ e. e ≡ FinishFault.Ground };

    fn from(_: GroundFault) -> Self {
        FinishFault::Ground
    }
}

impl From<Memory> for FinishFault {
    ghost use Rattle.ip_collects.specs.declared.finishing.FinishFault.TheVariants as FinishFault;

    ghost from_gives = { λ _ e. e ≡ FinishFault.Memory };

    fn from(_: Memory) -> Self {
        FinishFault::Memory
    }
}

// A fault of the check, as one of the call.
pub(crate) fn fault_of(fault: CheckFault) -> FinishFault
    ensures { result ≡ fault_by fault }
{
    match fault {
        CheckFault::Ground => FinishFault::Ground,
        CheckFault::Damaged(at) => FinishFault::Damaged(at),
        CheckFault::Memory => FinishFault::Memory,
    }
}

// What was met by an answer, where this was heard of the child and so many removals failed.
fn met_by_finish(child: Child, answer: &Result<Looked, FinishFault>, left: u64) -> Met
    ensures { result ≡ met_by_finish child answer.now left }
{
    Met {
        child,
        checking: match answer {
            Ok(Looked::Checking(left)) => Some(*left),
            _ => None,
        },
        left,
        short: match answer {
            Err(FinishFault::Limit(limit)) => Some(*limit),
            _ => None,
        },
        refused: matches!(answer, Err(FinishFault::Memory)),
        ..nothing_met()
    }
}

// The child has ended: how is kept, whatever comes, and then its attempt is settled.
fn hear<G: Ground>(store: &mut Held, outside: &mut G, reaped: Reaped) -> Result<(), GroundFault>
    requires running { (c : Collection) × (store.old.collection ≡ Some c) × (c.exit ≡ None) × (reaped.attempt ≡ c.job.attempt) }
    ensures heard { (c : Collection) → store.old.collection ≡ Some c → store.new ≡ record store.old { collection = Some (record c { exit = Some reaped }) } }
    ensures tables { (r : Repository) → IsOf store.old r → IsOf store.new r }
    ensures does { IsTrue G.tells → Settles reaped.attempt result (G.told outside.old) (G.told outside.new) }
    ensures holds { IsTrue G.tells → (r : Repository) → Holds store.old (G.told outside.old) r → OnOk result (Holds store.new (G.told outside.new) r) }
    ensures counts { CountsAs FileFault result (G.counts_of outside.old) (G.counts_of outside.new) }
{
    let Some(collection) = &mut store.collection else {
        unreachable!();
    };
    collection.exit = Some(reaped);
    outside.settle(reaped.attempt, &reaped)
}

// Whether it is kept how the child ended.
fn has_exit(store: &Held) -> bool
    ensures { (c : Collection) → store.now.collection ≡ Some c → result ≡ is_some c.exit }
{
    match &store.collection {
        Some(collection) => collection.exit.is_some(),
        None => false,
    }
}

// How the child ended is known from here on, whether it was kept or is heard now.
fn heard<G: Ground>(store: &mut Held, outside: &mut G, reaped: Reaped) -> Result<(), GroundFault>
    requires running { (c : Collection) × (store.old.collection ≡ Some c) × MayBeHeard c.exit c.job.attempt (Heard.Ended reaped) }
    ensures heard { (c : Collection) → store.old.collection ≡ Some c → store.new ≡ record store.old { collection = Some (record c { exit = Some reaped }) } }
    ensures tables { (r : Repository) → IsOf store.old r → IsOf store.new r }
    ensures does { IsTrue G.tells → (c : Collection) → store.old.collection ≡ Some c → Listens c.job.attempt (G.told outside.old) (G.told outside.new) }
    ensures cut { IsTrue G.tells → OnErr result (ChangesOnly NoFile (G.told outside.old) (G.told outside.new)) }
    ensures unheard { OnErr result ((c : Collection) → store.old.collection ≡ Some c → c.exit ≡ None) }
    ensures holds { IsTrue G.tells → (r : Repository) → Holds store.old (G.told outside.old) r → OnOk result (Holds store.new (G.told outside.new) r) }
    ensures counts { CountsAs FileFault result (G.counts_of outside.old) (G.counts_of outside.new) }
{
    if has_exit(store) {
        return Ok(());
    }
    hear(store, outside, reaped)
}

// The collection is over.
fn give_up(store: &mut Held)
    ensures { store.new ≡ record store.old { collection = None } }
{
    store.collection = None;
}

// What comes of it that the child has ended so, where so many records of the check are looked at, at most, and how many removals failed then.
// Where the check is through the collection is over, or what the child wrote is served.
fn judged<G: Ground>(
    store: &mut Held,
    alloc: Global,
    outside: &mut G,
    reaped: Reaped,
    most: u64,
) -> (Result<Looked, FinishFault>, u64)
    requires some { 1 ≤ most }
    requires tables { (r : Repository) × IsOf store.old r }
    requires running { (c : Collection) × (store.old.collection ≡ Some c) × (c.exit ≡ Some reaped) }
    ensures ends { (c : Collection) → store.old.collection ≡ Some c → Ends reaped.exit most c result.0 result.1 store.old store.new }
    ensures any_moment { IsTrue G.tells → (r : Repository) (held : Holds store.old (G.told outside.old) r) (c : Collection) → store.old.collection ≡ Some c →
        EndsBy held.stands.standing.records r c result.0 store.old.unswept result.1 store.new (G.told outside.old) (G.told outside.new) }
    ensures bounded { IsTrue G.tells → (r : Repository) (held : Holds store.old (G.told outside.old) r) (c : Collection) → store.old.collection ≡ Some c → IsAccepted result.0 → LooksWithin most held.stands.standing.records c }
    ensures undamaged { IsTrue G.tells → (r : Repository) → Holds store.old (G.told outside.old) r → IsUndamaged result.0 }
    ensures untouched { IsTrue G.tells → ¬ IsUndamaged result.0 → ChangesOnly NoFile (G.told outside.old) (G.told outside.new) }
    ensures blames { (at : ℕ) → IsErrOf result.0 (FinishFault.Damaged at) → IsBlamedIn store.new.collection at }
    ensures broken { IsTrue G.tells → OwnsPair (G.told outside.old) store.old.slot → (at : ℕ) → IsErrOf result.0 (FinishFault.Damaged at) → IsDamagedIn (G.told outside.new) store.new.collection at }
    ensures counts { CountsFinish result.0 result.1 (G.counts_of outside.old) (G.counts_of outside.new) }
{
    match judge(store, alloc, outside, reaped.exit, most) {
        Ok(Verdict::Open(left)) => (Ok(Looked::Checking(left)), 0),
        Ok(Verdict::Rejected(rejection)) => {
            give_up(store);
            let left = sweep(store, outside);
            (Err(FinishFault::Rejected(rejection)), left)
        }
        Ok(Verdict::Valid) => match accept(store, alloc, outside) {
            Ok(()) => {
                let floor = Number(store.slot.floor);
                let left = sweep(store, outside);
                (Ok(Looked::Collected(Collected { floor, left })), left)
            }
            Err(fault) => (Err(fault), 0),
        },
        Err(fault) => (Err(fault), 0),
    }
}

// The call goes on with what was heard of the child. Of the removals of a sweep so many failed.
fn goes<G: Ground>(
    store: &mut Held,
    alloc: Global,
    outside: &mut G,
    child: Child,
    most: u64,
) -> (Result<Looked, FinishFault>, u64)
    requires some { 1 ≤ most }
    requires tables { (r : Repository) × IsOf store.old r }
    requires heard { IsHeardIn store.old.collection child }
    ensures goes { Goes child most result.0 (met_by_finish child result.0 result.1) store.old store.new }
    ensures quiet { IsQuiet result.0 → outside.new ≡ outside.old }
    ensures any_moment { IsTrue G.tells → (r : Repository) (held : Holds store.old (G.told outside.old) r) (c : Collection) (reaped : ReapedValue) → store.old.collection ≡ Some c → child ≡ Heard.Ended reaped → (command : CommandValue) → IsAsked command result.0 →
        FinishesBy held.stands.standing.records r c command result.0 store.old.unswept (met_by_finish child result.0 result.1) store.new (G.told outside.old) (G.told outside.new) }
    ensures bounded { IsTrue G.tells → (r : Repository) (held : Holds store.old (G.told outside.old) r) (c : Collection) → store.old.collection ≡ Some c → IsAccepted result.0 → LooksWithin most held.stands.standing.records c }
    ensures undamaged { IsTrue G.tells → (r : Repository) → Holds store.old (G.told outside.old) r → IsUndamaged result.0 }
    ensures untouched { IsTrue G.tells → ¬ IsUndamaged result.0 → (c : Collection) → store.old.collection ≡ Some c → EndsFor c.job.attempt NoFile (G.told outside.old) (G.told outside.new) }
    ensures blames { (at : ℕ) → IsErrOf result.0 (FinishFault.Damaged at) → IsBlamedIn store.new.collection at }
    ensures broken { IsTrue G.tells → OwnsPair (G.told outside.old) store.old.slot → (at : ℕ) → IsErrOf result.0 (FinishFault.Damaged at) → IsDamagedIn (G.told outside.new) store.new.collection at }
    ensures works_stay { IsTrue G.tells → HasAnswer result.0 → (r q : Repository) (held : Holds store.old (G.told outside.old) r) (now : Holds store.new (G.told outside.new) q) → WorksStay held now }
    ensures counts { CountsFinish result.0 result.1 (G.counts_of outside.old) (G.counts_of outside.new) }
{
    match child {
        Child::Ended(reaped) => match heard(store, outside, reaped) {
            Ok(()) => judged(store, alloc, outside, reaped, most),
            Err(_) => (Err(FinishFault::Ground), 0),
        },
        Child::Running => (Ok(Looked::Running), 0),
        Child::Fault => (Err(FinishFault::Wait), 0),
        Child::NotAsked => (Err(FinishFault::Idle), 0),
    }
}

// What is heard of the child: how it ended, where that is kept, and else what the spawner answers, which waits for its end or looks.
fn asked<P: Spawner>(store: &Held, spawner: &mut P, wait: bool) -> Child
    requires child { P.held spawner.old ≡ child_of store.now.collection }
    ensures heard { IsHeardIn store.now.collection result }
    ensures ended { wait ≡ true → result ≢ Heard.Running }
    ensures child { P.held spawner.new ≡ held_behind result (child_of store.now.collection) }
    ensures idle { store.now.collection ≡ None → spawner.new ≡ spawner.old }
    ensures kept { (c : Collection) (reaped : ReapedValue) → store.now.collection ≡ Some c → c.exit ≡ Some reaped → (spawner.new ≡ spawner.old) × (result ≡ Heard.Ended reaped) }
    ensures asked { (c : Collection) → store.now.collection ≡ Some c → c.exit ≡ None → AsksChild wait c.job.attempt result P.tells (P.told spawner.old) (P.told spawner.new) (P.counts_of spawner.old) (P.counts_of spawner.new) }
{
    let Some(collection) = &store.collection else {
        return Child::NotAsked;
    };
    if let Some(reaped) = collection.exit {
        return Child::Ended(reaped);
    }
    if wait {
        return match spawner.wait() {
            Ok(reaped) => Child::Ended(reaped),
            Err(_) => Child::Fault,
        };
    }
    match spawner.look() {
        Ok(Look::Running) => Child::Running,
        Ok(Look::Ended(reaped)) => Child::Ended(reaped),
        Err(_) => Child::Fault,
    }
}

/// Asks for the end of the child, unless it was reaped before: `wait` waits for it and then makes the whole check of what it wrote; else it looks, and checks
/// a slice of records. Where it ended with code 0 and the files are the valid pair, the store gives up the commits below the collection's and
/// reads from the pair what lies below it; else the collection is over and nothing is given up. Then what nobody needs is swept away. While
/// the child runs nothing is done, and no memory is taken. What was met is put into `met`: what was heard of the child, what is left to check, how many
/// removals failed, which limit was met, and whether memory was refused. After `Ground` and `Damaged` the store may not be used any more.
pub fn conclude<G: Ground, P: Spawner>(
    store: &mut Held,
    met: &mut Met,
    alloc: Global,
    outside: &mut G,
    spawner: &mut P,
    wait: bool,
) -> Result<Looked, FinishFault>
    requires tables { (r : Repository) × IsOf store.old r }
    requires child { P.held spawner.old ≡ child_of store.old.collection }
    ensures concludes { ConcludesAs G.tells wait result met.new store.old store.new (G.told outside.old) (G.told outside.new) }
    ensures child { P.held spawner.new ≡ child_of store.new.collection }
    ensures idle { IsErrOf result FinishFault.Idle → spawner.new ≡ spawner.old }
    ensures quiet { IsQuiet result → outside.new ≡ outside.old }
    // A child that was reaped before is not asked again.
    ensures kept { (c : Collection) (reaped : ReapedValue) → store.old.collection ≡ Some c → c.exit ≡ Some reaped → (spawner.new ≡ spawner.old) × (met.new.child ≡ Heard.Ended reaped) }
    ensures asked { (c : Collection) → store.old.collection ≡ Some c → c.exit ≡ None → AsksChild wait c.job.attempt met.new.child P.tells (P.told spawner.old) (P.told spawner.new) (P.counts_of spawner.old) (P.counts_of spawner.new) }
    ensures counts { CountsFinish result met.new.left (G.counts_of outside.old) (G.counts_of outside.new) }
{
    let child = asked(store, spawner, wait);
    let most = if wait { u64::MAX } else { LOOKS };
    let (answer, left) = goes(store, alloc, outside, child, most);
    *met = met_by_finish(child, &answer, left);
    answer
}
