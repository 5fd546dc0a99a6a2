// The commands of a collection.
ghost use Rattle.std.specs.Prelude.{◌≡◌, ◌≤◌, ◌++◌, List, length, false, None, IsTrue, IfOk, IsSome, IsSomeAnd};
ghost use Rattle.ip_base.specs.declared.exit.Reaped.{Reaped};
ghost use Rattle.ip_spec.specs.declared.command.Command.TheVariants as Command;
ghost use Rattle.ip_spec.specs.declared.reply.Reply.TheVariants as Reply;
ghost use Rattle.ip_spec.specs.Path.{Bytes};
ghost use Rattle.ip_spec.specs.Repository.{Repository};
ghost use Rattle.ip_held.specs.Collecting.{child_of};
ghost use Rattle.ip_collects.specs.Starting.{branch_name_at};
ghost use Rattle.ip_held.specs.Held.{IsOf};
ghost use Rattle.ip_session.specs.Asking.{LetsGo};
ghost use Rattle.ip_session.specs.Running.{Ran};
ghost use Rattle.ip_session.specs.Session.{met_only, unasked, IsLong};
ghost use Rattle.ip_session.specs.Starting.{cancel_answer, look_answer, HeldReplies, IsFound, StartReplies};

use crate::replies::refuse;
use crate::session::{Session, SessionEnd, resolve};
use ip_base::{Blob, Hash};
use ip_ground::Ground;
use ip_script::{Reply, Target};
use ip_spawn::Spawner;
use ip_spec::met::{Met, Phase};
use ip_store::{CancelFault, Cancelled, CollectFault, FinishFault, Looked, Rejection, Store};
use std::alloc::Global;

// The reply that tells the branch which stands against a collection.
fn held_reply(alloc: Global, store: &Store, met: &mut Met, place: u32) -> Reply
    requires { (r : Repository) × IsOf store.now.held r × IsSome (branch_name_at r place) }
    ensures { (r : Repository) → IsOf store.now.held r → IsSomeAnd (branch_name_at r place) (λ name. HeldReplies name met.old met.new result) }
{
    match store.branch_at(place) {
        Some((name, _)) => match Blob::copy_of(alloc, name) {
            Ok(name) => Reply::Held(name),
            Err(_) => refuse(met),
        },
        None => unreachable!(),
    }
}

// What came of a collection that was to begin.
fn start_reply(
    alloc: Global,
    store: &Store,
    met: &mut Met,
    begun: &Result<Hash, CollectFault>,
) -> Result<Reply, SessionEnd>
    requires { (r : Repository) × IsFound r store.now.held begun.now }
    ensures { (r : Repository) → IsFound r store.now.held begun.now → StartReplies r begun.now met.old met.new result }
{
    match begun {
        Ok(name) => Ok(Reply::Started(*name)),
        Err(CollectFault::Busy(name)) => Ok(Reply::Busy(*name)),
        Err(CollectFault::Held(place)) => Ok(held_reply(alloc, store, met, *place)),
        Err(CollectFault::Limit(limit)) => Ok(Reply::Limit(*limit)),
        Err(CollectFault::Start) => Ok(Reply::StartFault),
        Err(CollectFault::Ground) => Err(SessionEnd::Ground),
        Err(CollectFault::Memory) => Ok(Reply::Memory),
    }
}

// What came of a collection that was to end.
fn cancel_answer(done: Result<Cancelled, CancelFault>) -> Result<Reply, SessionEnd>
    ensures { result ≡ cancel_answer done }
{
    match done {
        Ok(Cancelled::Done) => Ok(Reply::Cancelled),
        Ok(Cancelled::Orphan) => Ok(Reply::CancelledOrphan),
        Err(CancelFault::Idle) => Ok(Reply::Idle),
        Err(CancelFault::Ground) => Err(SessionEnd::Ground),
    }
}

// What came of a look at the child, and of what it wrote.
fn look_answer(looked: Result<Looked, FinishFault>) -> Result<Reply, SessionEnd>
    ensures answer { result ≡ look_answer looked }
    ensures short { IfOk result (λ reply. ¬ IsLong reply) }
{
    match looked {
        Ok(Looked::Running) => Ok(Reply::Running),
        Ok(Looked::Checking(left)) => Ok(Reply::Checking(left)),
        Ok(Looked::Collected(collected)) => Ok(Reply::Collected {
            floor: collected.floor,
            left: collected.left,
        }),
        Err(FinishFault::Idle) => Ok(Reply::Idle),
        Err(FinishFault::Wait) => Ok(Reply::WaitFault),
        Err(FinishFault::Rejected(Rejection::Exit(exit))) => Ok(Reply::RejectedExit(exit)),
        Err(FinishFault::Rejected(Rejection::Differs(difference))) => {
            Ok(Reply::Rejected(difference))
        }
        Err(FinishFault::Limit(limit)) => Ok(Reply::Limit(limit)),
        Err(FinishFault::Memory) => Ok(Reply::Memory),
        Err(FinishFault::Ground) => Err(SessionEnd::Ground),
        Err(FinishFault::Damaged(at)) => Err(SessionEnd::Damaged { at, names: None }),
    }
}

impl Session {
    ghost use Rattle.ip_session.specs.Session.{IsServing};

    // Begins a collection at the commit that a reference names, by a child for the store in this folder.
    pub(crate) fn collect<G: Ground, P: Spawner>(
        &mut self,
        dir: &str,
        ground: &mut G,
        spawner: &mut P,
        target: Target,
    ) -> Result<Reply, SessionEnd>
        requires met { self.old.met ≡ met_only false }
        requires tables { IsServing self.old }
        requires child { P.held spawner.old ≡ child_of self.old.store.held.collection }
        ensures { Ran (IsTrue G.tells) (IsTrue G.tells) unasked (G.told ground.old) (G.told ground.new) (G.counts_of ground.old) (G.counts_of ground.new) P.tells (P.held spawner.new) dir.now (P.told spawner.old) (P.told spawner.new)
            (P.counts_of spawner.old) (P.counts_of spawner.new) self.old self.new (Command.Collect target) result }
    {
        if let Phase::Collecting { commit, .. } = self.store.phase() {
            return Ok(Reply::Busy(self.store.retained_name(commit)));
        }
        let number = match resolve(&self.store, target) {
            Ok(number) => number,
            Err(reply) => return Ok(reply),
        };
        let begun = self
            .store
            .start_collect(self.alloc, ground, spawner, dir, number);
        self.met = self.store.met();
        start_reply(self.alloc, &self.store, &mut self.met, &begun)
    }

    // Asks whether the child has ended that collects, and goes on with the check of what it wrote.
    pub(crate) fn look<G: Ground, P: Spawner>(
        &mut self,
        ground: &mut G,
        spawner: &mut P,
    ) -> Result<Reply, SessionEnd>
        requires met { self.old.met ≡ met_only false }
        requires tables { IsServing self.old }
        requires child { P.held spawner.old ≡ child_of self.old.store.held.collection }
        ensures { (dir : Bytes) → Ran (IsTrue G.tells) (IsTrue G.tells) unasked (G.told ground.old) (G.told ground.new) (G.counts_of ground.old) (G.counts_of ground.new) P.tells (P.held spawner.new) dir (P.told spawner.old) (P.told spawner.new)
            (P.counts_of spawner.old) (P.counts_of spawner.new) self.old self.new Command.Look result }
    {
        let looked = self.store.look(self.alloc, ground, spawner);
        self.met = self.store.met();
        look_answer(looked)
    }

    // Waits until it has ended, and brings the collection to its end.
    pub(crate) fn finish<G: Ground, P: Spawner>(
        &mut self,
        ground: &mut G,
        spawner: &mut P,
    ) -> Result<Reply, SessionEnd>
        requires met { self.old.met ≡ met_only false }
        requires tables { IsServing self.old }
        requires child { P.held spawner.old ≡ child_of self.old.store.held.collection }
        ensures { (dir : Bytes) → Ran (IsTrue G.tells) (IsTrue G.tells) unasked (G.told ground.old) (G.told ground.new) (G.counts_of ground.old) (G.counts_of ground.new) P.tells (P.held spawner.new) dir (P.told spawner.old) (P.told spawner.new)
            (P.counts_of spawner.old) (P.counts_of spawner.new) self.old self.new Command.Finish result }
    {
        let done = self.store.finish(self.alloc, ground, spawner);
        self.met = self.store.met();
        look_answer(done)
    }

    // Gives the collection up that runs.
    pub(crate) fn cancel<G: Ground, P: Spawner>(
        &mut self,
        ground: &mut G,
        spawner: &mut P,
    ) -> Result<Reply, SessionEnd>
        requires met { self.old.met ≡ met_only false }
        requires tables { IsServing self.old }
        requires child { P.held spawner.old ≡ child_of self.old.store.held.collection }
        ensures { (dir : Bytes) → Ran (IsTrue G.tells) (IsTrue G.tells) unasked (G.told ground.old) (G.told ground.new) (G.counts_of ground.old) (G.counts_of ground.new) P.tells (P.held spawner.new) dir (P.told spawner.old) (P.told spawner.new)
            (P.counts_of spawner.old) (P.counts_of spawner.new) self.old self.new Command.Cancel result }
    {
        let done = self.store.cancel(ground, spawner);
        self.met = self.store.met();
        cancel_answer(done)
    }
}

impl Session {
    /// Lets go of the child that is held, if one is: it is killed once. Then the session is over.
    pub fn let_go<P: Spawner>(&self, spawner: &mut P)
        requires child { P.held spawner.old ≡ child_of self.now.store.held.collection }
        ensures none_held { P.held spawner.new ≡ None }
        ensures told { (ends : List Reaped) × (length ends ≤ 1) × (IsTrue P.tells → P.told spawner.new ≡ record { started = (P.told spawner.old).started; reaped = (P.told spawner.old).reaped ++ ends }) }
        ensures counts { LetsGo (P.counts_of spawner.old) (P.counts_of spawner.new) }
    {
        if let Phase::Collecting { kept: false, .. } = self.store.phase() {
            let _ = spawner.kill();
        }
    }
}
