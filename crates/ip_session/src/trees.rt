// The commands that read records, and change no file.
ghost use Rattle.std.specs.Prelude.{◌≡◌, false, IfOk, IfErr};
ghost use Rattle.ip_ground.specs.Counts.{Counts};
ghost use Rattle.ip_spec.specs.declared.command.Command.TheVariants as Command;
ghost use Rattle.ip_spec.specs.Path.{IsPath};
ghost use Rattle.ip_session.specs.Asking.{MeetsNone, TellsNone};
ghost use Rattle.ip_session.specs.Session.{counted_end, met_only, HasRead, IsHeld, EndsBy};
ghost use Rattle.ip_session.specs.Wanting.{Wants};

use crate::replies::{failed, got_reply, listed_reply, refuse, shown_reply, tree_fault};
use crate::session::{Session, SessionEnd, least_with, resolve};
use ip_base::{Blob, Numbers, Path};
use ip_ground::Ground;
use ip_script::{Reply, Target};
use ip_store::Work;

impl Session {
    ghost use Rattle.ip_session.specs.Session.{IsServing};

    // Makes the work the tree of the commit that a reference names, and that its parent. It reads the commit's record alone.
    pub(crate) fn checkout<G: Ground>(
        &mut self,
        ground: &mut G,
        target: Target,
    ) -> Result<Reply, SessionEnd>
        requires met { self.old.met ≡ met_only false }
        requires tables { IsServing self.old }
        ensures reads { HasRead G.tells (G.told ground.old) (G.told ground.new) self.old self.new (Command.Checkout target) result }
        ensures memory { Wants self.old self.new (Command.Checkout target) result }
        ensures same_collection { self.new.store.held.collection ≡ self.old.store.held.collection }
        ensures meets_none { MeetsNone self.new.met }
        ensures tells_none { IfOk result TellsNone }
        ensures counts { Counts counted_end result (G.counts_of ground.old) (G.counts_of ground.new) }
        ensures cause { IfErr result (EndsBy (IsHeld G.tells (G.told ground.old) self.old)) }
    {
        let number = match resolve(&self.store, target) {
            Ok(number) => number,
            Err(reply) => return Ok(reply),
        };
        let mut parents = Numbers::empty(self.alloc);
        if parents.push(number).is_err() {
            return Ok(refuse(&mut self.met));
        }
        let tree = match self.store.tree_of(ground, number) {
            Ok(tree) => tree,
            Err(fault) => return failed(fault, &mut self.met),
        };
        self.work = Work {
            tree,
            parents,
            least: Some(number),
        };
        Ok(Reply::At(self.store.retained_name(number)))
    }

    // Puts contents at a path of the work's tree.
    pub(crate) fn set<G: Ground>(
        &mut self,
        ground: &mut G,
        path: Path,
        contents: Blob,
    ) -> Result<Reply, SessionEnd>
        requires path { IsPath path }
        requires met { self.old.met ≡ met_only false }
        requires tables { IsServing self.old }
        ensures reads { HasRead G.tells (G.told ground.old) (G.told ground.new) self.old self.new (Command.Set path contents) result }
        ensures same_collection { self.new.store.held.collection ≡ self.old.store.held.collection }
        ensures meets_none { MeetsNone self.new.met }
        ensures tells_none { IfOk result TellsNone }
        ensures counts { Counts counted_end result (G.counts_of ground.old) (G.counts_of ground.new) }
        ensures cause { IfErr result (EndsBy (IsHeld G.tells (G.told ground.old) self.old)) }
    {
        if let Some(number) = self.store.given_up(self.work.least) {
            return Ok(Reply::GivenUp(number));
        }
        let tree = &mut self.work.tree;
        match self.store.set(self.alloc, ground, tree, path.steps(), contents.as_slice()) {
            Ok(()) => Ok(Reply::Accepted),
            Err(fault) => failed(tree_fault(fault), &mut self.met),
        }
    }

    // Takes away what stands at a path of the work's tree and under it.
    pub(crate) fn remove<G: Ground>(
        &mut self,
        ground: &mut G,
        path: Path,
    ) -> Result<Reply, SessionEnd>
        requires path { IsPath path }
        requires met { self.old.met ≡ met_only false }
        requires tables { IsServing self.old }
        ensures reads { HasRead G.tells (G.told ground.old) (G.told ground.new) self.old self.new (Command.Rm path) result }
        ensures same_collection { self.new.store.held.collection ≡ self.old.store.held.collection }
        ensures meets_none { MeetsNone self.new.met }
        ensures tells_none { IfOk result TellsNone }
        ensures counts { Counts counted_end result (G.counts_of ground.old) (G.counts_of ground.new) }
        ensures cause { IfErr result (EndsBy (IsHeld G.tells (G.told ground.old) self.old)) }
    {
        if let Some(number) = self.store.given_up(self.work.least) {
            return Ok(Reply::GivenUp(number));
        }
        let tree = &mut self.work.tree;
        match self.store.remove(self.alloc, ground, tree, path.steps()) {
            Ok(true) => Ok(Reply::Accepted),
            Ok(false) => Ok(Reply::Absent),
            Err(fault) => failed(tree_fault(fault), &mut self.met),
        }
    }

    // Puts what stands in a commit's tree at a place and under it to a path of the work's tree, without a copy of what the store has.
    pub(crate) fn graft<G: Ground>(
        &mut self,
        ground: &mut G,
        target: Target,
        from: Path,
        to: Path,
    ) -> Result<Reply, SessionEnd>
        requires path { IsPath to }
        requires met { self.old.met ≡ met_only false }
        requires tables { IsServing self.old }
        ensures reads { HasRead G.tells (G.told ground.old) (G.told ground.new) self.old self.new (Command.Graft target from to) result }
        ensures same_collection { self.new.store.held.collection ≡ self.old.store.held.collection }
        ensures meets_none { MeetsNone self.new.met }
        ensures tells_none { IfOk result TellsNone }
        ensures counts { Counts counted_end result (G.counts_of ground.old) (G.counts_of ground.new) }
        ensures cause { IfErr result (EndsBy (IsHeld G.tells (G.told ground.old) self.old)) }
    {
        if let Some(number) = self.store.given_up(self.work.least) {
            return Ok(Reply::GivenUp(number));
        }
        let number = match resolve(&self.store, target) {
            Ok(number) => number,
            Err(reply) => return Ok(reply),
        };
        let source = match self.store.tree_of(ground, number) {
            Ok(tree) => tree,
            Err(fault) => return failed(fault, &mut self.met),
        };
        let tree = &mut self.work.tree;
        match self.store.graft(self.alloc, ground, tree, &source, from.steps(), to.steps()) {
            Ok(true) => {
                self.work.least = Some(least_with(self.work.least, number));
                Ok(Reply::Accepted)
            }
            Ok(false) => Ok(Reply::Absent),
            Err(fault) => failed(tree_fault(fault), &mut self.met),
        }
    }

    // What stands at a path of the work's tree.
    pub(crate) fn get<G: Ground>(&mut self, ground: &mut G, path: Path) -> Result<Reply, SessionEnd>
        requires met { self.old.met ≡ met_only false }
        requires tables { IsServing self.old }
        ensures reads { HasRead G.tells (G.told ground.old) (G.told ground.new) self.old self.new (Command.Get path) result }
        ensures same_collection { self.new.store.held.collection ≡ self.old.store.held.collection }
        ensures meets_none { MeetsNone self.new.met }
        ensures tells_none { IfOk result TellsNone }
        ensures counts { Counts counted_end result (G.counts_of ground.old) (G.counts_of ground.new) }
        ensures cause { IfErr result (EndsBy (IsHeld G.tells (G.told ground.old) self.old)) }
    {
        if let Some(number) = self.store.given_up(self.work.least) {
            return Ok(Reply::GivenUp(number));
        }
        match self
            .store
            .get(self.alloc, ground, &self.work.tree, path.steps())
        {
            Ok(got) => Ok(got_reply(got)),
            Err(fault) => failed(tree_fault(fault), &mut self.met),
        }
    }

    // What is listed at a place of the work's tree.
    pub(crate) fn list<G: Ground>(
        &mut self,
        ground: &mut G,
        path: Path,
    ) -> Result<Reply, SessionEnd>
        requires met { self.old.met ≡ met_only false }
        requires tables { IsServing self.old }
        ensures reads { HasRead G.tells (G.told ground.old) (G.told ground.new) self.old self.new (Command.List path) result }
        ensures same_collection { self.new.store.held.collection ≡ self.old.store.held.collection }
        ensures meets_none { MeetsNone self.new.met }
        ensures tells_none { IfOk result TellsNone }
        ensures counts { Counts counted_end result (G.counts_of ground.old) (G.counts_of ground.new) }
        ensures cause { IfErr result (EndsBy (IsHeld G.tells (G.told ground.old) self.old)) }
    {
        if let Some(number) = self.store.given_up(self.work.least) {
            return Ok(Reply::GivenUp(number));
        }
        match self
            .store
            .list(self.alloc, ground, &self.work.tree, path.steps())
        {
            Ok(listed) => Ok(listed_reply(listed)),
            Err(fault) => failed(tree_fault(fault), &mut self.met),
        }
    }

    // What stands at a path of a commit's tree.
    pub(crate) fn cat<G: Ground>(
        &mut self,
        ground: &mut G,
        target: Target,
        path: Path,
    ) -> Result<Reply, SessionEnd>
        requires met { self.old.met ≡ met_only false }
        requires tables { IsServing self.old }
        ensures reads { HasRead G.tells (G.told ground.old) (G.told ground.new) self.old self.new (Command.Cat target path) result }
        ensures same_collection { self.new.store.held.collection ≡ self.old.store.held.collection }
        ensures meets_none { MeetsNone self.new.met }
        ensures tells_none { IfOk result TellsNone }
        ensures counts { Counts counted_end result (G.counts_of ground.old) (G.counts_of ground.new) }
        ensures cause { IfErr result (EndsBy (IsHeld G.tells (G.told ground.old) self.old)) }
    {
        let number = match resolve(&self.store, target) {
            Ok(number) => number,
            Err(reply) => return Ok(reply),
        };
        let source = match self.store.tree_of(ground, number) {
            Ok(tree) => tree,
            Err(fault) => return failed(fault, &mut self.met),
        };
        match self.store.get(self.alloc, ground, &source, path.steps()) {
            Ok(got) => Ok(got_reply(got)),
            Err(fault) => failed(tree_fault(fault), &mut self.met),
        }
    }

    // A commit, as its record tells it.
    pub(crate) fn show<G: Ground>(
        &mut self,
        ground: &mut G,
        target: Target,
    ) -> Result<Reply, SessionEnd>
        requires met { self.old.met ≡ met_only false }
        requires tables { IsServing self.old }
        ensures reads { HasRead G.tells (G.told ground.old) (G.told ground.new) self.old self.new (Command.Show target) result }
        ensures memory { Wants self.old self.new (Command.Show target) result }
        ensures same_collection { self.new.store.held.collection ≡ self.old.store.held.collection }
        ensures meets_none { MeetsNone self.new.met }
        ensures tells_none { IfOk result TellsNone }
        ensures counts { Counts counted_end result (G.counts_of ground.old) (G.counts_of ground.new) }
        ensures cause { IfErr result (EndsBy (IsHeld G.tells (G.told ground.old) self.old)) }
    {
        let number = match resolve(&self.store, target) {
            Ok(number) => number,
            Err(reply) => return Ok(reply),
        };
        match self.store.show(self.alloc, ground, number) {
            Ok(shown) => Ok(shown_reply(shown)),
            Err(fault) => failed(fault, &mut self.met),
        }
    }
}
