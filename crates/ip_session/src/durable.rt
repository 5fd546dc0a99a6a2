// The commands that may change files.
ghost use Rattle.std.specs.Prelude.{◌≡◌, false, IsTrue, IfOk, IsErr};
ghost use Rattle.ip_ground.specs.Counts.{Counts};
ghost use Rattle.ip_spec.specs.declared.command.Target.{Target};
ghost use Rattle.ip_spec.specs.declared.command.Command.TheVariants as Command;
ghost use Rattle.ip_spec.specs.Record.{IsBranchName, IsInfo};
ghost use Rattle.ip_merge.specs.Rules.{IsDecisive};
ghost use Rattle.ip_session.specs.Asking.{IsUnanswered, MeetsNone, TellsNone};
ghost use Rattle.ip_session.specs.Running.{Runs};
ghost use Rattle.ip_session.specs.Session.{counted_end, met_only, unasked};

use crate::replies::{branch_answer, commit_answer, merge_answer, removed_answer};
use crate::session::{Session, SessionEnd, resolve};
use ip_base::{Blob, Info};
use ip_ground::Ground;
use ip_merge::Decides;
use ip_script::{Reply, Target};

impl Session {
    ghost use Rattle.ip_session.specs.Session.{IsServing};

    // Commits the work to a branch.
    pub(crate) fn commit<G: Ground>(
        &mut self,
        ground: &mut G,
        branch: Blob,
        info: Info,
    ) -> Result<Reply, SessionEnd>
        requires branch { IsBranchName branch }
        requires info { IsInfo info }
        requires met { self.old.met ≡ met_only false }
        requires tables { IsServing self.old }
        ensures runs { Runs (IsTrue G.tells) (IsTrue G.tells) unasked (G.told ground.old) (G.told ground.new) self.old self.new (Command.Commit branch info) result }
        ensures same_collection { self.new.store.held.collection ≡ self.old.store.held.collection }
        ensures meets_none { MeetsNone self.new.met }
        ensures unanswered { IsErr result → IsUnanswered self.new.met }
        ensures tells_none { IfOk result TellsNone }
        ensures counts { Counts counted_end result (G.counts_of ground.old) (G.counts_of ground.new) }
    {
        let made = self.store.commit(self.alloc, ground, &mut self.work, branch.as_slice(), info);
        self.met = self.store.met();
        commit_answer(made)
    }

    // Merges the commit that a reference names into a branch, by these rules. The work stays as it is.
    pub(crate) fn merge<G: Ground, D: Decides>(
        &mut self,
        ground: &mut G,
        target: Target,
        branch: Blob,
        info: Info,
        rules: &D,
    ) -> Result<Reply, SessionEnd>
        requires branch { IsBranchName branch }
        requires info { IsInfo info }
        requires met { self.old.met ≡ met_only false }
        requires tables { IsServing self.old }
        ensures runs { Runs (IsTrue G.tells) (IsTrue G.tells × IsDecisive (D.rule rules.now)) (D.rule rules.now) (G.told ground.old) (G.told ground.new) self.old self.new (Command.Merge target branch info) result }
        ensures same_collection { self.new.store.held.collection ≡ self.old.store.held.collection }
        ensures meets_none { MeetsNone self.new.met }
        ensures unanswered { IsErr result → IsUnanswered self.new.met }
        ensures tells_none { IfOk result TellsNone }
        ensures counts { Counts counted_end result (G.counts_of ground.old) (G.counts_of ground.new) }
    {
        let number = match resolve(&self.store, target) {
            Ok(number) => number,
            Err(reply) => return Ok(reply),
        };
        let made = self
            .store
            .merge_into(self.alloc, ground, number, branch.as_slice(), info, rules);
        self.met = self.store.met();
        merge_answer(branch, made)
    }

    // Puts a branch at the commit that a reference names.
    pub(crate) fn set_branch<G: Ground>(
        &mut self,
        ground: &mut G,
        name: Blob,
        target: Target,
    ) -> Result<Reply, SessionEnd>
        requires name { IsBranchName name }
        requires met { self.old.met ≡ met_only false }
        requires tables { IsServing self.old }
        ensures runs { Runs (IsTrue G.tells) (IsTrue G.tells) unasked (G.told ground.old) (G.told ground.new) self.old self.new (Command.Branch name target) result }
        ensures same_collection { self.new.store.held.collection ≡ self.old.store.held.collection }
        ensures meets_none { MeetsNone self.new.met }
        ensures unanswered { IsErr result → IsUnanswered self.new.met }
        ensures tells_none { IfOk result TellsNone }
        ensures counts { Counts counted_end result (G.counts_of ground.old) (G.counts_of ground.new) }
    {
        let number = match resolve(&self.store, target) {
            Ok(number) => number,
            Err(reply) => return Ok(reply),
        };
        let made = self
            .store
            .set_branch(self.alloc, ground, name.as_slice(), number);
        self.met = self.store.met();
        branch_answer(made)
    }

    // Takes a branch away.
    pub(crate) fn remove_branch<G: Ground>(
        &mut self,
        ground: &mut G,
        name: Blob,
    ) -> Result<Reply, SessionEnd>
        requires name { IsBranchName name }
        requires met { self.old.met ≡ met_only false }
        requires tables { IsServing self.old }
        ensures runs { Runs (IsTrue G.tells) (IsTrue G.tells) unasked (G.told ground.old) (G.told ground.new) self.old self.new (Command.BranchRm name) result }
        ensures same_collection { self.new.store.held.collection ≡ self.old.store.held.collection }
        ensures meets_none { MeetsNone self.new.met }
        ensures unanswered { IsErr result → IsUnanswered self.new.met }
        ensures tells_none { IfOk result TellsNone }
        ensures counts { Counts counted_end result (G.counts_of ground.old) (G.counts_of ground.new) }
    {
        let made = self
            .store
            .remove_branch(self.alloc, ground, name.as_slice());
        self.met = self.store.met();
        removed_answer(name, made)
    }
}
