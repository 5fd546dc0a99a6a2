// What stands against a command, each as the machine has it.
ghost use Rattle.std.specs.Prelude.{◌≡◌, Ok, IfErr, IsErr};
ghost use Rattle.ip_held.specs.Answers.{RefusesBy, IsLeaving};
ghost use Rattle.ip_held.specs.Changes.{IsUndamaged};
ghost use Rattle.ip_held.specs.Collecting.{phase_of, not_leaving_in};
ghost use Rattle.ip_held.specs.Held.{IsOf};
ghost use Rattle.ip_held.specs.declared.fault.StoreFault.TheVariants as StoreFault;
ghost use Rattle.ip_spec.specs.Repository.{Repository, head, name_at};
ghost use Rattle.ip_spec.specs.Step.{below, unless_some, moved_head, room_for_branch, not_existing};
ghost use Rattle.ip_spec.specs.declared.reply.Reply.TheVariants as Reply;
ghost use Rattle.std.specs.Prelude.{IsTrue};

use crate::{Held, StoreFault};
use ip_base::limit::BRANCHES_MAX;
use ip_base::{Hash, Limit, Number};

impl Held {
    /// Refused where the commit of a work's least number was given up.
    pub fn there(&self, least: Option<Number>) -> Result<(), StoreFault>
        ensures refused { (r : Repository) → IsOf self.now r → RefusesBy result (unless_some (below r.floor least) Reply.GivenUp) }
        ensures undamaged { IsUndamaged result }
    {
        match self.given_up(least) {
            Some(number) => Err(StoreFault::GivenUp(number)),
            None => Ok(()),
        }
    }

    /// Refused while a collection runs that gives up the commit of this number.
    pub fn staying(&self, number: Option<Number>) -> Result<(), StoreFault>
        ensures refused { RefusesBy result (not_leaving_in (phase_of self.now.collection) number) }
        ensures cause { IsErr result → IsLeaving result }
        ensures undamaged { IsUndamaged result }
    {
        match (&self.collection, number) {
            (Some(collection), Some(number)) if number.get() < collection.commit.get() => {
                Err(StoreFault::Leaving(number))
            }
            _ => Ok(()),
        }
    }

    /// Refused where the branch is at a commit that is none of these.
    pub fn head_among(&self, parents: &[Number], branch: &[u8]) -> Result<(), StoreFault>
        requires tables { (r : Repository) × IsOf self.now r }
        ensures refused { (r : Repository) → IsOf self.now r → RefusesBy result (unless_some (moved_head (head r branch.now) parents.now) (λ n. Reply.HeadMoved (name_at r n))) }
        ensures undamaged { IsUndamaged result }
    {
        match self.branches.get(branch) {
            Some(head) if !parents.contains(&head) => Err(StoreFault::HeadMoved(self.retained_name(
                head,
            ))),
            _ => Ok(()),
        }
    }

    /// Refused where the branch would be one too many.
    pub fn room_for(&self, branch: &[u8]) -> Result<(), StoreFault>
        ensures refused { (r : Repository) → IsOf self.now r → RefusesBy result (room_for_branch r branch.now) }
        ensures undamaged { IsUndamaged result }
    {
        if self.branches.get(branch).is_none() && self.branches.len() >= BRANCHES_MAX {
            return Err(StoreFault::Limit(Limit::Branches));
        }
        Ok(())
    }

    /// Refused where a commit has the name.
    pub fn is_new(&self, name: Hash) -> Result<(), StoreFault>
        ensures refused { (r : Repository) → IsOf self.now r → RefusesBy result (not_existing r name) }
        ensures cause { IfErr result (λ fault. fault ≡ StoreFault.Existing name) }
        ensures undamaged { IsUndamaged result }
    {
        if self.names.place_of(&name).is_some() {
            return Err(StoreFault::Existing(name));
        }
        Ok(())
    }
}
