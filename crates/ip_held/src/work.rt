// The work of a session.
ghost use Rattle.std.specs.Prelude.{◌≡◌, ℕ, Option};
ghost use Rattle.ip_spec.specs.Machine.{empty_work};
ghost use Rattle.ip_spec.specs.Repository.{Repository};
ghost use Rattle.ip_spec.specs.View.{no_view};
ghost use Rattle.ip_spec.specs.declared.record.Record.{Record};
ghost use Rattle.ip_held.specs.Work.{work_at, AreParents, IsLawful};

use ip_base::{Number, Numbers};
use ip_tree::Tree;
use std::alloc::Global;

/// A tree, the commits that it goes on from, and the least commit number that it took from.
#[derive(Drop)]
pub struct Work {
    pub tree: Tree,
    pub parents: Numbers,
    pub least: Option<Number>,
}

impl Work {
    /// As a session begins: an empty tree, no parents, no least number. It takes no memory.
    pub fn empty(alloc: Global) -> Self
        ensures lawful { (records : ℕ → Option Record) (r : Repository) → IsLawful records r result no_view }
        ensures begins { work_at result no_view ≡ empty_work }
        ensures parents { (r : Repository) → AreParents r result.least result.parents }
    {
        Work {
            tree: Tree::empty(alloc),
            parents: Numbers::empty(alloc),
            least: None,
        }
    }
}
