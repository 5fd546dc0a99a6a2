//! Ancestors among the retained commits: the parents of each retained commit in a table, and what follows from them.
#![tactic(auto)]

ghost use Rattle.std.specs.Prelude.{◌≡◌, ◌≢◌, ◌↔◌, ℕ, [], ◌∷◌, IsTrue};
ghost use Rattle.ip_spec.specs.Repository.{Repository, IsRepository, is_retained};
ghost use Rattle.ip_spec.specs.History.{ParentsFirst, is_ancestor, is_proper_ancestor, lcas};
ghost use Rattle.ip_history.specs.History.{History, HasParentsFirst, Shows, history_of};

mod frontier;
mod table;

pub use table::Table;

/// The parents' numbers of a repository's commits, as they stand there, are its history.
pub fn histories()
    ensures { (r : Repository) → IsRepository r → Shows (history_of r) r }
{}

/// Of two commits one is an ancestor of the other exactly where it is a least common ancestor of them, and there is no other. So one walk,
/// `Table::lcas`, tells whether one of them is above the other. A repository of which a history in order is shown has parents before their
/// children.
pub fn meets()
    ensures first { (h : History) (r : Repository) → Shows h r → HasParentsFirst h → ParentsFirst r }
    ensures ancestor { (r : Repository) → ParentsFirst r → (a b : ℕ) → IsTrue (is_retained r a) →
        IsTrue (is_ancestor r a b) ↔ (lcas r b a ≡ a ∷ []) }
    ensures proper { (r : Repository) → ParentsFirst r → (a b : ℕ) → IsTrue (is_retained r b) →
        IsTrue (is_proper_ancestor r b a) ↔ ((b ≢ a) × (lcas r b a ≡ b ∷ [])) }
{}
