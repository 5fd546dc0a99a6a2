//! What two lazily read directories have at the steps at which they may differ. A record that neither has read and that both have at the same place is not fetched.
#![tactic(auto)]

ghost use Rattle.std.specs.Prelude.{◌≡◌, ℕ, Option, None, option_map, IsTrue, IfErr, IsErrOf, MatchResult};
ghost use Rattle.std.specs.FinMap.Entries.{find};
ghost use Rattle.ip_ground.specs.Counts.{Counts};
ghost use Rattle.ip_space.specs.declared.fault.FetchFault.TheVariants as FetchFault;
ghost use Rattle.ip_spec.specs.Path.{Path, Step, bytes_cmp};
ghost use Rattle.ip_spec.specs.Tree.{IsTree, is_contents, is_empty, subtree};
ghost use Rattle.ip_spec.specs.View.{View};
ghost use Rattle.ip_spec.specs.declared.record.Record.{Record};
ghost use Rattle.ip_tree.specs.Faults.{counted_tree};
ghost use Rattle.ip_tree.specs.Finding.{as_node};
ghost use Rattle.ip_tree.specs.Reads.{IsOver, IsFree, Looks, IsCause};
ghost use Rattle.ip_tree.specs.declared.tree.TreeFault.TheVariants as TreeFault;
ghost use Rattle.ip_differ.specs.Differing.{Differs, IsDirectoryAt};

pub mod pairs;
mod piece;
mod put;
mod walk;

use crate::pairs::Pairs;
use crate::piece::piece_of;
use crate::walk::walk_parts;
use ip_ground::Ground;
use ip_space::Space;
use ip_tree::TreeFault;
use ip_tree::look::Place;
use std::alloc::Global;
use std::collections::BTreeMap;

/// Where nothing stands, and where contents do, no step stands below: there `differing` may be given no place.
pub fn no_entries()
    ensures nothing { (records : ℕ → Option Record) (w : View) (p : Path) → IsTrue (is_empty (subtree w.map p)) → IsDirectoryAt records w p None }
    ensures contents { (records : ℕ → Option Record) (w : View) (p : Path) → IsTree w.map → IsTrue (is_contents (subtree w.map p)) → IsDirectoryAt records w p None }
{}

/// What two directories have at the steps at which they may differ: at a step that is not among the pairs, both have one record that neither has read, or neither has anything.
/// No place has no entries, and contents have none. A record that both have unread at the same indexes is never fetched, and any other that was not read once for each directory
/// that has it. It holds one path of parts and its answer.
pub fn differing<G: Ground>(
    alloc: Global,
    outside: &mut G,
    space: &mut Space,
    one: &Option<Place<'_>>,
    other: &Option<Place<'_>>,
) -> Result<Pairs, TreeFault>
    ensures pairs { IsTrue G.tells → (records : ℕ → Option Record) (v w : View) (p q : Path) → IsOver (G.told outside.old) space.old records
        → IsDirectoryAt records v p (option_map as_node one.now) → IsDirectoryAt records w q (option_map as_node other.now)
        → MatchResult result (λ pairs. (s : Step) → Differs records v w p q one.now other.now s (find bytes_cmp s pairs.entries)) IsFree }
    ensures looks { Looks G.tells (G.told outside.old) (G.told outside.new) space.old space.new }
    ensures counts { Counts counted_tree result (G.counts_of outside.old) (G.counts_of outside.new) }
    ensures causes { IfErr result (IsCause G.tells (G.told outside.old) space.old) }
{
    let mut found = BTreeMap::new(alloc);
    walk_parts(
        alloc,
        outside,
        space,
        &piece_of(one),
        &piece_of(other),
        0,
        &mut found,
    )?;
    Ok(found)
}
