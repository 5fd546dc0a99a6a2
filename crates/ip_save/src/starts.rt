// What refers to the new contents of a directory's entries. Contents stand in the order of paths, and the parts of a directory hold their steps in the
// order of digests, so whoever lays parts finds this by the step.
ghost use Rattle.std.specs.Prelude.{◌≡◌, List, true, IfOk, IsSomeAnd};
ghost use Rattle.ip_save.specs.Laid.{AreStarts, BeginsWith, nodes_in, start_in, tallies_among, tallies_in};
ghost use Rattle.ip_shape.specs.Shape.{AreSteps, has};
ghost use Rattle.ip_tree.specs.Node.{Nodes, steps_in};
ghost use Rattle.ip_tree.specs.declared.node.Stored.{Stored};

use crate::tally::{Tally, behind, behind_new};
use ip_base::{Memory, Step};
use ip_tree::{Directory, Stored};
use std::alloc::Global;

/// Where a step of a directory begins.
#[derive(Clone, Copy)]
pub struct Start<'a> {
    step: &'a Step,
    /// What refers to the new contents at the step and below it, and to those behind them.
    pub refs: &'a [Stored],
    /// The tallies of the directories at the step and below it, and of those behind them.
    pub ahead: &'a [Tally],
}

/// The starts of a directory's entries, in the order of their steps, where the first of `refs` refer to its new contents, and the first tallies are
/// those of the directories below it.
pub fn starts_of<'a>(
    alloc: Global,
    dir: &'a Directory,
    refs: &'a [Stored],
    ahead: &'a [Tally],
) -> Result<Vec<Start<'a>>, Memory>
    ensures ascend { IfOk result (λ _. AreSteps (steps_in (nodes_in dir.now))) }
    ensures starts { BeginsWith (tallies_among (nodes_in dir.now)) ahead.now → IfOk result (λ starts. AreStarts (nodes_in dir.now) refs.now starts.items) }
{
    let entries = dir.entries();
    let mut starts = Vec::with_capacity(alloc, entries.len())?;
    let mut left = refs;
    let mut below = ahead;
    for (step, node) in entries {
        starts.push(Start {
            step,
            refs: left,
            ahead: below,
        })?;
        left = behind_new(node, below, left);
        below = behind(node, below);
    }
    Ok(starts)
}

/// The start of a step, which is one of the table's.
pub fn start_at<'a>(starts: &[Start<'a>], step: &Step) -> Option<Start<'a>>
    ensures { (ns : Nodes) (refs : List Stored) → AreSteps (steps_in ns) → AreStarts ns refs starts.now → has step.now (steps_in ns) ≡ true
        → IsSomeAnd result (λ start. (start.refs.now ≡ start_in ns refs step.now) × BeginsWith (tallies_in ns step.now) start.ahead.now) }
{
    match starts.binary_search_by(|start| start.step.cmp(step)) {
        Ok(i) => Some(starts[i]),
        Err(_) => None,
    }
}
