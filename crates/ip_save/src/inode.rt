// The children of an inode, and whether they may stand in its record.
ghost use Rattle.std.specs.Prelude.{◌≡◌, ◌++◌, ◌≤◌, ◌<◌, [], ◌∷◌, ℕ, map, All, IsTrue, IfNone, IfOk, IfSome, None, OnOk, Some};
ghost use Rattle.std.specs.List.Sorted.{IsStrictlyIncreasing};
ghost use Rattle.ip_save.specs.Laid.{IsHighFault, child_for};
ghost use Rattle.ip_shape.specs.Heights.{inode_height};
ghost use Rattle.ip_spec.specs.Record.{Fits, IsInodeChild};
ghost use Rattle.ip_spec.specs.declared.record.Record.TheVariants as Record;
ghost use Rattle.ip_tree.specs.declared.node.Stored.{Stored as TheStored};

use crate::SaveFault;
use ip_base::{Limit, Memory, see_name};
use ip_shape::height::inode_height;
use ip_spec::record::{InodeChild, InodeChildren};
use ip_tree::Stored;

/// How many children an inode may have.
const CHILDREN_MAX: usize = 32;

/// The greatest depth of an inode.
const DEPTH_MAX: u8 = 50;

/// The greatest height of a child.
const HEIGHT_MAX: u8 = 64;

/// Why these may not be the children of an inode at a depth. A tree that is read or made by edits gives no cause.
pub fn inode_fault(depth: u8, children: &[InodeChild]) -> Option<SaveFault>
    ensures none { IfNone result (Fits 1 (Record.Inode depth children.now)) }
    ensures cause { IfSome result (IsHighFault (inode_height children.now)) }
{
    if inode_height(children) > HEIGHT_MAX {
        return Some(SaveFault::Limit(Limit::Depth));
    }
    if depth > DEPTH_MAX || children.is_empty() || children.len() > CHILDREN_MAX {
        return Some(SaveFault::Memory);
    }
    if !are_children(children) || !are_rising(children) {
        return Some(SaveFault::Memory);
    }
    None
}

fn are_children(children: &[InodeChild]) -> bool
    ensures { IsTrue result → All IsInodeChild children.now }
{
    for child in children {
        if !is_child(child) {
            return false;
        }
    }
    true
}

fn is_child(child: &InodeChild) -> bool
    ensures { IsTrue result → IsInodeChild child.now }
{
    let _at = child.at;
    see_name(&child.name);
    (child.index as usize) < CHILDREN_MAX && child.count > 0 && child.height <= HEIGHT_MAX
}

// Whether each index is below the next.
fn are_rising(children: &[InodeChild]) -> bool
    ensures { IsTrue result → IsStrictlyIncreasing (map (λ c. c.index) children.now) }
{
    for i in 1..children.len() {
        if children[i - 1].index >= children[i].index {
            return false;
        }
    }
    true
}

/// Puts a child of so many entries behind the others, where it has a record.
pub fn add_child(
    row: &mut InodeChildren,
    index: usize,
    count: usize,
    stored: &Option<Stored>,
) -> Result<(), Memory>
    ensures absent { stored.now ≡ None → OnOk result (row.new ≡ row.old) }
    ensures added { (x : TheStored) → stored.now ≡ Some x → OnOk result (row.new ≡ row.old ++ child_for index count x ∷ []) }
{
    let Some(stored) = stored else {
        return Ok(());
    };
    row.push(inode_child(index, count, stored)?)
}

// What an inode tells of a child.
fn inode_child(index: usize, count: usize, stored: &Stored) -> Result<InodeChild, Memory>
    ensures { IfOk result (λ child. child ≡ child_for index count stored.now) }
{
    // No directory has a child at such an index, nor so many entries.
    let (Ok(index), Ok(count)) = (u8::try_from(index), u32::try_from(count)) else {
        return Err(Memory);
    };
    Ok(InodeChild {
        index,
        count,
        height: stored.height,
        name: stored.reference.name,
        at: stored.reference.at,
    })
}
