// How high the parts of a directory are, by what their records tell.
ghost use Rattle.std.specs.Prelude.{◌≡◌, ℕ, All, fold, max, suc};
ghost use Rattle.ip_shape.specs.Heights.{inode_height, leaf_height, raised};
ghost use Rattle.ip_spec.specs.Record.{IsLeafEntry};
ghost use Rattle.ip_spec.specs.declared.record.InodeChild.{InodeChild};
ghost use Rattle.ip_spec.specs.declared.record.LeafEntry.{LeafEntry};

use ip_spec::record::{InodeChild, LeafEntry};

/// The greater of a height and of one that is a step further up. Heights in records that spell no tree may be any, so 255 stands for all above.
pub fn raised_by(most: u8, below: u8) -> u8
    ensures { result ≡ max most (raised below) }
{
    most.max(below.saturating_add(1))
}

/// The height of a leaf: the greatest number of steps of what its entries lead to.
pub fn leaf_height(entries: &[LeafEntry]) -> u8
    ensures height { result ≡ leaf_height entries.now }
    ensures lawful { All IsLeafEntry entries.now → result ≡ fold (λ n (e : LeafEntry). max n (suc e.height)) 0 entries.now }
{
    let mut height = 0u8;
    for entry in entries {
        height = raised_by(height, entry.height);
    }
    height
}

/// The height of an inode: the greatest of its children's.
pub fn inode_height(children: &[InodeChild]) -> u8
    ensures height { result ≡ inode_height children.now }
    ensures greatest { result ≡ fold (λ n (c : InodeChild). max n c.height) 0 children.now }
{
    let mut height = 0u8;
    for child in children {
        height = height.max(child.height);
    }
    height
}
