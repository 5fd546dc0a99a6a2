// What is remembered of a record.
ghost use Rattle.std.specs.Prelude.{◌≡◌, ◌≤◌, ◌<◌, ◌++◌, ◌∷◌, [], take, suc, Some, None, IsTrue, IsFalse};
ghost use Rattle.ip_audit.specs.Memory.{AtDepth, shared};
ghost use Rattle.ip_audit.specs.View.{part_of, places_in};

use ip_base::Hash;
use ip_base::limit::{ENTRIES_MAX, LEAF_ENTRIES_MAX};
use ip_shape::places::{DEEPEST, Places};

/// How many entries a part above the deepest depth may have as a leaf.
pub const LEAF_ENTRIES: u64 = LEAF_ENTRIES_MAX as u64;

/// How many entries one directory may have.
pub const DIRECTORY_ENTRIES: u64 = ENTRIES_MAX as u64;

/// Of a part of a directory: the depth of an inode, how many entries it has, its height, its name, and the places of
/// one of its steps, in the first so many of which all its steps agree.
#[derive(Clone, Copy)]
pub struct Part {
    pub depth: Option<u8>,
    pub count: u64,
    pub height: u8,
    pub name: Hash,
    pub first: Places,
    pub agreed: u8,
}

/// Of contents their name; of a leaf or an inode what a part of a directory is tested by.
#[derive(Clone, Copy)]
pub enum Kept {
    Contents(Hash),
    Part(Part),
}

impl Part {
    /// It can be a whole directory.
    pub fn is_whole(&self) -> bool
        ensures yes { IsTrue result → AtDepth 0 (part_of self.now) }
        ensures no { IsFalse result → AtDepth 0 (part_of self.now) → ⊥ }
    {
        self.is_at(0)
    }

    /// It can be a part at this depth.
    pub fn is_at(&self, depth: u8) -> bool
        ensures yes { IsTrue result → AtDepth depth (part_of self.now) }
        ensures no { IsFalse result → AtDepth depth (part_of self.now) → ⊥ }
    {
        match self.depth {
            Some(own) => own == depth,
            None => self.count <= LEAF_ENTRIES || depth >= DEEPEST,
        }
    }

    /// Its steps agree with this one in the places above the depth, and the place at the depth is the index.
    pub fn agrees(&self, above: &Places, depth: u8, index: u8) -> bool
        requires { depth ≤ 50 }
        ensures yes { IsTrue result → take (suc depth) (part_of self.now).common ≡ take depth (places_in above.now) ++ index ∷ [] }
        ensures no { IsFalse result → take (suc depth) (part_of self.now).common ≡ take depth (places_in above.now) ++ index ∷ [] → ⊥ }
    {
        if self.agreed <= depth {
            return false;
        }
        if !are_same(&self.first, above, depth) {
            return false;
        }
        self.first.at(depth) == index
    }
}

/// In how many of their first places two steps agree, at most so many.
pub fn agreed_with(first: &Places, other: &Places, most: u8) -> u8
    requires { most ≤ 51 }
    ensures most { result ≤ most }
    ensures shared { shared (take most (places_in first.now)) (places_in other.now) ≡ take result (places_in first.now) }
{
    for depth in 0..most {
        if first.at(depth) != other.at(depth) {
            return depth;
        }
    }
    most
}

// Two steps agree in the places above the depth.
fn are_same(first: &Places, other: &Places, depth: u8) -> bool
    requires { depth ≤ 51 }
    ensures yes { IsTrue result → take depth (places_in first.now) ≡ take depth (places_in other.now) }
    ensures no { IsFalse result → take depth (places_in first.now) ≡ take depth (places_in other.now) → ⊥ }
{
    agreed_with(first, other, depth) == depth
}
