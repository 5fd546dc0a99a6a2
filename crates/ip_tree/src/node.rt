// The nodes of a tree.
use ip_base::Blob;
use ip_shape::dir::Dir;
use ip_spec::record::Ref;

/// A record of the store: contents, a whole directory that is not empty, or a part of one.
#[derive(Clone, Copy)]
pub struct Stored {
    pub reference: Ref,
    /// The greatest number of steps of what it spells.
    pub height: u8,
}

/// What stands in a tree at a step.
#[derive(Drop)]
pub enum Node {
    /// A record that was not read.
    Stored(Stored),
    /// Contents that no record of the store is known to hold.
    Contents(Blob),
    /// A directory that is new, or of which parts were read: its entries at these, and the records of the others.
    Directory(Directory),
}

/// A directory in a tree.
pub type Directory = Dir<Node, Stored>;
