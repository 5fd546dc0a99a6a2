// The kinds of records: the first byte of each record, and of what its name is made from. A reference tells the kind of what it leads to.

/// Contents.
pub const CONTENTS: u8 = 1;

/// A leaf: entries of a directory.
pub const LEAF: u8 = 2;

/// An inode: a part of a directory by its children.
pub const INODE: u8 = 3;

/// A commit.
pub const COMMIT: u8 = 4;

/// A branch is set to a commit.
pub const BRANCH_SET: u8 = 5;

/// A branch is taken away.
pub const BRANCH_REMOVE: u8 = 6;

/// All branches at once, as a collection keeps them.
pub const BRANCH_TABLE: u8 = 7;

/// A tag is set to a commit.
pub const TAG_SET: u8 = 8;

/// A tag is taken away.
pub const TAG_REMOVE: u8 = 9;

/// All tags at once.
pub const TAG_TABLE: u8 = 10;

/// What a reference tells of a directory, or of a part of one, be that a leaf or an inode.
pub const DIRECTORY: u8 = 2;
