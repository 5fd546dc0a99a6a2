// The references of records.
ghost use Rattle.std.specs.Prelude.{◌≡◌, List, [], drop};
ghost use Rattle.ip_spec.specs.Record.{references};
ghost use Rattle.ip_object.specs.Referring.{left_in};

use ip_spec::kind;
use ip_spec::record::{InodeChild, LeafEntry, Record, Ref};

/// The references of a record that are still to come, in the order of the record's fields.
#[derive(Clone, Copy)]
pub enum RecordReferences<'a> {
    /// Of the entries of a leaf.
    Entries(&'a [LeafEntry]),
    /// Of the children of an inode.
    Children(&'a [InodeChild]),
    /// Of a commit, to its root.
    Root(Ref),
    None,
}

/// The references of a record to others, each to an offset of the virtual space: of a leaf to what its entries are, of an inode to
/// its children, of a commit to its root. Parents and branches are referred to by number, and are none of them.
pub fn references(rec: &Record) -> RecordReferences<'_>
    ensures { left_in result ≡ references rec.now }
{
    match rec {
        Record::Leaf(entries) => RecordReferences::Entries(entries.as_slice()),
        Record::Inode { children, .. } => RecordReferences::Children(children.as_slice()),
        Record::Commit(c) => RecordReferences::Root(Ref {
            at: c.root_at,
            name: c.root_name,
            kind: kind::DIRECTORY,
        }),
        _ => RecordReferences::None,
    }
}

impl<'a> Iterator for RecordReferences<'a> {
    ghost use Rattle.std.specs.Iterator.{item_count};
    ghost use Rattle.ip_object.specs.Referring.{left_in, GivesReference};

    type Item = Ref;

    ghost next_gives = { GivesReference };

    ghost remaining = { item_count left_in };

    fn next(&mut self) -> Option<Ref> {
        match *self {
            RecordReferences::Entries([entry, rest @ ..]) => {
                *self = RecordReferences::Entries(rest);
                Some(Ref {
                    at: entry.at,
                    name: entry.name,
                    kind: entry.kind,
                })
            }
            RecordReferences::Children([child, rest @ ..]) => {
                *self = RecordReferences::Children(rest);
                Some(Ref {
                    at: child.at,
                    name: child.name,
                    kind: kind::DIRECTORY,
                })
            }
            RecordReferences::Root(root) => {
                *self = RecordReferences::None;
                Some(root)
            }
            _ => None,
        }
    }
}
