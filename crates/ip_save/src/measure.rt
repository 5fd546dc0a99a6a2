// Measures of what is written.
ghost use Rattle.std.specs.Prelude.{◌≡◌};
ghost use Rattle.ip_save.specs.Laid.{record_of};

use crate::CommitFields;
use ip_base::Step;
use ip_shape::part::Part;
use ip_tree::Stored;

/// How many bytes the records of these new contents, of directories that take so many, and of the commit will take, so that room for them is taken
/// once. It is no more than a hint.
pub fn room_for(put: &[&[u8]], directories: usize, fields: &CommitFields) -> usize {
    fields
        .parents
        .len()
        .saturating_mul(40)
        .saturating_add(fields.info.author.len())
        .saturating_add(fields.info.message.len())
        .saturating_add(fields.branch.len())
        .saturating_add(88)
        .saturating_add(directories)
        .saturating_add(room_of_contents(put))
}

fn room_of_contents(put: &[&[u8]]) -> usize {
    let mut room = 0usize;
    for bytes in put {
        room = room.saturating_add(bytes.len()).saturating_add(5);
    }
    room
}

/// How many bytes the records of a part of a directory will take, but for those that are known. It is no more than a hint.
#[cycle(room)]
pub fn room_of(part: &Part<Stored>) -> usize {
    match part {
        Part::Leaf { known: None, steps } => room_of_leaf(steps),
        Part::Inode {
            known: None,
            children,
            ..
        } => room_of_inode(children),
        _ => 0,
    }
}

fn room_of_leaf(steps: &[Step]) -> usize {
    let mut room = 9usize;
    for step in steps {
        room = room.saturating_add(step.bytes().len()).saturating_add(43);
    }
    room
}

#[cycle(room)]
fn room_of_inode(children: &[Part<Stored>]) -> usize {
    let mut room = 10usize;
    for child in children {
        if child.count() > 0 {
            room = room.saturating_add(room_of(child)).saturating_add(45);
        }
    }
    room
}

/// The record that spells a part of a directory, where one is known.
pub fn record_of(part: &Part<Stored>) -> Option<Stored>
    ensures { result ≡ record_of part.now }
{
    match part {
        Part::Leaf { known, .. } => *known,
        Part::Inode { known, .. } => *known,
        Part::Unread { record, .. } => Some(*record),
    }
}
