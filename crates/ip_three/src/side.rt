// Which side a directory comes from, as far as the offsets of records tell it, and what stands at a place.
ghost use Rattle.std.specs.Prelude.{◌≡◌, ℕ, [], Option, option_map, is_some, IsTrue, IsFalse};
ghost use Rattle.ip_shape.specs.Directory.{root_of};
ghost use Rattle.ip_spec.specs.Map.{get};
ghost use Rattle.ip_spec.specs.Path.{Path};
ghost use Rattle.ip_spec.specs.View.{View, is_nil};
ghost use Rattle.ip_spec.specs.declared.record.Record.{Record};
ghost use Rattle.ip_three.specs.Merging.{directory_side, same_number, side_by};
ghost use Rattle.ip_three.specs.Walking.{FoundDirectory, IsAt, IsOneStored, SaysDirectory, as_side, holds_at, is_directory_at, same_records, unread_record};
ghost use Rattle.ip_tree.specs.Finding.{FindsIn, as_node};
ghost use Rattle.ip_tree.specs.Known.{known_at, known_part, offset_of};

use ip_shape::part::Part;
use ip_spec::kind;
use ip_tree::look::Place;
use ip_tree::{Directory, Stored};

/// The side that a part of the merge comes from.
#[derive(Clone, Copy)]
pub enum Side {
    Left,
    Right,
}

/// The side from which a directory comes that stands at these places, or at some of them; contents count as no directory.
pub fn side_of(
    base: &Option<Place<'_>>,
    left: &Option<Place<'_>>,
    right: &Option<Place<'_>>,
) -> Option<Side>
    ensures { (records : ℕ → Option Record) (b l r : View) (p : Path) → IsAt records b p (option_map as_node base.now) → IsAt records l p (option_map as_node left.now)
        → IsAt records r p (option_map as_node right.now) → option_map as_side result ≡ directory_side b l r p }
{
    let old = directory_of(base);
    let one = directory_of(left);
    let other = directory_of(right);
    side_for(
        is_one_directory(&one, &other),
        is_one_directory(&one, &old),
        is_one_directory(&other, &old),
    )
}

// The side by whether left and right, left and base, right and base are the same.
pub(crate) fn side_for(alike: bool, left_stayed: bool, right_stayed: bool) -> Option<Side>
    ensures { option_map as_side result ≡ side_by alike left_stayed right_stayed }
{
    if alike {
        return Some(Side::Left);
    }
    if left_stayed {
        return Some(Side::Right);
    }
    if right_stayed {
        return Some(Side::Left);
    }
    None
}

/// The directory at a place, where one stands there.
pub fn directory_of<'a>(place: &Option<Place<'a>>) -> Option<Place<'a>>
    ensures found { (records : ℕ → Option Record) (w : View) (p : Path) → IsFalse (is_nil p) → FindsIn records w p (option_map as_node place.now)
        → FoundDirectory records w p (option_map as_node result) }
    // at the root too
    ensures says { (records : ℕ → Option Record) (w : View) (p : Path) → IsAt records w p (option_map as_node place.now) → SaysDirectory records w p (option_map as_node result) }
{
    if is_directory(place) {
        return same_place(place);
    }
    None
}

fn is_directory(place: &Option<Place<'_>>) -> bool
    ensures { result ≡ is_directory_at (option_map as_node place.now) }
{
    match place {
        Some(Place::Stored(stored)) => stored.reference.kind != kind::CONTENTS,
        Some(Place::Contents(_)) => false,
        Some(Place::Directory(_)) => true,
        None => false,
    }
}

/// The place once more.
pub(crate) fn same_place<'a>(place: &Option<Place<'a>>) -> Option<Place<'a>>
    ensures { result ≡ place.now }
{
    match place {
        Some(Place::Stored(stored)) => Some(Place::Stored(*stored)),
        Some(Place::Contents(bytes)) => Some(Place::Contents(bytes)),
        Some(Place::Directory(dir)) => Some(Place::Directory(dir)),
        None => None,
    }
}

/// Whether contents stand at a place.
pub fn holds_contents(place: &Option<Place<'_>>) -> bool
    ensures { (records : ℕ → Option Record) (w : View) (p : Path) → FindsIn records w p (option_map as_node place.now) → result ≡ is_some (get w.map p) }
{
    is_contents(place)
}

/// The same at the root too.
pub(crate) fn is_contents(place: &Option<Place<'_>>) -> bool
    ensures { result ≡ holds_at (option_map as_node place.now) }
{
    match place {
        Some(Place::Stored(stored)) => stored.reference.kind == kind::CONTENTS,
        Some(Place::Contents(_)) => true,
        Some(Place::Directory(_)) => false,
        None => false,
    }
}

/// Both are one record that was not read.
pub fn is_one_place(one: &Option<Place<'_>>, other: &Option<Place<'_>>) -> bool
    ensures { (records : ℕ → Option Record) (v w : View) (p : Path) → FindsIn records v p (option_map as_node one.now) → FindsIn records w p (option_map as_node other.now)
        → IsTrue result → IsOneStored v w p }
{
    is_one_offset(unread_at(one), unread_at(other))
}

// Where a record lies that was not read.
fn unread_at(place: &Option<Place<'_>>) -> Option<u64>
    ensures { result ≡ unread_record (option_map as_node place.now) }
{
    match place {
        Some(Place::Stored(stored)) => Some(stored.reference.at),
        Some(Place::Contents(_)) => None,
        Some(Place::Directory(_)) => None,
        None => None,
    }
}

fn is_one_offset(one: Option<u64>, other: Option<u64>) -> bool
    ensures { result ≡ same_number one other }
{
    match (one, other) {
        (Some(at), Some(there)) => at == there,
        _ => false,
    }
}

// Both have none, or both have it in one record.
fn is_one_directory(one: &Option<Place<'_>>, other: &Option<Place<'_>>) -> bool
    ensures { (records : ℕ → Option Record) → result ≡ same_records records (option_map as_node one.now) (option_map as_node other.now) }
{
    match (one, other) {
        (None, None) => true,
        (Some(one), Some(other)) => is_one_record(one, other),
        _ => false,
    }
}

fn is_one_record(one: &Place<'_>, other: &Place<'_>) -> bool
    ensures { (records : ℕ → Option Record) → result ≡ same_number (known_at records (as_node one.now) [] []) (known_at records (as_node other.now) [] []) }
{
    is_one_offset(record_at(one), record_at(other))
}

// Where the record of what stands at a place lies, if one is known.
fn record_at(place: &Place<'_>) -> Option<u64>
    ensures { (records : ℕ → Option Record) → result ≡ known_at records (as_node place.now) [] [] }
{
    match place {
        Place::Stored(stored) => Some(stored.reference.at),
        Place::Contents(_) => None,
        Place::Directory(dir) => root_at(dir),
    }
}

fn root_at(dir: &Directory) -> Option<u64>
    ensures { (records : ℕ → Option Record) → result ≡ known_part records (root_of dir.now) [] }
{
    match dir.root() {
        Part::Leaf { known, .. } => offset_at(known),
        Part::Inode { known, .. } => offset_at(known),
        Part::Unread { record, .. } => Some(record.reference.at),
    }
}

fn offset_at(known: &Option<Stored>) -> Option<u64>
    ensures { result ≡ option_map offset_of known.now }
{
    match known {
        Some(stored) => Some(stored.reference.at),
        None => None,
    }
}
