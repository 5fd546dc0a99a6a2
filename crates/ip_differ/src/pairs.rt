// What is found of two directories.
ghost use Rattle.std.specs.Prelude.{◌≡◌, Some, None, cond, option_map, OnOk};
ghost use Rattle.std.specs.FinMap.Entries.{find};
ghost use Rattle.ip_spec.specs.Path.{bytes_cmp, same_bytes};
ghost use Rattle.ip_tree.specs.Finding.{as_node};
ghost use Rattle.ip_differ.specs.Differing.{entry_in, node_at};
ghost use Rattle.ip_differ.specs.Sides.{Puts, pair_or, set_side};

use ip_base::{Memory, Step};
use ip_shape::dir::find;
use ip_tree::look::{Place, place_of};
use ip_tree::{Directory, Stored};
use std::collections::BTreeMap;

/// What stands at a step of a directory.
#[derive(Clone, Copy)]
pub enum Entry {
    /// A record that was not read.
    Stored(Stored),
    /// What the directory has there: its part was read.
    Read,
}

/// What stands at a step of each of two directories, of which one may have nothing there. `place_in` turns each side into the place where it stands.
#[derive(Clone, Copy)]
pub struct Pair {
    pub one: Option<Entry>,
    pub other: Option<Entry>,
}

/// Pairs by their steps, as `differing` finds them.
pub type Pairs = BTreeMap<Step, Pair>;

/// Which of the two directories.
#[derive(Clone, Copy)]
pub(crate) enum Side {
    One,
    Other,
}

/// What one side of a pair tells of a step, as a place: the first argument is the place that `differing` was given for that side. Nothing is fetched for it.
pub fn place_in<'a>(
    place: &Option<Place<'a>>,
    step: &Step,
    entry: &Option<Entry>,
) -> Option<Place<'a>>
    ensures { option_map as_node result ≡ entry_in place.now step.now entry.now }
{
    match entry {
        None => None,
        Some(Entry::Stored(stored)) => Some(Place::Stored(*stored)),
        Some(Entry::Read) => match place {
            None => None,
            Some(Place::Stored(_)) => None,
            Some(Place::Contents(_)) => None,
            Some(Place::Directory(dir)) => node_in(dir, step),
        },
    }
}

fn node_in<'a>(dir: &'a Directory, step: &Step) -> Option<Place<'a>>
    ensures { option_map as_node result ≡ node_at dir.now step.now }
{
    match find(dir, step) {
        Some(node) => Some(place_of(node)),
        None => None,
    }
}

// The pair at a step, or one of nothing.
fn pair_at(found: &Pairs, step: &Step) -> Pair
    ensures { result ≡ pair_or (find bytes_cmp step.now found.now.entries) }
{
    match found.get(step) {
        Some(pair) => *pair,
        None => Pair {
            one: None,
            other: None,
        },
    }
}

// The pair with this on a side.
fn with_entry(pair: &Pair, side: Side, entry: Entry) -> Pair
    ensures { result ≡ set_side side entry pair.now }
{
    match side {
        Side::One => Pair {
            one: Some(entry),
            other: pair.other,
        },
        Side::Other => Pair {
            one: pair.one,
            other: Some(entry),
        },
    }
}

/// Puts what stands at a step of one of the directories, and keeps what is there of the other.
pub(crate) fn put_entry(
    found: &mut Pairs,
    step: Step,
    side: Side,
    entry: Entry,
) -> Result<(), Memory>
    ensures { OnOk result (Puts side (λ s. cond (same_bytes s step) (Some entry) None) found.old.entries found.new.entries) }
{
    let pair = with_entry(&pair_at(found, &step), side, entry);
    found.insert(step, pair)?;
    Ok(())
}
