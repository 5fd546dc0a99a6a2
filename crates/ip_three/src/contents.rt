// What becomes of the contents at one path.
ghost use Rattle.std.specs.Prelude.{◌≡◌, ℕ, Option, Some, option_map, IsTrue, IfOk, IfErr, IfSome, IsErrOf, MatchResult};
ghost use Rattle.std.specs.Option.{option_copied};
ghost use Rattle.ip_ground.specs.Counts.{Counts};
ghost use Rattle.ip_space.specs.declared.fault.FetchFault.TheVariants as FetchFault;
ghost use Rattle.ip_spec.specs.Map.{get};
ghost use Rattle.ip_spec.specs.Merge.{same_value};
ghost use Rattle.ip_spec.specs.Path.{Bytes, Path};
ghost use Rattle.ip_spec.specs.View.{View};
ghost use Rattle.ip_spec.specs.declared.record.Record.{Record};
ghost use Rattle.ip_three.specs.Walking.{HoldsContent, IsDecided, IsDecidedBy, IsSettled};
ghost use Rattle.ip_tree.specs.Faults.{counted_tree};
ghost use Rattle.ip_tree.specs.Finding.{FindsIn, as_node};
ghost use Rattle.ip_tree.specs.Reads.{IsOver, IsFree, Looks, IsCause};
ghost use Rattle.ip_tree.specs.declared.tree.TreeFault.TheVariants as TreeFault;

use crate::side::{Side, side_for};
use ip_base::{Blob, Memory, Step};
use ip_ground::Ground;
use ip_merge::{Decides, Merged};
use ip_space::Space;
use ip_spec::kind;
use ip_spec::record::Ref;
use ip_tree::TreeFault;
use ip_tree::fetch::fetch_contents;
use ip_tree::look::Place;
use std::alloc::Global;

/// What becomes of the contents at a path.
#[derive(Drop)]
pub enum Decided {
    /// Those of the left side stay, if there are any.
    Stays,
    /// They are those of the right side, if it has any.
    Taken,
    /// Both sides changed them: what the rule of the path answers.
    Answered(Merged),
}

/// The contents at a place.
#[derive(Clone, Copy)]
pub enum Content<'a> {
    /// None stand there.
    Absent,
    /// In the record at a reference.
    Stored(Ref),
    /// Contents that are new.
    Fresh(&'a Blob),
}

/// By offsets and names where these tell it, else by bytes; and by the rule of the path where both sides changed.
pub fn decide<G: Ground, D: Decides>(
    alloc: Global,
    outside: &mut G,
    space: &mut Space,
    base: &Option<Place<'_>>,
    left: &Option<Place<'_>>,
    right: &Option<Place<'_>>,
    rules: &D,
    path: &[Step],
) -> Result<Decided, TreeFault>
    ensures decided { IsTrue G.tells → (records : ℕ → Option Record) (b l r : View) → IsOver (G.told outside.old) space.old records → FindsIn records b path.now (option_map as_node base.now)
        → FindsIn records l path.now (option_map as_node left.now) → FindsIn records r path.now (option_map as_node right.now)
        → MatchResult result (IsDecided (D.rule rules.now) b l r path.now) IsFree }
    ensures looks { Looks G.tells (G.told outside.old) (G.told outside.new) space.old space.new }
    ensures counts { Counts counted_tree result (G.counts_of outside.old) (G.counts_of outside.new) }
    ensures causes { IfErr result (IsCause G.tells (G.told outside.old) space.old) }
{
    let old = content_of(base);
    let one = content_of(left);
    let other = content_of(right);
    if let Some(decided) = settled(&old, &one, &other) {
        return Ok(decided);
    }
    ask(alloc, outside, space, &old, &one, &other, rules, path)
}

// By bytes, and by the rule of the path.
fn ask<G: Ground, D: Decides>(
    alloc: Global,
    outside: &mut G,
    space: &mut Space,
    base: &Content<'_>,
    left: &Content<'_>,
    right: &Content<'_>,
    rules: &D,
    path: &[Step],
) -> Result<Decided, TreeFault>
    ensures decided { IsTrue G.tells → (records : ℕ → Option Record) (o l r : Option Bytes) → IsOver (G.told outside.old) space.old records → HoldsContent records o base.now
        → HoldsContent records l left.now → HoldsContent records r right.now → MatchResult result (IsDecidedBy (D.rule rules.now) o l r path.now) IsFree }
    ensures looks { Looks G.tells (G.told outside.old) (G.told outside.new) space.old space.new }
    ensures counts { Counts counted_tree result (G.counts_of outside.old) (G.counts_of outside.new) }
    ensures causes { IfErr result (IsCause G.tells (G.told outside.old) space.old) }
{
    let old = bytes_of(alloc, outside, space, base)?;
    let one = bytes_of(alloc, outside, space, left)?;
    let other = bytes_of(alloc, outside, space, right)?;
    Ok(answer(alloc, &old, &one, &other, rules, path)?)
}

// By bytes that were read.
fn answer<D: Decides>(
    alloc: Global,
    base: &Option<Blob>,
    left: &Option<Blob>,
    right: &Option<Blob>,
    rules: &D,
    path: &[Step],
) -> Result<Decided, Memory>
    ensures { IfOk result (IsDecidedBy (D.rule rules.now) base.now left.now right.now path.now) }
{
    let side = side_for(
        is_same(left, right),
        is_same(left, base),
        is_same(right, base),
    );
    match side {
        Some(Side::Left) => Ok(Decided::Stays),
        Some(Side::Right) => Ok(Decided::Taken),
        None => Ok(Decided::Answered(rules.answer(
            alloc,
            path,
            slice_of(base),
            slice_of(left),
            slice_of(right),
        )?)),
    }
}

// What offsets and names tell. Where the left side is the base's, the right one comes only if it is another.
fn settled(base: &Content<'_>, left: &Content<'_>, right: &Content<'_>) -> Option<Decided>
    ensures { (records : ℕ → Option Record) (o l r : Option Bytes) → HoldsContent records o base.now → HoldsContent records l left.now → HoldsContent records r right.now
        → IfSome result (IsSettled o l r) }
{
    if is_one_content(left, right) {
        return Some(Decided::Stays);
    }
    if is_one_content(right, base) {
        return Some(Decided::Stays);
    }
    if is_one_content(left, base) && is_other_content(left, right) {
        return Some(Decided::Taken);
    }
    None
}

// The contents at a place, where contents stand there.
fn content_of<'a>(place: &Option<Place<'a>>) -> Content<'a>
    ensures { (records : ℕ → Option Record) (w : View) (p : Path) → FindsIn records w p (option_map as_node place.now) → HoldsContent records (get w.map p) result }
{
    match place {
        Some(place) => content_at(place),
        None => Content::Absent,
    }
}

fn content_at<'a>(place: &Place<'a>) -> Content<'a>
    ensures { (records : ℕ → Option Record) (w : View) (p : Path) → FindsIn records w p (Some (as_node place.now)) → HoldsContent records (get w.map p) result }
{
    match place {
        Place::Stored(stored) => {
            if stored.reference.kind == kind::CONTENTS {
                return Content::Stored(stored.reference);
            }
            Content::Absent
        }
        Place::Contents(bytes) => Content::Fresh(bytes),
        Place::Directory(_) => Content::Absent,
    }
}

// Both have none, or both have them in one record.
fn is_one_content(one: &Content<'_>, other: &Content<'_>) -> bool
    ensures { (records : ℕ → Option Record) (o q : Option Bytes) → HoldsContent records o one.now → HoldsContent records q other.now → IsTrue result → o ≡ q }
{
    match (one, other) {
        (Content::Absent, Content::Absent) => true,
        (Content::Stored(one), Content::Stored(other)) => one.at == other.at,
        _ => false,
    }
}

// One has none and the other some, or they are in records of other names.
fn is_other_content(one: &Content<'_>, other: &Content<'_>) -> bool
    ensures { (records : ℕ → Option Record) (o q : Option Bytes) → HoldsContent records o one.now → HoldsContent records q other.now → IsTrue result → o ≡ q → ⊥ }
{
    match (one, other) {
        (Content::Stored(one), Content::Stored(other)) => one.name != other.name,
        (Content::Absent, Content::Absent) => false,
        (Content::Absent, _) => true,
        (_, Content::Absent) => true,
        _ => false,
    }
}

fn slice_of(bytes: &Option<Blob>) -> Option<&[u8]>
    ensures { option_copied result ≡ bytes.now }
{
    match bytes {
        Some(bytes) => Some(bytes.as_slice()),
        None => None,
    }
}

fn is_same(one: &Option<Blob>, other: &Option<Blob>) -> bool
    ensures { result ≡ same_value one.now other.now }
{
    match (one, other) {
        (None, None) => true,
        (Some(one), Some(other)) => one.as_slice() == other.as_slice(),
        _ => false,
    }
}

fn bytes_of<G: Ground>(
    alloc: Global,
    outside: &mut G,
    space: &mut Space,
    content: &Content<'_>,
) -> Result<Option<Blob>, TreeFault>
    ensures bytes { IsTrue G.tells → (records : ℕ → Option Record) (o : Option Bytes) → IsOver (G.told outside.old) space.old records → HoldsContent records o content.now
        → MatchResult result (λ found. found ≡ o) IsFree }
    ensures looks { Looks G.tells (G.told outside.old) (G.told outside.new) space.old space.new }
    ensures counts { Counts counted_tree result (G.counts_of outside.old) (G.counts_of outside.new) }
    ensures causes { IfErr result (IsCause G.tells (G.told outside.old) space.old) }
{
    match content {
        Content::Absent => Ok(None),
        Content::Stored(reference) => Ok(Some(fetch_contents(outside, space, reference)?)),
        Content::Fresh(bytes) => Ok(Some(bytes.copy(alloc)?)),
    }
}
