// Where what comes can't stand beside what is there.
ghost use Rattle.std.specs.Prelude.{◌≡◌, ◌≤◌, ℕ, Option, Some, length, IsTrue, IfOk, IfErr, IfSome, IsErrOf, MatchResult, if◌then◌else◌};
ghost use Rattle.std.specs.Option.{option_copied};
ghost use Rattle.ip_ground.specs.Counts.{Counts};
ghost use Rattle.ip_space.specs.declared.fault.FetchFault.TheVariants as FetchFault;
ghost use Rattle.ip_spec.specs.Path.{Path as ThePath, same_path};
ghost use Rattle.ip_spec.specs.View.{View};
ghost use Rattle.ip_spec.specs.declared.record.Record.{Record};
ghost use Rattle.ip_three.specs.Applying.{as_coming, as_edits};
ghost use Rattle.ip_three.specs.Clashes.{clash_above as above_of, clash_at as at_of, clash_of, front_of, gives_value as gives, is_at, is_clash_here, is_met, last_path};
ghost use Rattle.ip_three.specs.Walking.{AreTaken, IsTakenAt};
ghost use Rattle.ip_tree.specs.Faults.{counted_tree};
ghost use Rattle.ip_tree.specs.Reads.{IsOver, IsFree, Looks, IsCause};
ghost use Rattle.ip_tree.specs.TreeView.{IsView};
ghost use Rattle.ip_tree.specs.declared.tree.TreeFault.TheVariants as TreeFault;

use crate::apply::{Coming, Edit};
use crate::plan::copy_path;
use crate::side::{directory_of, is_contents};
use ip_base::{Path, Step};
use ip_ground::Ground;
use ip_space::Space;
use ip_tree::look::place_of;
use ip_tree::{Tree, TreeFault};
use std::alloc::Global;

/// The first path that would have contents, and contents under it, of what stands in a tree and what comes to it in this order.
pub fn clash<G: Ground>(
    alloc: Global,
    outside: &mut G,
    space: &mut Space,
    tree: &Tree,
    come: &[Edit],
) -> Result<Option<Path>, TreeFault>
    ensures clash { IsTrue G.tells → (records : ℕ → Option Record) (v r : View) → IsOver (G.told outside.old) space.old records → IsView records tree.now v → AreTaken records r come.now
        → MatchResult result (λ found. found ≡ clash_of v.map r (as_edits come.now)) IsFree }
    ensures looks { Looks G.tells (G.told outside.old) (G.told outside.new) space.old space.new }
    ensures counts { Counts counted_tree result (G.counts_of outside.old) (G.counts_of outside.new) }
    ensures causes { IfErr result (IsCause G.tells (G.told outside.old) space.old) }
{
    let mut last = None;
    for i in 0..come.len() {
        let edit = &come[i];
        if let Some(count) = clash_at(outside, space, tree, path_at(come, last), edit)? {
            return Ok(Some(copy_path(alloc, &edit.path.steps()[..count])?));
        }
        last = next_last(last, i, &edit.coming);
    }
    Ok(None)
}

// Which of the edits was the last that gives contents.
fn next_last(last: Option<usize>, i: usize, coming: &Coming) -> Option<usize>
    ensures { (records : ℕ → Option Record) (r : View) (path : ThePath) → IsTakenAt records r path coming.now → result ≡ (if gives r path (as_coming coming.now) then Some i else last) }
{
    if gives_value(coming) {
        return Some(i);
    }
    last
}

fn path_at(come: &[Edit], at: Option<usize>) -> Option<&[Step]>
    ensures { option_copied result ≡ last_path come.now at }
{
    match at {
        Some(at) => match come.get(at) {
            Some(edit) => Some(edit.path.steps()),
            None => None,
        },
        None => None,
    }
}

// How many first steps of an edit's path lead to where it clashes, with what stands there or with the contents that came last.
fn clash_at<G: Ground>(
    outside: &mut G,
    space: &mut Space,
    tree: &Tree,
    last: Option<&[Step]>,
    edit: &Edit,
) -> Result<Option<usize>, TreeFault>
    ensures clash { IsTrue G.tells → (records : ℕ → Option Record) (v r : View) → IsOver (G.told outside.old) space.old records → IsView records tree.now v → IsTakenAt records r edit.now.path edit.now.coming
        → MatchResult result (λ found. front_of edit.now.path found ≡ at_of v.map r (option_copied last.entry) edit.now.path (as_coming edit.now.coming)) IsFree }
    ensures within { IfOk result (λ found. IfSome found (λ n. n ≤ length edit.now.path)) }
    ensures looks { Looks G.tells (G.told outside.old) (G.told outside.new) space.old space.new }
    ensures counts { Counts counted_tree result (G.counts_of outside.old) (G.counts_of outside.new) }
    ensures causes { IfErr result (IsCause G.tells (G.told outside.old) space.old) }
{
    let path = edit.path.steps();
    if let Some(count) = clash_above(outside, space, tree, last, path)? {
        return Ok(Some(count));
    }
    if clashes_here(outside, space, tree, last, edit)? {
        return Ok(Some(path.len()));
    }
    Ok(None)
}

// How many first steps of a path, fewer than all, lead to contents.
fn clash_above<G: Ground>(
    outside: &mut G,
    space: &mut Space,
    tree: &Tree,
    last: Option<&[Step]>,
    path: &[Step],
) -> Result<Option<usize>, TreeFault>
    ensures clash { IsTrue G.tells → (records : ℕ → Option Record) (v : View) → IsOver (G.told outside.old) space.old records → IsView records tree.now v
        → MatchResult result (λ found. front_of path.now found ≡ above_of v.map (option_copied last.entry) path.now) IsFree }
    ensures within { IfOk result (λ found. IfSome found (λ n. n ≤ length path.now)) }
    ensures looks { Looks G.tells (G.told outside.old) (G.told outside.new) space.old space.new }
    ensures counts { Counts counted_tree result (G.counts_of outside.old) (G.counts_of outside.new) }
    ensures causes { IfErr result (IsCause G.tells (G.told outside.old) space.old) }
{
    for count in 0..path.len() {
        if has_contents(outside, space, tree, last, &path[..count])? {
            return Ok(Some(count));
        }
    }
    Ok(None)
}

// Whether contents stand at a path, or came there last.
fn has_contents<G: Ground>(
    outside: &mut G,
    space: &mut Space,
    tree: &Tree,
    last: Option<&[Step]>,
    path: &[Step],
) -> Result<bool, TreeFault>
    ensures contents { IsTrue G.tells → (records : ℕ → Option Record) (v : View) → IsOver (G.told outside.old) space.old records → IsView records tree.now v
        → MatchResult result (λ found. found ≡ is_met v.map (option_copied last.entry) path.now) IsFree }
    ensures looks { Looks G.tells (G.told outside.old) (G.told outside.new) space.old space.new }
    ensures counts { Counts counted_tree result (G.counts_of outside.old) (G.counts_of outside.new) }
    ensures causes { IfErr result (IsCause G.tells (G.told outside.old) space.old) }
{
    if is_last(last, path) {
        return Ok(true);
    }
    match tree.at(outside, space, path) {
        Ok(place) => Ok(is_contents(&place)),
        Err(fault) => Err(fault),
    }
}

// Whether contents come to a directory, or a directory to contents.
fn clashes_here<G: Ground>(
    outside: &mut G,
    space: &mut Space,
    tree: &Tree,
    last: Option<&[Step]>,
    edit: &Edit,
) -> Result<bool, TreeFault>
    ensures clash { IsTrue G.tells → (records : ℕ → Option Record) (v r : View) → IsOver (G.told outside.old) space.old records → IsView records tree.now v → IsTakenAt records r edit.now.path edit.now.coming
        → MatchResult result (λ found. found ≡ is_clash_here v.map r (option_copied last.entry) edit.now.path (as_coming edit.now.coming)) IsFree }
    ensures looks { Looks G.tells (G.told outside.old) (G.told outside.new) space.old space.new }
    ensures counts { Counts counted_tree result (G.counts_of outside.old) (G.counts_of outside.new) }
    ensures causes { IfErr result (IsCause G.tells (G.told outside.old) space.old) }
{
    let path = edit.path.steps();
    if is_last(last, path) {
        return Ok(true);
    }
    match tree.at(outside, space, path) {
        Ok(place) => {
            if gives_value(&edit.coming) {
                return Ok(directory_of(&place).is_some());
            }
            Ok(is_contents(&place))
        }
        Err(fault) => Err(fault),
    }
}

// Contents come, not a directory.
fn gives_value(coming: &Coming) -> bool
    ensures { (records : ℕ → Option Record) (r : View) (path : ThePath) → IsTakenAt records r path coming.now → result ≡ gives r path (as_coming coming.now) }
{
    match coming {
        Coming::Put(_) => true,
        Coming::Taken(node) => is_contents(&Some(place_of(node))),
    }
}

fn is_last(last: Option<&[Step]>, path: &[Step]) -> bool
    ensures { result ≡ is_at (option_copied last.entry) path.now }
{
    match last {
        Some(last) => is_same(last, path),
        None => false,
    }
}

fn is_same(one: &[Step], other: &[Step]) -> bool
    ensures { result ≡ same_path one.now other.now }
{
    one.cmp(other).is_eq()
}
