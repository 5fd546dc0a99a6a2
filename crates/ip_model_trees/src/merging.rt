// The merge of three trees, path by path.
ghost use Rattle.std.specs.Prelude.{◌≡◌, [], filter_map, is_some, option_map, IfOk, OnOk};
ghost use Rattle.std.specs.List.{list_any, find as first};
ghost use Rattle.std.specs.Option.{option_copied};
ghost use Rattle.std.specs.FinMap.Entries.{find};
ghost use Rattle.ip_spec.specs.Path.{Path as Steps, path_cmp};
ghost use Rattle.ip_spec.specs.Tree.{Tree as Map};
ghost use Rattle.ip_spec.specs.declared.merge.Merged.TheVariants.{Keep};
ghost use Rattle.ip_spec.specs.Merge.{IsOneAnswer, same_value};
ghost use Rattle.ip_spec.specs.MergeModel.{value_of, is_conflict};
ghost use Rattle.ip_model_trees.specs.Parts.{put_all, put_some};
ghost use Rattle.ip_model_trees.specs.Merging.{IsDecided, AreAnswers, Tells, is_over, conflicts_in, kept, MergesTo, DecidesOn};

use crate::trees::{Part, Tree, is_prefix, joined, put};
use ip_base::{Blob, Items, Memory, Path, Step};
use ip_merge::{Decides, Merged};
use std::alloc::Global;

/// What comes of a merge: the tree of all results, or the least path that conflicts.
#[derive(Drop)]
pub enum Joined {
    Merged(Tree),
    Conflict(Path),
}

// A path, and what becomes of it by itself.
type Answer = (Items<Step>, Merged);

impl Tree {
    /// The merge of two trees over the one that both come from. No path is asked for twice.
    pub fn merge<D: Decides>(
        alloc: Global,
        base: &Tree,
        left: &Tree,
        right: &Tree,
        rules: &D,
    ) -> Result<Joined, Memory>
        ensures { (o a b : Map) → base.now ≡ o.entries → left.now ≡ a.entries → right.now ≡ b.entries → ((p : Steps) → IsOneAnswer (D.rule rules.now p)) → IfOk result (λ joined. MergesTo (D.rule rules.now) o a b joined) }
    {
        let paths = with_all(alloc, with_all(alloc, base.copy(alloc)?, left)?, right)?;
        let answers = answers(alloc, &paths, base, left, right, rules)?;
        outcome(alloc, answers.as_slice())
    }

    fn bytes_at(&self, path: &[Step]) -> Option<&[u8]>
        ensures { option_copied result ≡ find path_cmp path.now self.now }
    {
        match self.get(path) {
            Some(contents) => Some(contents.as_slice()),
            None => None,
        }
    }
}

// The tree with all contents of another, also in place of its own.
fn with_all(alloc: Global, tree: Tree, more: &Tree) -> Result<Tree, Memory>
    ensures { IfOk result (λ all. all ≡ put_all path_cmp tree more.now) }
{
    let mut parts = tree.parts;
    for part in &more.parts {
        put(
            &mut parts,
            joined(alloc, &[], part.0.as_slice())?,
            part.1.copy(alloc)?,
        )?;
    }
    Ok(Tree { parts })
}

// What becomes of each path by itself.
fn answers<D: Decides>(
    alloc: Global,
    paths: &Tree,
    base: &Tree,
    left: &Tree,
    right: &Tree,
    rules: &D,
) -> Result<Vec<Answer>, Memory>
    ensures { IfOk result (λ answers. AreAnswers (D.rule rules.now) base.now left.now right.now paths.now answers.items) }
{
    let mut answers = Vec::new(alloc);
    for part in &paths.parts {
        let path = part.0.as_slice();
        let merged = answer(alloc, path, base, left, right, rules)?;
        answers.push((joined(alloc, &[], path)?, merged))?;
    }
    Ok(answers)
}

// What becomes of a path by itself.
fn answer<D: Decides>(
    alloc: Global,
    path: &[Step],
    base: &Tree,
    left: &Tree,
    right: &Tree,
    rules: &D,
) -> Result<Merged, Memory>
    ensures { IfOk result (λ merged. IsDecided (D.rule rules.now) base.now left.now right.now path.now merged) }
{
    decided(
        alloc,
        path,
        base.bytes_at(path),
        left.bytes_at(path),
        right.bytes_at(path),
        rules,
    )
}

// Equal sides are the result; a side equal to the ancestor gives way to the other; else the rule decides.
fn decided<D: Decides>(
    alloc: Global,
    path: &[Step],
    base: Option<&[u8]>,
    left: Option<&[u8]>,
    right: Option<&[u8]>,
    rules: &D,
) -> Result<Merged, Memory>
    ensures { IfOk result (λ merged. DecidesOn (D.rule rules.now path.now) (option_copied base.entry) (option_copied left.entry) (option_copied right.entry) merged) }
{
    if is_same(left, right) {
        return keep(alloc, left);
    }
    if is_same(left, base) {
        return keep(alloc, right);
    }
    if is_same(right, base) {
        return keep(alloc, left);
    }
    rules.answer(alloc, path, base, left, right)
}

fn is_same(one: Option<&[u8]>, other: Option<&[u8]>) -> bool
    ensures { result ≡ same_value (option_copied one.entry) (option_copied other.entry) }
{
    match (one, other) {
        (Some(a), Some(b)) => a == b,
        (None, None) => true,
        _ => false,
    }
}

fn keep(alloc: Global, value: Option<&[u8]>) -> Result<Merged, Memory>
    ensures { IfOk result (λ merged. merged ≡ Keep (option_copied value.entry)) }
{
    match value {
        Some(bytes) => Ok(Merged::Keep(Some(Blob::copy_of(alloc, bytes)?))),
        None => Ok(Merged::Keep(None)),
    }
}

// The tree of all values, unless a path conflicts.
fn outcome(alloc: Global, answers: &[Answer]) -> Result<Joined, Memory>
    ensures { IfOk result (λ joined. Tells answers.now joined) }
{
    match least_conflict(answers) {
        Some(answer) => {
            let path = joined(alloc, &[], answer.0.as_slice())?;
            Ok(Joined::Conflict(Path::of(path)))
        }
        None => Ok(Joined::Merged(values(alloc, answers)?)),
    }
}

fn least_conflict(answers: &[Answer]) -> Option<&Answer>
    ensures { option_map (λ e. e.now) result ≡ first (conflicts_in answers.now) answers.now }
{
    answers.iter().find(|answer| conflicts(answers, answer))
}

// Whether a path conflicts: by its rule, or since it has a value and so has a path under it.
fn conflicts(answers: &[Answer], one: &Answer) -> bool
    ensures { result ≡ conflicts_in answers.now one.now }
{
    is_conflict(&one.1) || (has_value(&one.1) && has_under(answers, one))
}

// Whether a path under this one has a value.
fn has_under(answers: &[Answer], one: &Answer) -> bool
    ensures { result ≡ list_any (is_over one.now) answers.now }
{
    for other in answers {
        if is_over(one, other) {
            return true;
        }
    }
    false
}

fn is_over(one: &Answer, other: &Answer) -> bool
    ensures { result ≡ is_over one.now other.now }
{
    let path = one.0.as_slice();
    let under = other.0.as_slice();
    is_prefix(path, under) && !path.cmp(under).is_eq() && has_value(&other.1)
}

fn is_conflict(merged: &Merged) -> bool
    ensures { result ≡ is_conflict merged.now }
{
    match merged {
        Merged::Conflict => true,
        Merged::Keep(_) => false,
    }
}

fn has_value(merged: &Merged) -> bool
    ensures { result ≡ is_some (value_of merged.now) }
{
    value_in(merged).is_some()
}

// The tree of all values.
fn values(alloc: Global, answers: &[Answer]) -> Result<Tree, Memory>
    ensures { IfOk result (λ t. t ≡ put_all path_cmp [] (filter_map kept answers.now)) }
{
    let mut parts = Vec::new(alloc);
    for answer in answers {
        put_value(alloc, &mut parts, answer)?;
    }
    Ok(Tree { parts })
}

// Puts the value of a path, if it has one.
fn put_value(alloc: Global, parts: &mut Vec<Part>, answer: &Answer) -> Result<(), Memory>
    ensures { OnOk result (parts.new.items ≡ put_some path_cmp (kept answer.now) parts.old.items) }
{
    match value_in(&answer.1) {
        Some(value) => {
            let path = joined(alloc, &[], answer.0.as_slice())?;
            put(parts, path, value.copy(alloc)?)
        }
        None => Ok(()),
    }
}

fn value_in(merged: &Merged) -> Option<&Blob>
    ensures { option_map (λ b. b.now) result ≡ value_of merged.now }
{
    match merged {
        Merged::Keep(value) => value.as_ref(),
        Merged::Conflict => None,
    }
}
