// Which merger merges a path.
ghost use Rattle.std.specs.Prelude.{◌≡◌, [], OnOk, OnErr, IfOk, IfErr, MatchOption, ◌<◌, length, slice_index_or, false, All};
ghost use Rattle.ip_spec.specs.Path.{Path, path_cmp};
ghost use Rattle.std.specs.Option.{option_copied};
ghost use Rattle.ip_spec.specs.Merge.{Meaning, rule_of, IsOneAnswer};
ghost use Rattle.ip_merge.specs.declared.rules.Rule.TheVariants.{Boxed, Closure};
ghost use Rattle.ip_merge.specs.Rules.{IsAscending, IsPlace, IsGap, meanings, Picks, PicksNone, has_rule, with_rule, HasOneAnswer, IsDecisive};

use crate::order::compare;
use crate::{Call, Merged, Merger, Same};
use ip_base::{Memory, Path, Step};
use std::alloc::Global;
use std::cmp::Ordering;

/// A merger, or a closure that is one.
#[derive(Drop)]
pub enum Rule {
    Boxed(Box<dyn Merger>),
    Closure(Call),
}

impl Rule {
    /// What its merger answers.
    pub fn merge(
        &self,
        alloc: Global,
        base: Option<&[u8]>,
        left: Option<&[u8]>,
        right: Option<&[u8]>,
    ) -> Result<Merged, Memory>
        ensures { IfOk result (λ merged. (elim self.now as (λ _. Meaning) [ Boxed b ↦ means b | Closure call ↦ ⟦<Call as Merger>⟧.means call ]) (option_copied base.entry) (option_copied left.entry) (option_copied right.entry) merged) }
    {
        match self {
            Rule::Boxed(merger) => merger.merge(alloc, base, left, right),
            Rule::Closure(call) => call.merge(alloc, base, left, right),
        }
    }
}

/// A path, and the merger of what stands at it and under it.
#[derive(Drop)]
pub struct PathRule {
    pub at: Path,
    pub merger: Rule,
}

/// Rules for paths, one for each, ascending by path.
#[derive(Drop)]
pub struct Rules {
    pub list: Vec<PathRule>,
    pub ghost ascending: { IsAscending (λ r. r.at) list.items },
}

impl Rules {
    /// No rules: every path is merged by `Same`.
    pub fn new(alloc: Global) -> Self
        ensures { result.list.items ≡ [] }
    {
        Rules {
            list: Vec::new(alloc),
        }
    }

    /// Paths at and under `at` are merged by this merger, unless a longer path has a rule.
    /// It replaces an earlier rule of the same path, which takes no memory.
    pub fn add(&mut self, at: Path, merger: Box<dyn Merger>) -> Result<(), Memory>
        ensures added { OnOk result (self.new.list.items ≡ with_rule (λ r. r.at) (record { at = at; merger = Boxed merger }) self.old.list.items) }
        ensures refused { OnErr result ((self.new.list.items ≡ self.old.list.items) × (has_rule (λ r. r.at) at self.old.list.items ≡ false)) }
    {
        self.put(PathRule {
            at,
            merger: Rule::Boxed(merger),
        })
    }

    /// The same with a closure.
    pub fn add_call(&mut self, at: Path, call: Call) -> Result<(), Memory>
        ensures added { OnOk result (self.new.list.items ≡ with_rule (λ r. r.at) (record { at = at; merger = Closure call }) self.old.list.items) }
        ensures refused { OnErr result ((self.new.list.items ≡ self.old.list.items) × (has_rule (λ r. r.at) at self.old.list.items ≡ false)) }
    {
        self.put(PathRule {
            at,
            merger: Rule::Closure(call),
        })
    }

    fn put(&mut self, rule: PathRule) -> Result<(), Memory>
        ensures added { OnOk result (self.new.list.items ≡ with_rule (λ r. r.at) rule self.old.list.items) }
        ensures refused { OnErr result ((self.new.list.items ≡ self.old.list.items) × (has_rule (λ r. r.at) rule.at self.old.list.items ≡ false)) }
    {
        match place_of(&self.list, rule.at.steps()) {
            Ok(place) => self.list[place] = rule,
            Err(place) => self.list.insert(place, rule)?,
        }
        Ok(())
    }

    /// The merger whose path is the longest that is `path` or lies above it. `None` where no rule's does.
    pub fn pick(&self, path: &Path) -> Option<&Rule>
        ensures { MatchOption result (PicksNone (λ r. r.at) path.now self.now.list.items) (λ m. (rule : _) × Picks (λ r. r.at) path.now self.now.list.items rule × (rule.merger ≡ m.now)) }
    {
        self.pick_at(path.steps())
    }

    fn pick_at(&self, path: &[Step]) -> Option<&Rule>
        ensures { MatchOption result (PicksNone (λ r. r.at) path.now self.now.list.items) (λ m. (rule : _) × Picks (λ r. r.at) path.now self.now.list.items rule × (rule.merger ≡ m.now)) }
    {
        let rules = self.list.as_slice();
        match longest(rules, path) {
            Some(at) => Some(&rules[at].merger),
            None => None,
        }
    }

    /// Where each merger means one answer for three values, so does the rule of each path.
    pub fn one_answer(&self)
        requires { All (λ r. IsOneAnswer (elim r.merger [ Boxed b ↦ means b | Closure call ↦ ⟦<Call as Merger>⟧.means call ])) self.now.list.items }
        ensures { (p : Path) → IsOneAnswer (rule_of (meanings (λ r. r.at) (λ r. elim r.merger [ Boxed b ↦ means b | Closure call ↦ ⟦<Call as Merger>⟧.means call ]) self.now.list.items) p) }
    {}

    /// Where each merger means exactly one answer for three values, so does the rule of each path.
    pub fn exact_answer(&self)
        requires { All (λ r. HasOneAnswer (elim r.merger [ Boxed b ↦ means b | Closure call ↦ ⟦<Call as Merger>⟧.means call ])) self.now.list.items }
        ensures { IsDecisive (rule_of (meanings (λ r. r.at) (λ r. elim r.merger [ Boxed b ↦ means b | Closure call ↦ ⟦<Call as Merger>⟧.means call ]) self.now.list.items)) }
    {}

    /// What the rule of the path answers.
    pub fn merge_at(
        &self,
        alloc: Global,
        path: &[Step],
        base: Option<&[u8]>,
        left: Option<&[u8]>,
        right: Option<&[u8]>,
    ) -> Result<Merged, Memory>
        ensures { IfOk result (λ merged. rule_of (meanings (λ r. r.at) (λ r. elim r.merger [ Boxed b ↦ means b | Closure call ↦ ⟦<Call as Merger>⟧.means call ]) self.now.list.items) path.now (option_copied base.entry) (option_copied left.entry) (option_copied right.entry) merged) }
    {
        match self.pick_at(path) {
            Some(rule) => rule.merge(alloc, base, left, right),
            None => Same.merge(alloc, base, left, right),
        }
    }
}

// The place of the rule with the longest path that is `path` or lies above it: one look-up for each length.
fn longest(rules: &[PathRule], path: &[Step]) -> Option<usize>
    requires { IsAscending (λ r. r.at) rules.now }
    ensures { MatchOption result (PicksNone (λ r. r.at) path.now rules.now) (λ k. (k < length rules.now) × ((d : _) → Picks (λ r. r.at) path.now rules.now (slice_index_or rules.now k d))) }
{
    for length in (0..=path.len()).rev() {
        if let Ok(place) = place_of(rules, &path[..length]) {
            return Some(place);
        }
    }
    None
}

// The place of the rule for this path itself, or the one where it would stand.
fn place_of(rules: &[PathRule], at: &[Step]) -> Result<usize, usize>
    requires { IsAscending (λ r. r.at) rules.now }
    ensures found { IfOk result (IsPlace (λ r. r.at) at.now rules.now) }
    ensures missing { IfErr result (IsGap (λ r. r.at) at.now rules.now) }
{
    rules.binary_search_by(
        |rule| -> Ordering
            ensures { result ≡ path_cmp rule.now.at at.entry.now }
        { compare(rule.at.steps(), at) },
    )
}
