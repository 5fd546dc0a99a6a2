// The rules by which the program merges.
ghost use Rattle.std.specs.Prelude.{◌≡◌, IfOk};
ghost use Rattle.std.specs.Option.{option_copied};
ghost use Rattle.ip_merge.specs.Rules.{IsDecisive};
ghost use Rattle.ip_spec.specs.Path.{is_prefix};
ghost use Rattle.ip_app.specs.Rules.{program_rule, one_step};

use ip_base::{Memory, Step};
use ip_merge::{Counter, Decides, LineSet, Merged, Merger, Same};
use std::alloc::Global;

/// The program's rules of merges: where both sides differ from the ancestor, and from each other, contents at `count` and under it are added up as
/// numbers, and contents at `lines` and under it are joined as sets of lines. Elsewhere they conflict.
#[derive(Clone, Copy, Debug)]
pub struct ProgramRules;

// Whether the path is the one of this step alone, or lies under it.
fn is_under(path: &[Step], step: &[u8]) -> bool
    ensures { result ≡ is_prefix (one_step step.now) path.now }
{
    match path.first() {
        Some(first) => step == first.bytes(),
        None => false,
    }
}

impl Decides for ProgramRules {
    ghost rule = { λ rules. program_rule };

    fn answer(
        &self,
        alloc: Global,
        path: &[Step],
        base: Option<&[u8]>,
        left: Option<&[u8]>,
        right: Option<&[u8]>,
    ) -> Result<Merged, Memory>
        ensures { IfOk result (λ merged. program_rule path.now (option_copied base.entry) (option_copied left.entry) (option_copied right.entry) merged) }
    {
        if is_under(path, b"lines") {
            return LineSet.merge(alloc, base, left, right);
        }
        if is_under(path, b"count") {
            return Counter.merge(alloc, base, left, right);
        }
        Same.merge(alloc, base, left, right)
    }
}

/// The program's rules answer any three values at any path in one way alone, so what `run` says of rules that are decisive holds of the program.
pub fn program_rules_decide()
    ensures { IsDecisive program_rule }
{}
