// What a merge asks of rules.
ghost use Rattle.std.specs.Prelude.{Ok, IfOk};
ghost use Rattle.std.specs.Option.{option_copied};
ghost use Rattle.ip_spec.specs.Merge.{Rule, rule_of};
ghost use Rattle.ip_merge.specs.declared.rules.Rule.TheVariants.{Boxed, Closure};
ghost use Rattle.ip_merge.specs.Closures.{closure_means};
ghost use Rattle.ip_merge.specs.Rules.{meanings};

use crate::{Answer, Merged, Rules};
use ip_base::{Memory, Step};
use std::alloc::Global;

/// Whatever answers by a rule at each path. The walk of a merge asks it where both sides changed a value.
pub trait Decides {
    ghost rule: { Self → Rule };

    /// What the rule of the path answers for the ancestor's value and the two sides'.
    fn answer(
        &self,
        alloc: Global,
        path: &[Step],
        base: Option<&[u8]>,
        left: Option<&[u8]>,
        right: Option<&[u8]>,
    ) -> Result<Merged, Memory>
        ensures { IfOk result (λ merged. rule self.now path.now (option_copied base.entry) (option_copied left.entry) (option_copied right.entry) merged) };
}

impl Decides for Rules {
    ghost rule = { λ rules. rule_of (meanings (λ r. r.at) (λ r. elim r.merger [ Boxed b ↦ (Merger-box b).means b.value | Closure call ↦ closure_means (λ three m. Answer.post call.closure three (Ok m)) ]) rules.list.items) };

    fn answer(
        &self,
        alloc: Global,
        path: &[Step],
        base: Option<&[u8]>,
        left: Option<&[u8]>,
        right: Option<&[u8]>,
    ) -> Result<Merged, Memory> {
        self.merge_at(alloc, path, base, left, right)
    }
}
