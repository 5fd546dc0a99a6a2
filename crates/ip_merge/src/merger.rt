// What a merger is.
ghost use Rattle.std.specs.Prelude.{IfOk, Option};
ghost use Rattle.std.specs.Option.{option_copied};
ghost use Rattle.ip_spec.specs.Merge.{Meaning};

use ip_base::Memory;
use ip_spec::merge::Merged;
use std::alloc::Global;

/// A rule by which three values are merged: the ancestor's and the two sides', each absent where it is `None`.
pub trait Merger: Drop {
    ghost means: { Self → Meaning };

    /// The merged value, or none, or a conflict. It is asked where the sides differ and neither is the ancestor's value.
    fn merge(
        &self,
        alloc: Global,
        base: Option<&[u8]>,
        left: Option<&[u8]>,
        right: Option<&[u8]>,
    ) -> Result<Merged, Memory>
        ensures { IfOk result (λ merged. means self.now (option_copied base.entry) (option_copied left.entry) (option_copied right.entry) merged) };
}
