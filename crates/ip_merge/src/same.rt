// The rule of equal sides.
ghost use Rattle.std.specs.Option.{option_copied};
ghost use Rattle.ip_spec.specs.Merge.{same_means, same_merger};
ghost use Rattle.ip_merge.specs.Answering.{Answers};

use crate::Merger;
use crate::values::{copied, is_same};
use ip_base::Memory;
use ip_spec::merge::Merged;
use std::alloc::Global;

/// Equal sides merge to their value. Sides that differ conflict.
#[derive(Clone, Copy, Debug)]
pub struct Same;

impl Merger for Same {
    ghost means = { λ same. same_means };

    fn merge(
        &self,
        alloc: Global,
        _base: Option<&[u8]>,
        left: Option<&[u8]>,
        right: Option<&[u8]>,
    ) -> Result<Merged, Memory>
        ensures { Answers (same_merger (option_copied _base.entry) (option_copied left.entry) (option_copied right.entry)) result }
    {
        if !is_same(left, right) {
            return Ok(Merged::Conflict);
        }
        match copied(alloc, left) {
            Ok(value) => Ok(Merged::Keep(value)),
            Err(memory) => Err(memory),
        }
    }
}
