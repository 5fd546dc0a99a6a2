// A merger of the caller's own.
ghost use Rattle.std.specs.Prelude.{◌≡◌, Ok, IfOk};
ghost use Rattle.std.specs.Option.{option_copied};
ghost use Rattle.ip_merge.specs.Closures.{closure_means};

use crate::Merger;
use crate::values::copied;
use ip_base::{Blob, Memory};
use ip_spec::merge::Merged;
use std::alloc::Global;

/// The values that a merger joins, each absent where it is `None`.
#[derive(Debug, Drop)]
pub struct Three {
    pub base: Option<Blob>,
    pub left: Option<Blob>,
    pub right: Option<Blob>,
}

/// A closure that joins three values.
pub type Answer = Box<dyn Fn(&Three) -> Result<Merged, Memory>>;

/// What the caller's closure answers. It may be called with any three values.
#[derive(Drop)]
pub struct Call {
    pub closure: Answer,
    ghost callable: { Answer.IsAlwaysCallable closure },
}

impl Call {
    /// The merger of a closure that may be called with any three values.
    pub fn new(closure: Answer) -> Self
        requires { Answer.IsAlwaysCallable closure }
        ensures { result.closure ≡ closure }
    {
        Call { closure }
    }
}

impl Merger for Call {
    ghost means = { λ call. closure_means (λ three m. Answer.post call.closure three (Ok m)) };

    fn merge(
        &self,
        alloc: Global,
        base: Option<&[u8]>,
        left: Option<&[u8]>,
        right: Option<&[u8]>,
    ) -> Result<Merged, Memory> {
        let three = Three {
            base: copied(alloc, base)?,
            left: copied(alloc, left)?,
            right: copied(alloc, right)?,
        };
        (self.closure)(&three)
    }
}
