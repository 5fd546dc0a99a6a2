// Values of an ancestor or a side, each absent where it is `None`.
ghost use Rattle.std.specs.Prelude.{◌≡◌, IfOk};
ghost use Rattle.std.specs.Option.{option_copied};
ghost use Rattle.ip_spec.specs.Merge.{same_value};

use ip_base::{Blob, Memory};
use std::alloc::Global;

pub(crate) fn copied(alloc: Global, value: Option<&[u8]>) -> Result<Option<Blob>, Memory>
    ensures { IfOk result (λ copy. copy ≡ option_copied value.entry) }
{
    match value {
        Some(bytes) => Ok(Some(Blob::copy_of(alloc, bytes)?)),
        None => Ok(None),
    }
}

pub(crate) fn is_same(left: Option<&[u8]>, right: Option<&[u8]>) -> bool
    ensures { result ≡ same_value (option_copied left.entry) (option_copied right.entry) }
{
    match (left, right) {
        (Some(a), Some(b)) => a == b,
        (None, None) => true,
        _ => false,
    }
}
