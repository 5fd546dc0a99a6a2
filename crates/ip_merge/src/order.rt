// The order of paths.
ghost use Rattle.std.specs.Prelude.{◌≡◌};
ghost use Rattle.ip_spec.specs.Path.{path_cmp};

use ip_base::Step;
use std::cmp::Ordering;

// By steps, a step by its bytes, a path before its extensions.
pub(crate) fn compare(path: &[Step], other: &[Step]) -> Ordering
    ensures { result ≡ path_cmp path.now other.now }
{
    path.iter()
        .map(|step| step.bytes())
        .cmp(other.iter().map(|step| step.bytes()))
}
