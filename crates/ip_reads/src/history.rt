// What the store tells of history.
ghost use Rattle.std.specs.Prelude.{◌≡◌, map, reverse, All, IsTrue, IfOk};
ghost use Rattle.ip_spec.specs.Repository.{Repository, is_retained, name_at};
ghost use Rattle.ip_spec.specs.History.{ancestors, lcas};
ghost use Rattle.ip_held.specs.Held.{IsOf};

use ip_base::{Hash, Memory, Number};
use ip_held::Held;
use std::alloc::Global;

/// The names of a retained commit and of its ancestors, descending by number.
pub fn log(store: &Held, alloc: Global, number: Number) -> Result<Vec<Hash>, Memory>
    requires { (r : Repository) × IsOf store.now r × IsTrue (is_retained r number) }
    ensures { (r : Repository) → IsOf store.now r → IfOk result (λ names. names.items ≡ map (name_at r) (reverse (ancestors r number))) }
{
    let numbers = store.history.log(alloc, number)?;
    names_at(store, alloc, numbers.as_slice())
}

/// The names of the least common ancestors of two retained commits, ascending by number: the common ancestors that are a proper ancestor
/// of no other one. There may be none, and there may be several.
pub fn lcas(store: &Held, alloc: Global, one: Number, other: Number) -> Result<Vec<Hash>, Memory>
    requires { (r : Repository) × IsOf store.now r × IsTrue (is_retained r one) × IsTrue (is_retained r other) }
    ensures { (r : Repository) → IsOf store.now r → IfOk result (λ names. names.items ≡ map (name_at r) (lcas r one other)) }
{
    let numbers = store.history.lcas(alloc, one, other)?;
    names_at(store, alloc, numbers.as_slice())
}

// The names of retained commits.
fn names_at(store: &Held, alloc: Global, numbers: &[Number]) -> Result<Vec<Hash>, Memory>
    requires { (r : Repository) × IsOf store.now r × All (λ n. IsTrue (is_retained r n)) numbers.now }
    ensures { (r : Repository) → IsOf store.now r → All (λ n. IsTrue (is_retained r n)) numbers.now → IfOk result (λ names. names.items ≡ map (name_at r) numbers.now) }
{
    let mut names = Vec::with_capacity(alloc, numbers.len())?;
    for number in numbers {
        names.push(store.retained_name(*number))?;
    }
    Ok(names)
}
