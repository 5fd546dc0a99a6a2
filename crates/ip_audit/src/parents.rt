// The tests of a commit's parents.
ghost use Rattle.std.specs.Prelude.{◌≡◌, ◌≢◌, ◌⊎◌, ◌≤◌, ◌-◌, ◌<◌, ℕ, IsTrue, IsFalse, All, AllPairs, IfSome, slice_get, slice_index_or, length};
ghost use Rattle.ip_image.specs.Standing.{outside, IsEarlier};
ghost use Rattle.ip_spec.specs.declared.record.Parent.{Parent};

use crate::Names;
use ip_image::terms::Terms;
use ip_spec::record::Parent;

/// Each comes before the commit with this number, or is outside where that is allowed.
pub fn all_earlier(terms: Terms, number: u64, parents: &[Parent]) -> bool
    ensures yes { IsTrue result → All (IsEarlier terms number) parents.now }
    ensures no { IsFalse result → All (IsEarlier terms number) parents.now → ⊥ }
{
    for parent in parents {
        if !is_earlier(terms, number, parent) {
            return false;
        }
    }
    true
}

fn is_earlier(terms: Terms, number: u64, parent: &Parent) -> bool
    ensures yes { IsTrue result → IsEarlier terms number parent.now }
    ensures no { IsFalse result → IsEarlier terms number parent.now → ⊥ }
{
    let own = parent.number.get();
    own < number || (terms.outside_allowed && own == u64::MAX)
}

/// No two have one number, those outside aside.
pub fn all_distinct(parents: &[Parent]) -> bool
    ensures yes { IsTrue result → AllPairs (λ p q. (p.number ≢ q.number) ⊎ (p.number ≡ outside)) parents.now }
    ensures no { IsFalse result → AllPairs (λ p q. (p.number ≢ q.number) ⊎ (p.number ≡ outside)) parents.now → ⊥ }
{
    for at in 0..parents.len() {
        if !is_apart(parents, at) {
            return false;
        }
    }
    true
}

// The parent at the index is outside, or no later one has its number.
fn is_apart(parents: &[Parent], at: usize) -> bool
    requires { at < length parents.now }
    ensures yes { IsTrue result → (j : ℕ) (d : Parent) → at < j → j < length parents.now → ((slice_index_or parents.now at d).number ≢ (slice_index_or parents.now j d).number) ⊎ ((slice_index_or parents.now at d).number ≡ outside) }
    ensures no { IsFalse result → ((j : ℕ) (d : Parent) → at < j → j < length parents.now → ((slice_index_or parents.now at d).number ≢ (slice_index_or parents.now j d).number) ⊎ ((slice_index_or parents.now at d).number ≡ outside)) → ⊥ }
{
    let number = parents[at].number.get();
    if number == u64::MAX {
        return true;
    }
    none_has(parents, at + 1, number)
}

// No parent from the index on has this number.
fn none_has(parents: &[Parent], from: usize, number: u64) -> bool
    ensures yes { IsTrue result → (j : ℕ) (d : Parent) → from ≤ j → j < length parents.now → number ≢ (slice_index_or parents.now j d).number }
    ensures no { IsFalse result → ((j : ℕ) (d : Parent) → from ≤ j → j < length parents.now → number ≢ (slice_index_or parents.now j d).number) → ⊥ }
{
    for j in from..parents.len() {
        if parents[j].number.get() == number {
            return false;
        }
    }
    true
}

/// Each retained one has the stated name.
pub fn all_named(floor: u64, names: &Names, parents: &[Parent]) -> bool
    ensures yes { IsTrue result → All (λ p. floor ≤ p.number → p.number ≢ outside → IfSome (slice_get names.now (p.number - floor)) (λ n. n ≡ p.name)) parents.now }
    ensures no { IsFalse result → All (λ p. floor ≤ p.number → p.number ≢ outside → IfSome (slice_get names.now (p.number - floor)) (λ n. n ≡ p.name)) parents.now → ⊥ }
{
    for parent in parents {
        if !is_named(floor, names, parent) {
            return false;
        }
    }
    true
}

fn is_named(floor: u64, names: &Names, parent: &Parent) -> bool
    ensures yes { IsTrue result → floor ≤ parent.now.number → parent.now.number ≢ outside → IfSome (slice_get names.now (parent.now.number - floor)) (λ n. n ≡ parent.now.name) }
    ensures no { IsFalse result → (floor ≤ parent.now.number → parent.now.number ≢ outside → IfSome (slice_get names.now (parent.now.number - floor)) (λ n. n ≡ parent.now.name)) → ⊥ }
{
    let number = parent.number.get();
    if number < floor || number == u64::MAX {
        return true;
    }
    match names.at((number - floor) as usize) {
        Some(name) => name == parent.name,
        None => true,
    }
}
