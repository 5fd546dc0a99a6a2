// What the files hold is found damaged here: the ground counts it, where it is found.
ghost use Rattle.std.specs.Prelude.{◌≡◌, IsTrue, IsErrOf};
ghost use Rattle.ip_ground.specs.Counts.{Counts};
ghost use Rattle.ip_ground.specs.Told.{NoFile, ChangesOnly};
ghost use Rattle.ip_space.specs.Faults.{counted_fetch, counted_space};
ghost use Rattle.ip_space.specs.Fetching.{TellsDamage};
ghost use Rattle.ip_space.specs.declared.fault.FetchFault.TheVariants as FetchFault;
ghost use Rattle.ip_space.specs.declared.fault.SpaceFault.TheVariants as SpaceFault;

use crate::{FetchFault, SpaceFault};
use ip_ground::Ground;

/// Notes what was found without a call on the ground, where it is damage. A fault that was handed on was noted already.
pub fn note<A, G: Ground>(outside: &mut G, found: &Result<A, FetchFault>)
    requires { IsErrOf found.now FetchFault.Ground → ⊥ }
    ensures only { IsTrue G.tells → ChangesOnly NoFile (G.told outside.old) (G.told outside.new) }
    ensures counts { Counts counted_fetch found.now (G.counts_of outside.old) (G.counts_of outside.new) }
    ensures spared { (TellsDamage found.now → ⊥) → outside.new ≡ outside.old }
{
    match found {
        Ok(_) => {}
        Err(FetchFault::Ground) => {}
        Err(FetchFault::Form { .. }) => outside.note_damage(),
        Err(FetchFault::Name { .. }) => outside.note_damage(),
        Err(FetchFault::Memory) => {}
    }
}

/// So of the live mapping and prefix.
pub fn note_pair<A, G: Ground>(outside: &mut G, found: &Result<A, SpaceFault>)
    requires { IsErrOf found.now SpaceFault.Ground → ⊥ }
    ensures only { IsTrue G.tells → ChangesOnly NoFile (G.told outside.old) (G.told outside.new) }
    ensures counts { Counts counted_space found.now (G.counts_of outside.old) (G.counts_of outside.new) }
{
    match found {
        Ok(_) => {}
        Err(SpaceFault::Ground) => {}
        Err(SpaceFault::Damaged { .. }) => outside.note_damage(),
        Err(SpaceFault::Memory) => {}
    }
}
