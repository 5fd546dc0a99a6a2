// The phase of a collection.
ghost use Rattle.std.specs.Prelude.{◌↔◌, IsTrue};
ghost use Rattle.ip_spec.specs.Core.{Stays};
ghost use Rattle.ip_gen.specs.Phases.{phase_of};

use std::collections::BTreeSet;

#[derive(Drop)]
pub(crate) enum Phase {
    Idle,
    /// With the offset of the commit, the offsets below it that are kept, and whether the child has ended.
    Collecting(u64, BTreeSet<u64>, bool),
}

impl Phase {
    /// Whether a new record may refer to an offset.
    pub(crate) fn keeps(&self, at: u64) -> bool
        ensures { IsTrue result ↔ Stays (phase_of self.now) at }
    {
        match self {
            Phase::Idle => true,
            Phase::Collecting(commit, kept, _) => *commit <= at || kept.contains(&at),
        }
    }
}
