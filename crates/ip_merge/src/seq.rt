// One merger after another.
ghost use Rattle.ip_spec.specs.Merge.{seq_means, IsOneAnswer};

use crate::Merger;
use ip_base::Memory;
use ip_spec::merge::Merged;
use std::alloc::Global;

/// What the first merger answers, or the second where the first conflicts.
#[derive(Drop)]
pub struct Seq<A, B> {
    pub first: A,
    pub second: B,
}

impl<A: Merger, B: Merger> Seq<A, B> {
    /// Where each of the two means one answer for three values, so does the whole.
    pub fn one_answer(&self)
        requires first { IsOneAnswer (A.means self.now.first) }
        requires second { IsOneAnswer (B.means self.now.second) }
        ensures { IsOneAnswer (seq_means (A.means self.now.first) (B.means self.now.second)) }
    {}
}

impl<A: Merger, B: Merger> Merger for Seq<A, B> {
    ghost means = { λ seq. seq_means (A.means seq.first) (B.means seq.second) };

    fn merge(
        &self,
        alloc: Global,
        base: Option<&[u8]>,
        left: Option<&[u8]>,
        right: Option<&[u8]>,
    ) -> Result<Merged, Memory> {
        match self.first.merge(alloc, base, left, right)? {
            Merged::Keep(value) => Ok(Merged::Keep(value)),
            Merged::Conflict => self.second.merge(alloc, base, left, right),
        }
    }
}
