// The commits that a walk down the parents has still to look at.
ghost use Rattle.std.specs.Prelude.{◌≡◌, ℕ, true, false, [], Some, None, IfSome, IfNone, OnOk};
ghost use Rattle.ip_history.specs.Frontier.{at, known, joined, passed, is_least, alive, IsPut, IsTaken, IsSettled};

use ip_base::Memory;
use std::alloc::Global;
use std::collections::BTreeMap;
use std::marker::Model;

/// What the commits that a walk has looked at say of one that it has not.
#[derive(Clone, Copy, Debug, PartialEq)]
pub struct Flags {
    /// It is the one commit, or an ancestor of it.
    pub own: bool,
    /// It is one of the list, or an ancestor of one.
    pub listed: bool,
    /// It is a proper ancestor of a common one, and so is all below it.
    pub stale: bool,
}

impl Flags {
    /// Of the one commit.
    pub fn own() -> Flags
        ensures { result ≡ record { own = true; listed = false; stale = false } }
    {
        Flags {
            own: true,
            listed: false,
            stale: false,
        }
    }

    /// Of one of the list.
    pub fn listed() -> Flags
        ensures { result ≡ record { own = false; listed = true; stale = false } }
    {
        Flags {
            own: false,
            listed: true,
            stale: false,
        }
    }

    /// Whether a commit that is looked at with these is common, and a proper ancestor of no common one.
    pub fn is_least(self) -> bool
        ensures { result ≡ is_least self }
    {
        self.own && self.listed && !self.stale
    }

    /// What a commit's parents get from it.
    pub fn passed(self) -> Flags
        ensures { result ≡ passed self }
    {
        Flags {
            own: self.own,
            listed: self.listed,
            stale: self.own && self.listed,
        }
    }

    // What either says.
    fn join(self, other: Flags) -> Flags
        ensures { result ≡ joined self other }
    {
        Flags {
            own: self.own || other.own,
            listed: self.listed || other.listed,
            stale: self.stale || other.stale,
        }
    }

    // 1 for a commit that may still lead from the one commit to a least common ancestor.
    fn alive_own(self) -> usize
        ensures { result ≡ alive (λ f. f.own) self }
    {
        if self.own && !self.stale { 1 } else { 0 }
    }

    // 1 for a commit that may still lead from the list to a least common ancestor.
    fn alive_listed(self) -> usize
        ensures { result ≡ alive (λ f. f.listed) self }
    {
        if self.listed && !self.stale { 1 } else { 0 }
    }
}

/// Commits by number, each with its flags. The counts are of those with the flag that aren't stale.
#[derive(Drop)]
pub struct Frontier {
    commits: BTreeMap<u64, Flags>,
    own: usize,
    listed: usize,
}

impl Model for Frontier {
    ghost use Rattle.std.specs.Prelude.{◌≡◌};
    ghost use Rattle.std.specs.Ordering.{nat_cmp};
    ghost use Rattle.std.specs.BTreeMap.{IsOrdered};
    ghost use Rattle.ip_history.specs.Frontier.{Commits, alive_of};

    ghost Value = { Commits };

    ghost view = { λ f. f.commits.entries };

    ghost invariant = { λ f. IsOrdered nat_cmp f.commits × (f.own ≡ alive_of (λ f. f.own) f.commits.entries) × (f.listed ≡ alive_of (λ f. f.listed) f.commits.entries) };
}

impl Frontier {
    /// No commit.
    pub fn new(alloc: Global) -> Self
        ensures { result ≡ [] }
    {
        Frontier {
            commits: BTreeMap::new(alloc),
            own: 0,
            listed: 0,
        }
    }

    /// Puts in a commit, or adds to its flags. After an `Err` the walk is to be given up.
    pub fn add(&mut self, number: u64, flags: Flags) -> Result<(), Memory>
        ensures { OnOk result (IsPut self.old self.new number (Some (joined (known (at self.old number)) flags))) }
    {
        let before = self.flags_of(number);
        let after = before.join(flags);
        self.commits.insert(number, after)?;
        // the map's size fits, and so do the counts
        let _ = self.commits.len();
        self.own = self.own + after.alive_own() - before.alive_own();
        self.listed = self.listed + after.alive_listed() - before.alive_listed();
        Ok(())
    }

    /// Takes out the commit with the greatest number.
    pub fn pop(&mut self) -> Option<(u64, Flags)>
        ensures none { IfNone result ((n : ℕ) → at self.old n ≡ None) }
        ensures taken { IfSome result (λ p. IsTaken self.old self.new p.0 p.1) }
    {
        let (number, flags) = self.commits.pop_last()?;
        self.own -= flags.alive_own();
        self.listed -= flags.alive_listed();
        Some((number, flags))
    }

    /// Takes out the commit with the greatest number, while a common ancestor that isn't stale may be left.
    pub fn pop_unsettled(&mut self) -> Option<(u64, Flags)>
        ensures none { IfNone result (IsSettled self.old) }
        ensures taken { IfSome result (λ p. IsTaken self.old self.new p.0 p.1) }
    {
        if self.own == 0 || self.listed == 0 {
            return None;
        }
        self.pop()
    }

    // A commit's flags, of which none is set where it isn't there.
    fn flags_of(&self, number: u64) -> Flags
        ensures { result ≡ known (at self.now number) }
    {
        match self.commits.get(&number) {
            Some(flags) => *flags,
            None => Flags {
                own: false,
                listed: false,
                stale: false,
            },
        }
    }
}
