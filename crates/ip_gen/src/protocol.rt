// The core.
ghost use Rattle.std.specs.Prelude.{◌≡◌, true, false, Ok, OnErr};
ghost use Rattle.ip_spec.specs.Core.{no_core, CoreStep, IsClosed};
ghost use Rattle.ip_spec.specs.declared.event.Event.TheVariants as Event;
ghost use Rattle.ip_gen.specs.Outcome.{IsRefused, TakesMemory};

use crate::append::append;
use crate::phase::Phase;
use crate::search::has_commit;
use crate::sweep::{let_go, reached};
use ip_base::Memory;
use ip_spec::event::{CoreRecord, Event};
use std::alloc::Global;
use std::collections::BTreeSet;
use std::marker::Model;

/// The records of a store with what they refer to, the horizon, and the collection that goes on.
#[derive(Drop)]
pub struct Core {
    alloc: Global,
    records: Vec<CoreRecord>,
    horizon: u64,
    phase: Phase,
}

impl Model for Core {
    ghost use Rattle.ip_spec.specs.Core.{Core as State};

    ghost Value = { State };

    ghost use Rattle.std.specs.Prelude.{◌≤◌};
    ghost use Rattle.ip_base.specs.declared.limit.TheConstants.{OFFSET_MAX};
    ghost use Rattle.ip_spec.specs.Core.{IsClosed, end_of};
    ghost use Rattle.ip_gen.specs.Phases.{phase_of};

    ghost view = { λ c. record { records = c.records.items; horizon = c.horizon; phase = phase_of c.phase } };

    ghost invariant = { λ c. IsClosed (record { records = c.records.items; horizon = c.horizon; phase = phase_of c.phase }) × (end_of c.records.items ≤ OFFSET_MAX) };
}

impl Core {
    /// The core with no records, at horizon 0, with no collection.
    pub fn new(alloc: Global) -> Self
        ensures { result ≡ no_core }
    {
        Core {
            alloc,
            records: Vec::new(alloc),
            horizon: 0,
            phase: Phase::Idle,
        }
    }

    /// Takes an event: false exactly where it is not allowed. Then, and where there is no memory, nothing has changed.
    pub fn step(&mut self, event: &Event) -> Result<bool, Memory>
        ensures taken { result ≡ Ok true → CoreStep self.old event.now self.new }
        ensures refused { result ≡ Ok false → IsRefused self.old event.now }
        ensures unchanged { result ≡ Ok false → self.new ≡ self.old }
        ensures memory { OnErr result (self.new ≡ self.old) }
        ensures only { OnErr result (TakesMemory event.now) }
        ensures closed { IsClosed self.new }
    {
        match event {
            Event::Append(records) => append(
                self.alloc,
                &mut self.records,
                &self.phase,
                records.as_slice(),
            ),
            Event::Start(commit) => self.start(*commit),
            Event::Foreign | Event::Sweep => {
                // Opens the core, so that the proof has its invariant.
                let _ = &self.horizon;
                Ok(true)
            }
            Event::End => Ok(self.end()),
            Event::Accept => Ok(self.accept()),
            Event::Reject => Ok(self.reject()),
            Event::Cancel => Ok(self.cancel()),
            Event::Crash => {
                self.phase = Phase::Idle;
                Ok(true)
            }
        }
    }

    fn start(&mut self, commit: u64) -> Result<bool, Memory>
        ensures taken { result ≡ Ok true → CoreStep self.old (Event.Start commit) self.new }
        ensures refused { result ≡ Ok false → IsRefused self.old (Event.Start commit) }
        ensures unchanged { result ≡ Ok false → self.new ≡ self.old }
        ensures memory { OnErr result (self.new ≡ self.old) }
        ensures closed { IsClosed self.new }
    {
        match self.phase {
            Phase::Idle => {}
            Phase::Collecting(_, _, _) => return Ok(false),
        }
        if commit < self.horizon || !has_commit(&self.records, commit) {
            return Ok(false);
        }
        let kept = reached(self.alloc, &self.records, commit)?;
        self.phase = Phase::Collecting(commit, kept, false);
        Ok(true)
    }

    fn end(&mut self) -> bool
        ensures taken { result ≡ true → CoreStep self.old Event.End self.new }
        ensures refused { result ≡ false → IsRefused self.old Event.End }
        ensures unchanged { result ≡ false → self.new ≡ self.old }
        ensures closed { IsClosed self.new }
    {
        let Phase::Collecting(_, _, ended) = &mut self.phase else {
            return false;
        };
        if *ended {
            return false;
        }
        *ended = true;
        true
    }

    fn accept(&mut self) -> bool
        ensures taken { result ≡ true → CoreStep self.old Event.Accept self.new }
        ensures refused { result ≡ false → IsRefused self.old Event.Accept }
        ensures unchanged { result ≡ false → self.new ≡ self.old }
        ensures closed { IsClosed self.new }
    {
        let Phase::Collecting(commit, kept, ended) = &self.phase else {
            return false;
        };
        if !*ended {
            return false;
        }
        let commit = *commit;
        let_go(&mut self.records, commit, kept);
        self.horizon = commit;
        self.phase = Phase::Idle;
        true
    }

    fn reject(&mut self) -> bool
        ensures taken { result ≡ true → CoreStep self.old Event.Reject self.new }
        ensures refused { result ≡ false → IsRefused self.old Event.Reject }
        ensures unchanged { result ≡ false → self.new ≡ self.old }
        ensures closed { IsClosed self.new }
    {
        let Phase::Collecting(_, _, ended) = &self.phase else {
            return false;
        };
        if !*ended {
            return false;
        }
        self.phase = Phase::Idle;
        true
    }

    fn cancel(&mut self) -> bool
        ensures taken { result ≡ true → CoreStep self.old Event.Cancel self.new }
        ensures refused { result ≡ false → IsRefused self.old Event.Cancel }
        ensures unchanged { result ≡ false → self.new ≡ self.old }
        ensures closed { IsClosed self.new }
    {
        let Phase::Collecting(_, _, _) = &self.phase else {
            return false;
        };
        self.phase = Phase::Idle;
        true
    }
}
