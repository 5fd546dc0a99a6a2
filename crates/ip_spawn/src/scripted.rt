// A spawner in memory.
ghost use Rattle.std.specs.Prelude.{◌≡◌, ◌<◌, IsSome, vec_len, vec_capacity};

use crate::{Job, Look, SpawnCounts, SpawnFault, Spawner};
use ip_base::{Exit, Reaped};
use ip_ground::Calls;
use std::alloc::{AllocError, Global};

/// How a child goes: it runs for so many looks, and then it has ended so.
#[derive(Clone, Copy, Debug, PartialEq, Eq)]
pub struct Plan {
    /// How many looks say that it runs.
    pub looks: u64,
    /// How it ends, if it is not killed.
    pub exit: Exit,
}

/// How the children go, in the order in which they are started.
pub type Plans = Vec<Plan>;

/// A child that was started: the folder of its store, and its job.
#[derive(Drop)]
pub struct Started {
    /// The folder's name.
    pub dir: String,
    /// What it is to collect.
    pub job: Job,
}

// A child that is held.
#[derive(Clone, Copy, Debug, PartialEq, Eq)]
pub struct Held {
    pub attempt: u64,
    pub plan: Plan,
}

/// Children that go by plans, one for each that was started: the next start takes the next plan. The calls whose
/// numbers are listed fail, and so does a start for which no plan is left; each call but `counts` has a number, counted
/// from 0. A child that is waited for has ended as planned, and one that is killed has ended by a signal. A start alone
/// takes memory, and what its child's end will take too: want of it is a fault. A call that fails changes no plan, and
/// leaves the child that is held as it was, but that one which could not be killed is held no more. A call takes time
/// by the numbers of failing calls.
#[derive(Drop)]
pub struct Scripted {
    alloc: Global,
    plans: Plans,
    fails: Calls,
    calls: u64,
    held: Option<Held>,
    counts: SpawnCounts,
    started: Vec<Started>,
    reaped: Vec<Reaped>,
    ghost room: { IsSome held → vec_len reaped < vec_capacity reaped },
}

impl Scripted {
    ghost use Rattle.std.specs.Prelude.{Some, None, ◌++◌, ◌∷◌, [], map, OnOk, OnErr, true, false};
    ghost use Rattle.ip_spawn.specs.Children.{blank};
    ghost use Rattle.ip_spawn.specs.Counts.{Counts, counted};
    ghost use Rattle.ip_spawn.specs.Scripting.{start_of, fails_next};
    ghost use Rattle.ip_spawn.specs.declared.spawner.SpawnCounts.{SpawnCounts};

    /// A spawner that goes by these plans and failing calls: it holds no child, and has started none.
    pub fn new(alloc: Global, plans: Plans, fails: Calls) -> Scripted
        ensures held { ⟦<Scripted as Spawner>⟧.held result ≡ None }
        ensures told { ⟦<Scripted as Spawner>⟧.told result ≡ blank }
        ensures counts { ⟦<Scripted as Spawner>⟧.counts_of result ≡ record { running = 0; waits = 0; reaps = 0; spawn_faults = 0 } }
        ensures script { (result.plans ≡ plans) × (result.fails ≡ fails) × (result.calls ≡ 0) }
    {
        Scripted {
            alloc,
            plans,
            fails,
            calls: 0,
            held: None,
            counts: SpawnCounts {
                running: 0,
                waits: 0,
                reaps: 0,
                spawn_faults: 0,
            },
            started: Vec::new(alloc),
            reaped: Vec::new(alloc),
        }
    }

    /// The children that were started, in order.
    pub fn started(&self) -> &[Started]
        ensures { map start_of result.now ≡ (⟦<Scripted as Spawner>⟧.told self.now).started }
    {
        self.started.as_slice()
    }

    /// How each child ended that was reaped, in order.
    pub fn reaped(&self) -> &[Reaped]
        ensures { result.now ≡ (⟦<Scripted as Spawner>⟧.told self.now).reaped }
    {
        self.reaped.as_slice()
    }

    // Begins a call, and says whether it fails.
    fn fails_now(&mut self) -> bool
        ensures fails { result ≡ fails_next self.old }
        ensures calls { self.new ≡ record self.old { calls = counted true self.old.calls } }
    {
        let call = self.calls;
        self.calls = call.saturating_add(1);
        self.fails.contains(&call)
    }

    // Keeps what is started now, its folder's name as a copy, and room for how it will end. If that can't be kept,
    // nothing has changed.
    fn note(&mut self, dir: &str, job: &Job) -> Result<(), AllocError>
        ensures plans { (self.new.plans ≡ self.old.plans) × (self.new.fails ≡ self.old.fails) × (self.new.calls ≡ self.old.calls) }
        ensures held { (self.new.held ≡ self.old.held) × (self.new.counts ≡ self.old.counts) }
        ensures room { OnOk result (vec_len self.new.reaped < vec_capacity self.new.reaped) }
        ensures ends { self.new.reaped.items ≡ self.old.reaped.items }
        ensures noted { OnOk result (map start_of self.new.started.items ≡ map start_of self.old.started.items ++ record { dir = dir.now; job = job.now } ∷ []) }
        ensures same { OnErr result (self.new.started.items ≡ self.old.started.items) }
    {
        self.reaped.reserve(1)?;
        let dir = String::from_str(self.alloc, dir)?;
        let started = Started { dir, job: *job };
        if self.started.push(started).is_err() {
            return Err(AllocError);
        }
        Ok(())
    }

    // Counts a fault.
    fn fault(&mut self) -> SpawnFault
        ensures only { self.new ≡ record self.old { counts = self.new.counts } }
        ensures counts { Counts false false false true self.old.counts self.new.counts }
    {
        self.counts.spawn_faults = self.counts.spawn_faults.saturating_add(1);
        SpawnFault
    }

    // The child that is held has ended so, and is held no more.
    fn reap(&mut self, held: Held, exit: Exit) -> Reaped
        requires { self.old.held ≡ Some held }
        ensures attempt { result.attempt ≡ held.attempt }
        ensures exit { result.exit ≡ exit }
        ensures held { self.new.held ≡ None }
        ensures only { self.new ≡ record self.old { held = self.new.held; counts = self.new.counts; reaped = self.new.reaped; room = self.new.room } }
        ensures noted { self.new.reaped.items ≡ self.old.reaped.items ++ result ∷ [] }
        ensures counts { Counts false false true false self.old.counts self.new.counts }
    {
        let reaped = Reaped {
            attempt: held.attempt,
            exit,
        };
        let Ok(()) = self.reaped.push(reaped) else {
            unreachable!()
        };
        self.counts.reaps = self.counts.reaps.saturating_add(1);
        self.held = None;
        reaped
    }
}

impl Spawner for Scripted {
    ghost use Rattle.std.specs.Prelude.{true, false, ℕ, ◌↔◌, Some, None, IsTrue, IsFalse, IsErr, IfSome, IfOk, OnOk, OnErr, is_some, is_ok, is_err};
    ghost use Rattle.ip_base.specs.declared.exit.Exit.TheVariants.{Signal};
    ghost use Rattle.ip_spawn.specs.Children.{held_after_start, told_after_start, end_seen, end_reaped, is_running, held_after, told_after};
    ghost use Rattle.ip_spawn.specs.Counts.{Counts};
    ghost use Rattle.ip_spawn.specs.Scripting.{held_of, told_of, fails_next, GoesOn, next_held, LooksBy};
    ghost use Rattle.ip_spawn.specs.declared.scripted.Held.{Held};

    ghost tells = { true };

    ghost told = { told_of };

    ghost held = { held_of };

    ghost counts_of = { λ s. s.counts };

    fn start(&mut self, dir: &str, job: &Job) -> Result<(), SpawnFault>
        requires { held_of self.old ≡ None }
        ensures held { held_of self.new ≡ held_after_start job.now result }
        ensures told { told_of self.new ≡ told_after_start dir.now job.now result (told_of self.old) }
        ensures counts { Counts false false false (is_err result) self.old.counts self.new.counts }
        ensures planned { OnOk result (self.new.held ≡ next_held self.old job.now) }
        ensures fails { IsTrue (fails_next self.old) → IsErr result }
        ensures goes { GoesOn self.old self.new }
    {
        if self.fails_now() {
            return Err(self.fault());
        }
        let Some(plan) = self.plans.get(self.started.len()) else {
            return Err(self.fault());
        };
        let held = Held {
            attempt: job.attempt,
            plan: *plan,
        };
        if self.note(dir, job).is_err() {
            return Err(self.fault());
        }
        self.held = Some(held);
        Ok(())
    }

    fn look(&mut self) -> Result<Look, SpawnFault>
        requires { IsSome (held_of self.old) }
        ensures attempt { IfSome (end_seen result) (λ reaped. held_of self.old ≡ Some reaped.attempt) }
        ensures held { held_of self.new ≡ held_after (end_seen result) (held_of self.old) }
        ensures told { told_of self.new ≡ told_after (end_seen result) (told_of self.old) }
        ensures counts { Counts (is_running result) false (is_some (end_seen result)) (is_err result) self.old.counts self.new.counts }
        ensures runs { (h : Held) → self.old.held ≡ Some h → (IsTrue (is_running result) ↔ (0 < h.plan.looks) × IsFalse (fails_next self.old)) }
        ensures planned { (h : Held) → self.old.held ≡ Some h → LooksBy h result self.new.held }
        ensures fails { IsErr result ↔ IsTrue (fails_next self.old) }
        ensures goes { GoesOn self.old self.new }
    {
        let Some(held) = self.held else {
            unreachable!()
        };
        if self.fails_now() {
            return Err(self.fault());
        }
        if held.plan.looks == 0 {
            return Ok(Look::Ended(self.reap(held, held.plan.exit)));
        }
        let plan = Plan {
            looks: held.plan.looks - 1,
            exit: held.plan.exit,
        };
        self.held = Some(Held {
            attempt: held.attempt,
            plan,
        });
        self.counts.running = self.counts.running.saturating_add(1);
        Ok(Look::Running)
    }

    fn wait(&mut self) -> Result<Reaped, SpawnFault>
        requires { IsSome (held_of self.old) }
        ensures attempt { IfSome (end_reaped result) (λ reaped. held_of self.old ≡ Some reaped.attempt) }
        ensures held { held_of self.new ≡ held_after (end_reaped result) (held_of self.old) }
        ensures told { told_of self.new ≡ told_after (end_reaped result) (told_of self.old) }
        ensures counts { Counts false true (is_ok result) (is_err result) self.old.counts self.new.counts }
        ensures planned { (h : Held) → self.old.held ≡ Some h → IfOk result (λ reaped. reaped.exit ≡ h.plan.exit) }
        ensures stays { OnErr result (self.new.held ≡ self.old.held) }
        ensures fails { IsErr result ↔ IsTrue (fails_next self.old) }
        ensures goes { GoesOn self.old self.new }
    {
        let Some(held) = self.held else {
            unreachable!()
        };
        self.counts.waits = self.counts.waits.saturating_add(1);
        if self.fails_now() {
            return Err(self.fault());
        }
        Ok(self.reap(held, held.plan.exit))
    }

    fn kill(&mut self) -> Result<Reaped, SpawnFault>
        requires { IsSome (held_of self.old) }
        ensures attempt { IfSome (end_reaped result) (λ reaped. held_of self.old ≡ Some reaped.attempt) }
        ensures held { held_of self.new ≡ None }
        ensures told { told_of self.new ≡ told_after (end_reaped result) (told_of self.old) }
        ensures counts { Counts false false (is_ok result) (is_err result) self.old.counts self.new.counts }
        ensures signal { IfOk result (λ reaped. reaped.exit ≡ Signal) }
        ensures fails { IsErr result ↔ IsTrue (fails_next self.old) }
        ensures goes { GoesOn self.old self.new }
    {
        let Some(held) = self.held else {
            unreachable!()
        };
        if self.fails_now() {
            let _ = self.held.take();
            return Err(self.fault());
        }
        Ok(self.reap(held, Exit::Signal))
    }

    fn counts(&self) -> SpawnCounts {
        self.counts
    }
}
