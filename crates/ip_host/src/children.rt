// Real children.
ghost use Rattle.std.specs.Prelude.{◌≡◌, ℕ, List, None, Some, IfOk, OnErr, false, string_bytes};
ghost use Rattle.std.specs.Process.{command_program, command_args, command_dir, command_var, clears_env};
ghost use Rattle.ip_host.specs.Children.{child_words, folder_word};

use crate::causes::{Cause, Subject};
use crate::starter::{Held, Starter};
use ip_base::Reaped;
use ip_spawn::{Job, Look, SpawnCounts, SpawnFault, Spawner};
use std::alloc::{AllocError, Global};
use std::fs::Files;
use std::io;
use std::process::{Command, Processes, SystemProcess};

/// Children that are processes of the system, each started as `PROGRAM worker DIR J1 .. J8`: the folder, and the job's
/// numbers in decimal, in the order of its fields. Its input is empty, and what it writes to its outputs is dropped. It
/// runs where this process runs, with the same environment, and has no file of this process.
///
/// A look says that the child runs while no plain file with one name stands under the name of its attempt's done file,
/// and waits for it otherwise. So one that ended without that file is met by a wait or a kill. A child that is ended is ended by a signal that it cannot catch.
/// A fault is a call of the system that failed, or want of memory, which a start alone takes. Where others wait for the
/// child (the system does, in a process that ignores SIGCHLD) no call can say how it ended, and each is a fault. A drop
/// neither waits for the child that is held nor ends it.
#[derive(Drop)]
pub struct Children<R: Processes<Started = SystemProcess> + Files + Drop> {
    alloc: Global,
    starter: Starter<R>,
    held: Option<Held>,
    // the one that was waited for last
    ended: Option<Held>,
    counts: SpawnCounts,
    // of the first child that could not be started
    cause: Option<Cause>,
}

impl<R: Processes<Started = SystemProcess> + Files + Drop> Children<R> {
    ghost use Rattle.std.specs.Prelude.{IsSome, IsTrue, IfSome, is_ok, is_err, true};
    ghost use Rattle.ip_spawn.specs.Children.{end_reaped, held_after};
    ghost use Rattle.ip_spawn.specs.Counts.{Counts, counted};
    ghost use Rattle.ip_spawn.specs.declared.spawner.SpawnCounts.{SpawnCounts};
    ghost use Rattle.ip_host.specs.Started.{IsFor, StartsOne, HasEnded, was_signalled};

    /// No child yet, and no fault. A program without a slash in its name is looked for in the search path.
    pub fn new(rt: R, alloc: Global, program: String) -> Children<R>
        ensures held { ⟦<Children<R> as Spawner>⟧.held result ≡ None }
        ensures counts { ⟦<Children<R> as Spawner>⟧.counts_of result ≡ record { running = 0; waits = 0; reaps = 0; spawn_faults = 0 } }
        ensures program { result.starter.program ≡ program }
    {
        Children {
            alloc,
            starter: Starter::new(rt, alloc, program),
            held: None,
            ended: None,
            counts: SpawnCounts {
                running: 0,
                waits: 0,
                reaps: 0,
                spawn_faults: 0,
            },
            cause: None,
        }
    }

    /// Why a child could not be started, of the first such one.
    pub fn cause(&self) -> Option<Cause> {
        self.cause
    }

    // Keeps the first cause.
    fn keep(&mut self, error: &io::Error)
        ensures { self.new ≡ record self.old { cause = self.new.cause } }
    {
        if self.cause.is_none() {
            self.cause = Some(Cause::of("start", Subject::Child, error));
        }
    }

    // Starts the program with the child's words, once.
    fn begin(&mut self, dir: &str, job: &Job) -> io::Result<Held>
        ensures child { IfOk result (IsFor dir.now job.now) }
        ensures one { StartsOne (is_ok result) self.old.starter.starts self.new.starter.starts }
        ensures made { self.new.starter.made ≡ counted (is_ok result) self.old.starter.made }
        ensures program { self.new.starter.program ≡ self.old.starter.program }
        ensures only { self.new ≡ record self.old { starter = self.new.starter } }
    {
        let command = command_of(self.alloc, self.starter.program(), dir, job)?;
        self.starter.spawn(&command, dir, job)
    }

    // Counts a fault.
    fn fault(&mut self) -> SpawnFault
        ensures only { self.new ≡ record self.old { counts = self.new.counts } }
        ensures counts { Counts false false false true self.old.counts self.new.counts }
    {
        self.counts.spawn_faults = self.counts.spawn_faults.saturating_add(1);
        SpawnFault
    }

    // Counts that the child which was ended was waited for, the last one of which that is so now.
    fn count_ended(&mut self, child: Held)
        requires { IsTrue child.is_signalled }
        ensures only { self.new ≡ record self.old { counts = self.new.counts; ended = Some child } }
        ensures counts { Counts false false true false self.old.counts self.new.counts }
    {
        self.counts.reaps = self.counts.reaps.saturating_add(1);
        self.ended = Some(child);
    }

    // Waits for the child that is held, which is held no more once it has ended.
    fn reap(&mut self) -> Result<Reaped, SpawnFault>
        requires { IsSome (⟦<Children<R> as Spawner>⟧.held self.old) }
        ensures attempt { IfOk result (λ reaped. ⟦<Children<R> as Spawner>⟧.held self.old ≡ Some reaped.attempt) }
        ensures held { ⟦<Children<R> as Spawner>⟧.held self.new ≡ held_after (end_reaped result) (⟦<Children<R> as Spawner>⟧.held self.old) }
        ensures counts { Counts false false (is_ok result) (is_err result) self.old.counts self.new.counts }
        ensures ended { IfSome (end_reaped result) (HasEnded self.old.held self.new.ended) }
        ensures unsignalled { IfOk result (λ _. was_signalled self.new.ended ≡ was_signalled self.old.held) }
        ensures stays { OnErr result (was_signalled self.new.held ≡ was_signalled self.old.held) }
        ensures starter { self.new.starter ≡ self.old.starter }
    {
        let Some(mut held) = self.held.take() else {
            unreachable!()
        };
        let Ok(reaped) = held.wait() else {
            self.held = Some(held);
            return Err(self.fault());
        };
        self.counts.reaps = self.counts.reaps.saturating_add(1);
        self.ended = Some(held);
        Ok(reaped)
    }
}

impl<R: Processes<Started = SystemProcess> + Files + Drop> Spawner for Children<R> {
    ghost use Rattle.std.specs.Prelude.{true, option_map, IsTrue, IsSome, IsSomeAnd, IfSome, IfNone, OnOk, is_some, is_ok, is_err};
    ghost use Rattle.ip_spawn.specs.Children.{blank, held_after_start, told_after_start, end_seen, end_reaped, is_running, held_after, told_after};
    ghost use Rattle.ip_spawn.specs.Counts.{Counts, counted};
    ghost use Rattle.ip_host.specs.Started.{IsFor, StartsOne, HasEnded, was_signalled};

    ghost tells = { false };

    ghost told = { λ _. blank };

    ghost held = { λ children. option_map (λ held. held.job.attempt) children.held };

    ghost counts_of = { λ children. children.counts };

    // The trait's clauses, and that the child is the one for this folder and job, no other was started, none where the
    // answer is a fault, and the program stays the one that was named.
    fn start(&mut self, dir: &str, job: &Job) -> Result<(), SpawnFault>
        requires { ⟦<Children<R> as Spawner>⟧.held self.old ≡ None }
        ensures held { ⟦<Children<R> as Spawner>⟧.held self.new ≡ held_after_start job.now result }
        ensures told { IsTrue ⟦<Children<R> as Spawner>⟧.tells → ⟦<Children<R> as Spawner>⟧.told self.new ≡ told_after_start dir.now job.now result (⟦<Children<R> as Spawner>⟧.told self.old) }
        ensures counts { Counts false false false (is_err result) self.old.counts self.new.counts }
        ensures child { OnOk result (IfSome self.new.held (IsFor dir.now job.now)) }
        ensures one { StartsOne (is_ok result) self.old.starter.starts self.new.starter.starts }
        ensures made { self.new.starter.made ≡ counted (is_ok result) self.old.starter.made }
        ensures program { self.new.starter.program ≡ self.old.starter.program }
    {
        match self.begin(dir, job) {
            Ok(held) => {
                self.held = Some(held);
                Ok(())
            }
            Err(error) => {
                self.keep(&error);
                Err(self.fault())
            }
        }
    }

    // Here and below: the trait's clauses, that an end which is told is that of the child that was held, whether this was
    // sent the signal, and that none was started and the program stays.
    fn look(&mut self) -> Result<Look, SpawnFault>
        requires { IsSome (⟦<Children<R> as Spawner>⟧.held self.old) }
        ensures attempt { IfSome (end_seen result) (λ reaped. ⟦<Children<R> as Spawner>⟧.held self.old ≡ Some reaped.attempt) }
        ensures held { ⟦<Children<R> as Spawner>⟧.held self.new ≡ held_after (end_seen result) (⟦<Children<R> as Spawner>⟧.held self.old) }
        ensures told { IsTrue ⟦<Children<R> as Spawner>⟧.tells → ⟦<Children<R> as Spawner>⟧.told self.new ≡ told_after (end_seen result) (⟦<Children<R> as Spawner>⟧.told self.old) }
        ensures counts { Counts (is_running result) false (is_some (end_seen result)) (is_err result) self.old.counts self.new.counts }
        ensures ended { IfSome (end_seen result) (HasEnded self.old.held self.new.ended) }
        ensures unsignalled { IfSome (end_seen result) (λ _. was_signalled self.new.ended ≡ was_signalled self.old.held) }
        ensures stays { IfNone (end_seen result) (was_signalled self.new.held ≡ was_signalled self.old.held) }
        ensures starter { self.new.starter ≡ self.old.starter }
    {
        let Some(held) = &self.held else {
            unreachable!()
        };
        match self.starter.is_through(held) {
            Ok(true) => self.reap().map(Look::Ended),
            Ok(false) => {
                self.counts.running = self.counts.running.saturating_add(1);
                Ok(Look::Running)
            }
            Err(_) => Err(self.fault()),
        }
    }

    fn wait(&mut self) -> Result<Reaped, SpawnFault>
        requires { IsSome (⟦<Children<R> as Spawner>⟧.held self.old) }
        ensures attempt { IfSome (end_reaped result) (λ reaped. ⟦<Children<R> as Spawner>⟧.held self.old ≡ Some reaped.attempt) }
        ensures held { ⟦<Children<R> as Spawner>⟧.held self.new ≡ held_after (end_reaped result) (⟦<Children<R> as Spawner>⟧.held self.old) }
        ensures told { IsTrue ⟦<Children<R> as Spawner>⟧.tells → ⟦<Children<R> as Spawner>⟧.told self.new ≡ told_after (end_reaped result) (⟦<Children<R> as Spawner>⟧.told self.old) }
        ensures counts { Counts false true (is_ok result) (is_err result) self.old.counts self.new.counts }
        ensures ended { IfSome (end_reaped result) (HasEnded self.old.held self.new.ended) }
        ensures unsignalled { IfOk result (λ _. was_signalled self.new.ended ≡ was_signalled self.old.held) }
        ensures stays { OnErr result (was_signalled self.new.held ≡ was_signalled self.old.held) }
        ensures starter { self.new.starter ≡ self.old.starter }
    {
        self.counts.waits = self.counts.waits.saturating_add(1);
        self.reap()
    }

    fn kill(&mut self) -> Result<Reaped, SpawnFault>
        requires { IsSome (⟦<Children<R> as Spawner>⟧.held self.old) }
        ensures attempt { IfSome (end_reaped result) (λ reaped. ⟦<Children<R> as Spawner>⟧.held self.old ≡ Some reaped.attempt) }
        ensures held { ⟦<Children<R> as Spawner>⟧.held self.new ≡ None }
        ensures told { IsTrue ⟦<Children<R> as Spawner>⟧.tells → ⟦<Children<R> as Spawner>⟧.told self.new ≡ told_after (end_reaped result) (⟦<Children<R> as Spawner>⟧.told self.old) }
        ensures counts { Counts false false (is_ok result) (is_err result) self.old.counts self.new.counts }
        ensures ended { IfSome (end_reaped result) (HasEnded self.old.held self.new.ended) }
        ensures signalled { IfOk result (λ _. was_signalled self.new.ended ≡ Some true) }
        ensures starter { self.new.starter ≡ self.old.starter }
    {
        let Some(mut held) = self.held.take() else {
            unreachable!()
        };
        let Ok(reaped) = held.end() else {
            return Err(self.fault());
        };
        self.count_ended(held);
        Ok(reaped)
    }

    fn counts(&self) -> SpawnCounts {
        self.counts
    }
}

// The program with a child's words. It runs where this process does, so the folder's name means the same to it.
fn command_of(alloc: Global, program: &str, dir: &str, job: &Job) -> Result<Command, AllocError>
    ensures program { IfOk result (λ command. command_program command ≡ program.now) }
    ensures words { IfOk result (λ command. command_args command ≡ child_words dir.now job.now) }
    ensures place { IfOk result (λ command. command_dir command ≡ None) }
    ensures inherits { IfOk result (λ command. clears_env command ≡ false) }
    ensures vars { IfOk result (λ command. (name : List ℕ) → command_var command name ≡ None) }
{
    let mut command = Command::new(alloc, program)?;
    let folder = folder_word(alloc, dir)?;
    command.arg("worker")?.arg(folder.as_str())?;
    for number in job.numbers() {
        let word = format!(in alloc; "{number}")?;
        command.arg(word.as_str())?;
    }
    Ok(command)
}

// The folder as a word of the child. One that begins with a dash would be read as an option.
fn folder_word(alloc: Global, dir: &str) -> Result<String, AllocError>
    ensures { IfOk result (λ word. string_bytes word ≡ folder_word dir.now) }
{
    match dir.as_bytes() {
        [b'-', ..] => format!(in alloc; "./{dir}"),
        _ => String::from_str(alloc, dir),
    }
}
