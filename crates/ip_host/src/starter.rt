// What of the system a child's process needs: one is started, looked for, waited for and ended here and nowhere else in
// this crate, each by the fewest lines, since no clause of the system's calls says what they do.
ghost use Rattle.std.specs.Prelude.{◌≡◌, ℕ, List, None, Some, IfOk, false, string_bytes};
ghost use Rattle.std.specs.Process.{command_program, command_args, command_dir, command_var, clears_env, exit_code};
ghost use Rattle.ip_host.specs.Children.{child_words, exit_by, exit_told};

use crate::names::path_of;
use crate::plain::{is_alone, looked_at};
use ip_base::{Exit, Reaped};
use ip_ground::FileName;
use ip_spawn::Job;
use std::alloc::Global;
use std::fs::Files;
use std::io;
use std::process::{Child, Command, ExitStatus, Processes, Stdio, SystemProcess};

/// A child that was started. Only `Starter::spawn` makes one.
#[derive(Drop)]
pub struct Held {
    job: Job,
    child: Child,
    // where its done file stands, once it is through
    done: String,
    // it was sent the signal that ends it, or had ended before
    is_signalled: bool,
}

impl Held {
    ghost use Rattle.std.specs.Prelude.{OnOk, IsTrue};

    /// Waits until it has ended, and says how.
    pub fn wait(&mut self) -> io::Result<Reaped>
        ensures exit { IfOk result (λ reaped. exit_told self.new.child ≡ Some reaped.exit) }
        ensures attempt { IfOk result (λ reaped. reaped.attempt ≡ self.old.job.attempt) }
        ensures same { self.new ≡ record self.old { child = self.new.child } }
    {
        let status = self.child.wait()?;
        Ok(Reaped {
            attempt: self.job.attempt,
            exit: exit_of(status),
        })
    }

    // Sends it the signal that it cannot catch; no other function does, and none else says that it was sent. It is looked
    // at before: one that others have waited for gets no signal, since its number may be another's by now.
    fn signal(&mut self) -> io::Result<()>
        ensures signalled { OnOk result (IsTrue self.new.is_signalled) }
        ensures same { self.new ≡ record self.old { child = self.new.child; is_signalled = self.new.is_signalled } }
    {
        self.child.try_wait()?;
        self.child.kill()?;
        self.is_signalled = true;
        Ok(())
    }

    /// Ends it, and says how it ended.
    pub fn end(&mut self) -> io::Result<Reaped>
        ensures exit { IfOk result (λ reaped. exit_told self.new.child ≡ Some reaped.exit) }
        ensures attempt { IfOk result (λ reaped. reaped.attempt ≡ self.old.job.attempt) }
        ensures signalled { IfOk result (λ _. IsTrue self.new.is_signalled) }
        ensures job { self.new.job ≡ self.old.job }
    {
        self.signal()?;
        self.wait()
    }
}

/// Starts children by one program.
#[derive(Drop)]
pub struct Starter<R: Processes<Started = SystemProcess> + Files + Drop> {
    rt: R,
    alloc: Global,
    program: String,
    // how many children the system was asked for
    starts: u64,
    // how many of them were started
    made: u64,
}

impl<R: Processes<Started = SystemProcess> + Files + Drop> Starter<R> {
    ghost use Rattle.std.specs.Prelude.{is_ok};
    ghost use Rattle.ip_spawn.specs.Counts.{counted};
    ghost use Rattle.ip_host.specs.Started.{IsFor, StartsOne};

    pub fn new(rt: R, alloc: Global, program: String) -> Starter<R>
        ensures { result.program ≡ program }
    {
        Starter {
            rt,
            alloc,
            program,
            starts: 0,
            made: 0,
        }
    }

    /// The program that is started.
    pub fn program(&self) -> &str
        ensures { result.now ≡ string_bytes self.now.program }
    {
        self.program.as_str()
    }

    /// Starts a child by this command, which has to be the one for this folder and job. Its input is empty, and what it
    /// writes is dropped. No other function asks the system for one.
    pub fn spawn(&mut self, command: &Command, dir: &str, job: &Job) -> io::Result<Held>
        requires program { command_program command.now ≡ string_bytes self.old.program }
        requires words { command_args command.now ≡ child_words dir.now job.now }
        requires place { command_dir command.now ≡ None }
        // no variable is set, and none removed
        requires inherits { clears_env command.now ≡ false }
        requires vars { (name : List ℕ) → command_var command.now name ≡ None }
        ensures child { IfOk result (IsFor dir.now job.now) }
        ensures one { StartsOne (is_ok result) self.old.starts self.new.starts }
        ensures made { self.new.made ≡ counted (is_ok result) self.old.made }
        ensures same { self.new ≡ record self.old { starts = self.new.starts; made = self.new.made } }
    {
        let done = path_of(self.alloc, dir, FileName::Done(job.attempt))?;
        let none = Stdio::null();
        self.starts = self.starts.saturating_add(1);
        let child = self.rt.spawn(command, &none, &none, &none)?;
        self.made = self.made.saturating_add(1);
        Ok(Held {
            job: *job,
            child,
            done,
            is_signalled: false,
        })
    }

    /// Whether a plain file with one name stands in the place of this child's done file.
    pub fn is_through(&self, held: &Held) -> io::Result<bool> {
        match looked_at(&self.rt, held.done.as_str())? {
            Some(found) => Ok(is_alone(&found)),
            None => Ok(false),
        }
    }
}

// How a child ended, by its status.
fn exit_of(status: ExitStatus) -> Exit
    ensures { result ≡ exit_by (exit_code status) }
{
    match status.code() {
        Some(code) => Exit::Code(code),
        None => Exit::Signal,
    }
}
