// A real folder and standard output.
ghost use Rattle.std.specs.Prelude.{◌≡◌};
ghost use Rattle.ip_ground.specs.Counts.{FileFault, RemoveFault, SayFault, noting};
ghost use Rattle.ip_host.specs.Opened.{bound_of, lock_of};

use crate::causes::{Cause, Subject};
use crate::files::FolderFiles;
use ip_base::{Exit, Reaped};
use ip_ground::{AskedFolders, FileName, FolderName, Ground, GroundCounts, GroundFault};
use libc::types::rlimit;
use std::alloc::Global;
use std::fs::{File, Files};
use std::io;
use std::io::ErrorKind;

/// A folder of the system, and standard output. Places and lengths are bytes, counted from 0.
///
/// Until a folder is attached each file call is a fault. Later a fault is a call of the system that failed, for
/// whatever cause: no permission to read and to write, no room on the disk, something else than a plain file in the place
/// of one, a place that the system cannot take, want of memory for a file's path. The folder must not be moved while it is
/// attached. Of the attempt that was lent last, what is no plain file with one name, or may not be read and written,
/// counts as absent; settling it removes that where it can, and is a fault only by want of memory or of the disk.
///
/// One process writes a store: the first call on the control file locks the folder, until this value is dropped or
/// attached anew, and is a fault where another process has locked it (or another `Folder`). One that is made by
/// `beside`, as for a child that collects, never locks it.
///
/// A write past the limit that the process has for a file's size when the folder is attached is a fault, and is not
/// made: the system would end the process by a signal. Of output no such limit is known.
#[derive(Drop)]
pub struct Folder<R: Files<File = File> + Print + Drop> {
    rt: R,
    alloc: Global,
    asked: AskedFolders,
    files: Option<FolderFiles>,
    // another process is the store's
    is_beside: bool,
    // how many bytes a file may have
    size_max: u64,
    counts: GroundCounts,
    // the first fault of a file call or of output, and the first of a removal
    cause: Option<Cause>,
    removal: Option<Cause>,
}

impl<R: Files<File = File> + Print + Drop> Folder<R> {
    ghost use Rattle.std.specs.Prelude.{true, false, IfSome, IsTrue};
    ghost use Rattle.ip_ground.specs.Counts.{nothing_noted};

    /// No folder yet, and no fault.
    pub fn new(rt: R, alloc: Global) -> Folder<R>
        ensures counts { ⟦<Folder<R> as Ground>⟧.counts_of result ≡ nothing_noted }
        ensures beside { result.is_beside ≡ false }
    {
        Folder::made(rt, alloc, false)
    }

    /// The same for a process beside the one that the store is of: no call locks the folder. It must not write the
    /// control file, nor what that one writes.
    pub fn beside(rt: R, alloc: Global) -> Folder<R>
        ensures counts { ⟦<Folder<R> as Ground>⟧.counts_of result ≡ nothing_noted }
        ensures beside { result.is_beside ≡ true }
    {
        Folder::made(rt, alloc, true)
    }

    fn made(rt: R, alloc: Global, is_beside: bool) -> Folder<R>
        ensures counts { ⟦<Folder<R> as Ground>⟧.counts_of result ≡ nothing_noted }
        ensures beside { result.is_beside ≡ is_beside }
    {
        Folder {
            rt,
            alloc,
            asked: AskedFolders::new(),
            files: None,
            is_beside,
            size_max: u64::MAX,
            counts: GroundCounts {
                file_faults: 0,
                remove_faults: 0,
                say_faults: 0,
                damages: 0,
            },
            cause: None,
            removal: None,
        }
    }

    /// The first fault that was counted of a file call or of output, or else of a removal.
    pub fn cause(&self) -> Option<Cause> {
        match self.cause {
            Some(cause) => Some(cause),
            None => self.removal,
        }
    }

    // Counts a fault of a file call.
    fn file_fault(&mut self, call: &'static str, subject: Subject, error: &io::Error) -> GroundFault
        ensures counts { FileFault (noting self.old.counts (bound_of self.old.asked self.old.files)) (noting self.new.counts (bound_of self.new.asked self.new.files)) }
        ensures beside { self.new.is_beside ≡ self.old.is_beside }
        ensures lock { lock_of self.new.files ≡ lock_of self.old.files }
    {
        self.keep(Cause::of(call, subject, error));
        self.counts.file_faults = self.counts.file_faults.saturating_add(1);
        GroundFault
    }

    // Counts a fault of a removal.
    fn remove_fault(&mut self, file: FileName, error: &io::Error) -> GroundFault
        ensures counts { RemoveFault (noting self.old.counts (bound_of self.old.asked self.old.files)) (noting self.new.counts (bound_of self.new.asked self.new.files)) }
        ensures beside { self.new.is_beside ≡ self.old.is_beside }
        ensures lock { lock_of self.new.files ≡ lock_of self.old.files }
    {
        if self.removal.is_none() {
            self.removal = Some(Cause::of("remove", Subject::File(file), error));
        }
        self.counts.remove_faults = self.counts.remove_faults.saturating_add(1);
        GroundFault
    }

    // Counts a fault of output.
    fn say_fault(&mut self, error: &io::Error) -> GroundFault
        ensures counts { SayFault (noting self.old.counts (bound_of self.old.asked self.old.files)) (noting self.new.counts (bound_of self.new.asked self.new.files)) }
        ensures beside { self.new.is_beside ≡ self.old.is_beside }
        ensures lock { lock_of self.new.files ≡ lock_of self.old.files }
    {
        self.keep(Cause::of("write", Subject::Output, error));
        self.counts.say_faults = self.counts.say_faults.saturating_add(1);
        GroundFault
    }

    // Keeps the first cause.
    fn keep(&mut self, cause: Cause)
        ensures { self.new ≡ record self.old { cause = self.new.cause } }
    {
        if self.cause.is_none() {
            self.cause = Some(cause);
        }
    }

    // A child may make, change and remove the files of this attempt, or has done so: the next sync is of the folder too.
    fn hand_over(&mut self, attempt: u64)
        ensures counts { noting self.new.counts (bound_of self.new.asked self.new.files) ≡ noting self.old.counts (bound_of self.old.asked self.old.files) }
        ensures beside { self.new.is_beside ≡ self.old.is_beside }
        ensures lock { lock_of self.new.files ≡ lock_of self.old.files }
        ensures changed { IfSome self.new.files (λ files. IsTrue files.is_changed) }
    {
        if let Some(files) = &mut self.files {
            files.hand_over(attempt);
        }
    }
}

impl<R: Files<File = File> + Print + Drop> Ground for Folder<R> {
    ghost use Rattle.std.specs.Prelude.{◌≢◌, ◌≤◌, ℕ, length, false, IsTrue, IsFalse, OnOk, IfOk, IfSome, IsSomeAnd};
    ghost use Rattle.ip_ground.specs.declared.names.FileName.TheVariants.{Control};
    ghost use Rattle.ip_ground.specs.Contents.{size_of};
    ghost use Rattle.ip_ground.specs.Told.{silent, Only, NoFile, ChangesOnly};
    ghost use Rattle.ip_ground.specs.Calls.{Passes, Measures, Reads, Writes, Syncs, Removes, Lends, Settles, Says};
    ghost use Rattle.ip_ground.specs.Counts.{Attaches, CountsAs, DamageFound};
    ghost use Rattle.ip_ground.specs.Failing.{Refuses};

    ghost tells = { false };

    ghost told = { λ _. silent };

    ghost counts_of = { λ folder. noting folder.counts (bound_of folder.asked folder.files) };

    ghost refuses = { λ _ _. false };

    ghost possible = { λ _ _ file. tt };

    // The trait's clauses, that the lock is not held yet: it is to be asked for, but by one that is beside, which no
    // call becomes; and that the next sync is of the folder too.
    fn attach(&mut self, dir: &str) -> Result<(), GroundFault>
        ensures does { IsTrue ⟦<Folder<R> as Ground>⟧.tells → Passes result (⟦<Folder<R> as Ground>⟧.told self.old) (⟦<Folder<R> as Ground>⟧.told self.new) }
        ensures counts { Attaches dir.now result (⟦<Folder<R> as Ground>⟧.counts_of self.old) (⟦<Folder<R> as Ground>⟧.counts_of self.new) }
        ensures refused { Refuses result (⟦<Folder<R> as Ground>⟧.refuses self.old) (⟦<Folder<R> as Ground>⟧.refuses self.new) }
        ensures lock { OnOk result (IsSomeAnd self.new.files (λ files. files.is_locked ≡ self.old.is_beside)) }
        ensures beside { self.new.is_beside ≡ self.old.is_beside }
        ensures changed { OnOk result (IsSomeAnd self.new.files (λ files. IsTrue files.is_changed)) }
    {
        self.asked = self.asked.then(&FolderName(dir));
        self.files = None;
        match FolderFiles::of(self.alloc, &self.rt, dir) {
            Ok(files) => {
                self.files = Some(if self.is_beside {
                    files.unlocked()
                } else {
                    files
                });
                self.size_max = size_limit();
                Ok(())
            }
            Err(error) => Err(self.file_fault("open", Subject::Folder, &error)),
        }
    }

    // Here and below: the trait's clauses, that it is beside another process or not as before, and that the lock is asked
    // for by a call on the control file alone. Where such a call is Ok the lock is held, or not to be asked for; and each
    // call on a file that is Ok has a folder.
    fn length(&mut self, file: FileName) -> Result<Option<u64>, GroundFault>
        ensures does { IsTrue ⟦<Folder<R> as Ground>⟧.tells → Measures file result (⟦<Folder<R> as Ground>⟧.told self.old) (⟦<Folder<R> as Ground>⟧.told self.new) }
        ensures counts { CountsAs FileFault result (⟦<Folder<R> as Ground>⟧.counts_of self.old) (⟦<Folder<R> as Ground>⟧.counts_of self.new) }
        ensures refused { Refuses result (⟦<Folder<R> as Ground>⟧.refuses self.old) (⟦<Folder<R> as Ground>⟧.refuses self.new) }
        ensures beside { self.new.is_beside ≡ self.old.is_beside }
        ensures lock { file ≢ Control → lock_of self.new.files ≡ lock_of self.old.files }
        ensures held { OnOk result (IsSomeAnd self.new.files (λ files. file ≡ Control → IsTrue files.is_locked)) }
    {
        let length = match &mut self.files {
            Some(files) => files.length(&self.rt, file),
            None => Err(unattached()),
        };
        match length {
            Ok(size) => Ok(size),
            Err(error) => Err(self.file_fault("length", Subject::File(file), &error)),
        }
    }

    fn read(&mut self, file: FileName, at: u64, out: &mut [u8]) -> Result<usize, GroundFault>
        ensures does { IsTrue ⟦<Folder<R> as Ground>⟧.tells → Reads file at out.old out.new result (⟦<Folder<R> as Ground>⟧.told self.old) (⟦<Folder<R> as Ground>⟧.told self.new) }
        ensures fits { IfOk result (λ n. n ≤ length out.old) }
        ensures counts { CountsAs FileFault result (⟦<Folder<R> as Ground>⟧.counts_of self.old) (⟦<Folder<R> as Ground>⟧.counts_of self.new) }
        ensures refused { Refuses result (⟦<Folder<R> as Ground>⟧.refuses self.old) (⟦<Folder<R> as Ground>⟧.refuses self.new) }
        ensures beside { self.new.is_beside ≡ self.old.is_beside }
        ensures lock { file ≢ Control → lock_of self.new.files ≡ lock_of self.old.files }
        ensures held { OnOk result (IsSomeAnd self.new.files (λ files. file ≡ Control → IsTrue files.is_locked)) }
    {
        let read = match &mut self.files {
            Some(files) => files.read(&self.rt, file, at, out),
            None => Err(unattached()),
        };
        match read {
            Ok(n) => Ok(n),
            Err(error) => Err(self.file_fault("read", Subject::File(file), &error)),
        }
    }

    fn write(&mut self, file: FileName, at: u64, bytes: &[u8]) -> Result<(), GroundFault>
        ensures does { IsTrue ⟦<Folder<R> as Ground>⟧.tells → at ≤ size_of ((⟦<Folder<R> as Ground>⟧.told self.old).held file) → Writes file at bytes.now result (⟦<Folder<R> as Ground>⟧.told self.old) (⟦<Folder<R> as Ground>⟧.told self.new) }
        ensures only { IsTrue ⟦<Folder<R> as Ground>⟧.tells → ChangesOnly (Only file) (⟦<Folder<R> as Ground>⟧.told self.old) (⟦<Folder<R> as Ground>⟧.told self.new) }
        ensures counts { CountsAs FileFault result (⟦<Folder<R> as Ground>⟧.counts_of self.old) (⟦<Folder<R> as Ground>⟧.counts_of self.new) }
        ensures refused { Refuses result (⟦<Folder<R> as Ground>⟧.refuses self.old) (⟦<Folder<R> as Ground>⟧.refuses self.new) }
        ensures beside { self.new.is_beside ≡ self.old.is_beside }
        ensures lock { file ≢ Control → lock_of self.new.files ≡ lock_of self.old.files }
        ensures held { OnOk result (IsSomeAnd self.new.files (λ files. file ≡ Control → IsTrue files.is_locked)) }
    {
        let fits = at.saturating_add(bytes.len() as u64) <= self.size_max;
        let written = match &mut self.files {
            Some(_) if !fits => Err(io::Error::from(ErrorKind::FileTooLarge)),
            Some(files) => files.write(&self.rt, file, at, bytes),
            None => Err(unattached()),
        };
        match written {
            Ok(()) => Ok(()),
            Err(error) => Err(self.file_fault("write", Subject::File(file), &error)),
        }
    }

    // Besides, the folder was synced where a name may have come or gone.
    fn sync(&mut self, file: FileName) -> Result<(), GroundFault>
        ensures does { IsTrue ⟦<Folder<R> as Ground>⟧.tells → Syncs file result (⟦<Folder<R> as Ground>⟧.told self.old) (⟦<Folder<R> as Ground>⟧.told self.new) }
        ensures counts { CountsAs FileFault result (⟦<Folder<R> as Ground>⟧.counts_of self.old) (⟦<Folder<R> as Ground>⟧.counts_of self.new) }
        ensures refused { Refuses result (⟦<Folder<R> as Ground>⟧.refuses self.old) (⟦<Folder<R> as Ground>⟧.refuses self.new) }
        ensures synced { OnOk result (IsSomeAnd self.new.files (λ files. IsFalse files.is_changed)) }
        ensures beside { self.new.is_beside ≡ self.old.is_beside }
        ensures lock { file ≢ Control → lock_of self.new.files ≡ lock_of self.old.files }
        ensures held { OnOk result (IsSomeAnd self.new.files (λ files. file ≡ Control → IsTrue files.is_locked)) }
    {
        let synced = match &mut self.files {
            Some(files) => files.sync(&self.rt, file),
            None => Err(unattached()),
        };
        match synced {
            Ok(()) => Ok(()),
            Err(error) => Err(self.file_fault("sync", Subject::File(file), &error)),
        }
    }

    fn remove(&mut self, file: FileName) -> Result<(), GroundFault>
        ensures does { IsTrue ⟦<Folder<R> as Ground>⟧.tells → Removes file result (⟦<Folder<R> as Ground>⟧.told self.old) (⟦<Folder<R> as Ground>⟧.told self.new) }
        ensures counts { CountsAs RemoveFault result (⟦<Folder<R> as Ground>⟧.counts_of self.old) (⟦<Folder<R> as Ground>⟧.counts_of self.new) }
        ensures refused { Refuses result (⟦<Folder<R> as Ground>⟧.refuses self.old) (⟦<Folder<R> as Ground>⟧.refuses self.new) }
        ensures beside { self.new.is_beside ≡ self.old.is_beside }
        ensures lock { file ≢ Control → lock_of self.new.files ≡ lock_of self.old.files }
        ensures held { OnOk result (IsSomeAnd self.new.files (λ files. file ≡ Control → IsTrue files.is_locked)) }
    {
        let removed = match &mut self.files {
            Some(files) => files.remove(&self.rt, file),
            None => Err(unattached()),
        };
        match removed {
            Ok(()) => Ok(()),
            Err(error) => Err(self.remove_fault(file, &error)),
        }
    }

    // Behind it the next sync is of the folder too.
    fn lend(&mut self, attempt: u64) -> Result<(), GroundFault>
        ensures does { IsTrue ⟦<Folder<R> as Ground>⟧.tells → Lends attempt result (⟦<Folder<R> as Ground>⟧.told self.old) (⟦<Folder<R> as Ground>⟧.told self.new) }
        ensures counts { CountsAs FileFault result (⟦<Folder<R> as Ground>⟧.counts_of self.old) (⟦<Folder<R> as Ground>⟧.counts_of self.new) }
        ensures refused { Refuses result (⟦<Folder<R> as Ground>⟧.refuses self.old) (⟦<Folder<R> as Ground>⟧.refuses self.new) }
        ensures beside { self.new.is_beside ≡ self.old.is_beside }
        ensures lock { lock_of self.new.files ≡ lock_of self.old.files }
        ensures changed { OnOk result (IfSome self.new.files (λ files. IsTrue files.is_changed)) }
    {
        self.hand_over(attempt);
        Ok(())
    }

    // Of a child that failed no file is looked at: a sweep follows, and until then what is no plain file counts as absent.
    // Behind it the next sync is of the folder too.
    fn settle(&mut self, attempt: u64, reaped: &Reaped) -> Result<(), GroundFault>
        requires { reaped.now.attempt ≡ attempt }
        ensures does { IsTrue ⟦<Folder<R> as Ground>⟧.tells → Settles attempt result (⟦<Folder<R> as Ground>⟧.told self.old) (⟦<Folder<R> as Ground>⟧.told self.new) }
        ensures counts { CountsAs FileFault result (⟦<Folder<R> as Ground>⟧.counts_of self.old) (⟦<Folder<R> as Ground>⟧.counts_of self.new) }
        ensures refused { Refuses result (⟦<Folder<R> as Ground>⟧.refuses self.old) (⟦<Folder<R> as Ground>⟧.refuses self.new) }
        ensures beside { self.new.is_beside ≡ self.old.is_beside }
        ensures lock { lock_of self.new.files ≡ lock_of self.old.files }
        ensures changed { OnOk result (IfSome self.new.files (λ files. IsTrue files.is_changed)) }
    {
        self.hand_over(attempt);
        if reaped.exit != Exit::Code(0) {
            return Ok(());
        }
        let settled = match &mut self.files {
            Some(files) => files.settle(&self.rt, attempt),
            None => Ok(()),
        };
        match settled {
            Ok(()) => Ok(()),
            Err(error) => {
                let file = Subject::File(FileName::Prefix(attempt));
                Err(self.file_fault("settle", file, &error))
            }
        }
    }

    fn say(&mut self, bytes: &[u8]) -> Result<(), GroundFault>
        ensures does { IsTrue ⟦<Folder<R> as Ground>⟧.tells → Says bytes.now result (⟦<Folder<R> as Ground>⟧.told self.old) (⟦<Folder<R> as Ground>⟧.told self.new) }
        ensures counts { CountsAs SayFault result (⟦<Folder<R> as Ground>⟧.counts_of self.old) (⟦<Folder<R> as Ground>⟧.counts_of self.new) }
        ensures refused { Refuses result (⟦<Folder<R> as Ground>⟧.refuses self.old) (⟦<Folder<R> as Ground>⟧.refuses self.new) }
        ensures beside { self.new.is_beside ≡ self.old.is_beside }
        ensures lock { lock_of self.new.files ≡ lock_of self.old.files }
    {
        match self.rt.write_all(bytes) {
            Ok(()) => Ok(()),
            Err(error) => Err(self.say_fault(&error)),
        }
    }

    fn note_damage(&mut self)
        ensures does { IsTrue ⟦<Folder<R> as Ground>⟧.tells → ChangesOnly NoFile (⟦<Folder<R> as Ground>⟧.told self.old) (⟦<Folder<R> as Ground>⟧.told self.new) }
        ensures counts { DamageFound (⟦<Folder<R> as Ground>⟧.counts_of self.old) (⟦<Folder<R> as Ground>⟧.counts_of self.new) }
        ensures refused { (n : ℕ) → ⟦<Folder<R> as Ground>⟧.refuses self.new n ≡ ⟦<Folder<R> as Ground>⟧.refuses self.old n }
        ensures beside { self.new.is_beside ≡ self.old.is_beside }
        ensures lock { lock_of self.new.files ≡ lock_of self.old.files }
    {
        self.counts.damages = self.counts.damages.saturating_add(1);
    }

    fn counts(&self) -> GroundCounts {
        self.counts
    }
}

// Why a file call fails before a folder is attached.
fn unattached() -> io::Error {
    io::Error::from(ErrorKind::NotFound)
}

// How many bytes a file may have that this process writes, as far as the system says so.
fn size_limit() -> u64 {
    let mut limit = rlimit {
        rlim_cur: u64::MAX,
        rlim_max: u64::MAX,
    };
    if libc::getrlimit(FILE_SIZE, &mut limit) < 0 {
        return u64::MAX;
    }
    limit.rlim_cur
}

// The limit on a file's size, by its number on Linux.
const FILE_SIZE: i32 = 1;
