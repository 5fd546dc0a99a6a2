// The files of a folder. They stay open from call to call: a read of an open file takes a third of the time of one
// that is opened for it; and where a file stays open from a write to the next sync, the system tells that sync of a
// write that did not reach the disk.
ghost use Rattle.std.specs.Prelude.{◌≤◌, ◌<◌, IfOk, IfSome, length, slice_get, vec_len, string_bytes};
ghost use Rattle.ip_host.specs.declared.files.TheConstants.{KEPT};

use crate::names::path_of;
use crate::plain::{Identity, Stands, another, opened, still_stands};
use ip_ground::FileName;
use std::alloc::Global;
use std::fs::{File, Files, metadata, remove_dir, remove_file};
use std::io;
use std::io::ErrorKind;
use std::os::fd::AsRawFd;
use std::os::unix::fs::FileExt;

// How many files stay open at most.
const KEPT: usize = 16;

// A file that is open for reading and writing.
#[derive(Drop)]
struct Opened {
    name: FileName,
    file: File,
    // it was written since its last sync
    is_written: bool,
}

impl Opened {
    ghost use Rattle.std.specs.Prelude.{◌≡◌, OnOk, OnErr, IsTrue, IsFalse};

    // Writes all the bytes, or some of them.
    fn write(&mut self, at: u64, bytes: &[u8]) -> io::Result<()>
        ensures pending { IsTrue self.new.is_written }
        ensures same { self.new.name ≡ self.old.name }
    {
        self.is_written = true;
        self.file.write_all_at(bytes, at)
    }

    // Where it fails, the file counts as written still.
    fn sync(&mut self) -> io::Result<()>
        ensures synced { OnOk result (IsFalse self.new.is_written) }
        ensures pending { OnErr result (self.new.is_written ≡ self.old.is_written) }
        ensures same { self.new.name ≡ self.old.name }
    {
        self.file.sync_all()?;
        self.is_written = false;
        Ok(())
    }
}

// The pair that a child left, of plain files both.
#[derive(Clone, Copy)]
struct Pair {
    attempt: u64,
    prefix: Identity,
    mapping: Identity,
}

// What was found under a name of an attempt that is settled.
#[derive(Clone, Copy)]
enum Found {
    Absent,
    Plain(Identity),
    Other,
}

/// The files of a folder. Those that were opened last stay open.
#[derive(Drop)]
pub struct FolderFiles {
    alloc: Global,
    dir: String,
    folder: File,
    // the folder's lock is held, which ends when the folder is closed, or is not asked for
    is_locked: bool,
    // a name may have come or gone since the folder was synced
    is_changed: bool,
    // in the order in which they were opened
    kept: Vec<Opened>,
    // the attempt whose files a child may have left: what is no plain file there counts as absent
    left: Option<u64>,
    // the pair that was settled last: its files stay the ones that they were, until others are lent
    pair: Option<Pair>,
    // what stands in the place of standard streams that were closed
    streams: Vec<File>,
    ghost few: { vec_len kept ≤ KEPT },
}

impl FolderFiles {
    ghost use Rattle.std.specs.Prelude.{◌≡◌, ◌≢◌, OnOk, OnErr, IsTrue, IsFalse, Some};
    ghost use Rattle.ip_ground.specs.declared.names.FileName.TheVariants.{Control};
    ghost use Rattle.ip_host.specs.Opened.{name_at};
    ghost use Rattle.ip_host.specs.declared.files.Opened.{Opened};

    /// The files of the folder of this name. What others did to it before may not be synced.
    pub fn of<R: Files<File = File>>(alloc: Global, rt: &R, dir: &str) -> io::Result<FolderFiles>
        ensures unlocked { IfOk result (λ files. IsFalse files.is_locked) }
        ensures changed { IfOk result (λ files. IsTrue files.is_changed) }
        ensures dir { IfOk result (λ files. string_bytes files.dir ≡ dir.now) }
    {
        let streams = closed_streams(alloc, rt)?;
        // An open of a fifo would wait.
        if !metadata(rt, dir)?.is_dir() {
            return Err(io::Error::from(ErrorKind::NotADirectory));
        }
        let folder = File::open(rt, dir)?;
        Ok(FolderFiles {
            alloc,
            dir: String::from_str(alloc, dir)?,
            folder,
            is_locked: false,
            is_changed: true,
            kept: Vec::with_capacity(alloc, KEPT)?,
            left: None,
            pair: None,
            streams,
        })
    }

    /// The same beside the store's process: the lock is not asked for.
    pub fn unlocked(mut self) -> FolderFiles
        ensures lock { IsTrue result.is_locked }
        ensures flag { result.is_changed ≡ self.is_changed }
        ensures dir { result.dir ≡ self.dir }
    {
        self.is_locked = true;
        self
    }

    // Whoever reads or writes the control file is the store's one process, and locks the folder against any other, unless
    // it is a child that collects, which works beside that process. No other file does that.
    fn claim(&mut self, name: FileName) -> io::Result<()>
        ensures locked { OnOk result (name ≡ Control → IsTrue self.new.is_locked) }
        ensures others { name ≢ Control → self.new.is_locked ≡ self.old.is_locked }
        ensures flag { self.new.is_changed ≡ self.old.is_changed }
        ensures dir { self.new.dir ≡ self.old.dir }
    {
        if name == FileName::Control && !self.is_locked {
            self.folder.try_lock()?;
            self.is_locked = true;
        }
        Ok(())
    }

    // Where the file stands among those that are open.
    fn place_of(&self, name: FileName) -> Option<usize>
        ensures within { IfSome result (λ place. place < vec_len self.now.kept) }
        ensures named { IfSome result (λ place. name_at self.now.kept.items place ≡ Some name) }
    {
        for place in (0..self.kept.len()).rev() {
            if self.kept[place].name == name {
                return Some(place);
            }
        }
        None
    }

    // Closes this file, if it is open.
    fn close(&mut self, name: FileName)
        ensures lock { self.new.is_locked ≡ self.old.is_locked }
        ensures flag { self.new.is_changed ≡ self.old.is_changed }
        ensures dir { self.new.dir ≡ self.old.dir }
    {
        if let Some(place) = self.place_of(name) {
            self.kept.remove(place);
        }
    }

    // Closes the file that was opened longest ago. What was written to it is synced before: later nobody would be told
    // that it did not reach the disk.
    fn close_oldest(&mut self) -> io::Result<()>
        requires { 0 < vec_len self.old.kept }
        ensures room { OnOk result (vec_len self.new.kept < KEPT) }
        ensures lock { self.new.is_locked ≡ self.old.is_locked }
        ensures flag { self.new.is_changed ≡ self.old.is_changed }
        ensures dir { self.new.dir ≡ self.old.dir }
    {
        let oldest = &mut self.kept[0];
        if oldest.is_written {
            oldest.sync()?;
        }
        self.drop_oldest();
        Ok(())
    }

    // Closes it, once it has nothing left to sync.
    fn drop_oldest(&mut self)
        requires filled { 0 < vec_len self.old.kept }
        requires synced { (oldest : Opened) → slice_get self.old.kept.items 0 ≡ Some oldest → IsFalse oldest.is_written }
        ensures room { vec_len self.new.kept < KEPT }
        ensures lock { self.new.is_locked ≡ self.old.is_locked }
        ensures flag { self.new.is_changed ≡ self.old.is_changed }
        ensures dir { self.new.dir ≡ self.old.dir }
    {
        self.kept.remove(0);
    }

    // Keeps a file open that was opened: where it stands then.
    fn keep(&mut self, name: FileName, file: File) -> io::Result<usize>
        ensures within { IfOk result (λ place. place < vec_len self.new.kept) }
        ensures named { IfOk result (λ place. name_at self.new.kept.items place ≡ Some name) }
        ensures lock { self.new.is_locked ≡ self.old.is_locked }
        ensures flag { self.new.is_changed ≡ self.old.is_changed }
        ensures dir { self.new.dir ≡ self.old.dir }
    {
        if self.kept.len() >= KEPT {
            self.close_oldest()?;
        }
        self.kept.push(Opened {
            name,
            file,
            is_written: false,
        })?;
        Ok(self.kept.len() - 1)
    }

    // Whether a child may have left what stands under this name.
    fn is_left(&self, name: FileName) -> bool {
        match name {
            FileName::Prefix(attempt) | FileName::Mapping(attempt) | FileName::Done(attempt) => {
                self.left == Some(attempt)
            }
            _ => false,
        }
    }

    // Opens the file, and keeps it open. Nothing where it is absent, and where a child left what is no plain file with
    // one name, or none that may be opened.
    fn open<R: Files<File = File>>(&mut self, rt: &R, name: FileName) -> io::Result<Option<usize>>
        ensures within { IfOk result (λ found. IfSome found (λ place. place < vec_len self.new.kept)) }
        ensures named { IfOk result (λ found. IfSome found (λ place. name_at self.new.kept.items place ≡ Some name)) }
        ensures lock { self.new.is_locked ≡ self.old.is_locked }
        ensures flag { self.new.is_changed ≡ self.old.is_changed }
        ensures dir { self.new.dir ≡ self.old.dir }
    {
        let path = path_of(self.alloc, self.dir.as_str(), name)?;
        let (is_left, settled) = (self.is_left(name), self.settled(name));
        match opened(rt, path.as_str(), is_left || settled.is_some())? {
            Stands::Absent => Ok(None),
            Stands::Plain(_, found) if settled.is_some() && found != settled => Err(another()),
            Stands::Plain(file, _) => Ok(Some(self.keep(name, file)?)),
            Stands::Other(_) if is_left => Ok(None),
            Stands::Other(e) => Err(e),
        }
    }

    // Which file of a settled pair has this name.
    fn settled(&self, name: FileName) -> Option<Identity> {
        let pair = self.pair?;
        match name {
            FileName::Prefix(attempt) if attempt == pair.attempt => Some(pair.prefix),
            FileName::Mapping(attempt) if attempt == pair.attempt => Some(pair.mapping),
            _ => None,
        }
    }

    // Where the file stands among those that are open; it is opened for that. Nothing where it is absent.
    fn find<R: Files<File = File>>(&mut self, rt: &R, name: FileName) -> io::Result<Option<usize>>
        ensures within { IfOk result (λ found. IfSome found (λ place. place < vec_len self.new.kept)) }
        ensures named { IfOk result (λ found. IfSome found (λ place. name_at self.new.kept.items place ≡ Some name)) }
        ensures locked { OnOk result (name ≡ Control → IsTrue self.new.is_locked) }
        ensures others { name ≢ Control → self.new.is_locked ≡ self.old.is_locked }
        ensures flag { self.new.is_changed ≡ self.old.is_changed }
        ensures dir { self.new.dir ≡ self.old.dir }
    {
        self.claim(name)?;
        match self.place_of(name) {
            Some(place) => Ok(Some(place)),
            None => self.open(rt, name),
        }
    }

    // The same, and it is made where it is absent.
    fn find_or_make<R: Files<File = File>>(&mut self, rt: &R, name: FileName) -> io::Result<usize>
        ensures within { IfOk result (λ place. place < vec_len self.new.kept) }
        ensures named { IfOk result (λ place. name_at self.new.kept.items place ≡ Some name) }
        ensures locked { OnOk result (name ≡ Control → IsTrue self.new.is_locked) }
        ensures others { name ≢ Control → self.new.is_locked ≡ self.old.is_locked }
        ensures flag { IsTrue self.old.is_changed → IsTrue self.new.is_changed }
        ensures dir { self.new.dir ≡ self.old.dir }
    {
        if let Some(place) = self.find(rt, name)? {
            return Ok(place);
        }
        self.make(rt, name)
    }

    // Makes the file, and keeps it open: anew, so that nothing is followed that is put there meanwhile. A name may have
    // come, where it fails too.
    fn make<R: Files<File = File>>(&mut self, rt: &R, name: FileName) -> io::Result<usize>
        ensures within { IfOk result (λ place. place < vec_len self.new.kept) }
        ensures named { IfOk result (λ place. name_at self.new.kept.items place ≡ Some name) }
        ensures lock { self.new.is_locked ≡ self.old.is_locked }
        ensures changed { IsTrue self.new.is_changed }
        ensures dir { self.new.dir ≡ self.old.dir }
    {
        self.is_changed = true;
        let path = path_of(self.alloc, self.dir.as_str(), name)?;
        let file = File::create_new(rt, path.as_str())?;
        self.keep(name, file)
    }

    /// How many bytes the file has, or nothing where it is absent.
    pub fn length<R: Files<File = File>>(
        &mut self,
        rt: &R,
        name: FileName,
    ) -> io::Result<Option<u64>>
        ensures locked { OnOk result (name ≡ Control → IsTrue self.new.is_locked) }
        ensures others { name ≢ Control → self.new.is_locked ≡ self.old.is_locked }
        ensures flag { self.new.is_changed ≡ self.old.is_changed }
        ensures dir { self.new.dir ≡ self.old.dir }
    {
        match self.find(rt, name)? {
            Some(place) => Ok(Some(self.kept[place].file.metadata()?.len())),
            None => Ok(None),
        }
    }

    /// Reads up to the file's end, or until `out` is full.
    pub fn read<R: Files<File = File>>(
        &mut self,
        rt: &R,
        name: FileName,
        at: u64,
        out: &mut [u8],
    ) -> io::Result<usize>
        ensures fits { IfOk result (λ n. n ≤ length out.old) }
        ensures locked { OnOk result (name ≡ Control → IsTrue self.new.is_locked) }
        ensures others { name ≢ Control → self.new.is_locked ≡ self.old.is_locked }
        ensures flag { self.new.is_changed ≡ self.old.is_changed }
        ensures dir { self.new.dir ≡ self.old.dir }
    {
        match self.find(rt, name)? {
            Some(place) => read_from(&self.kept[place].file, at, out),
            None => Ok(0),
        }
    }

    /// Writes all the bytes. An absent file is made.
    pub fn write<R: Files<File = File>>(
        &mut self,
        rt: &R,
        name: FileName,
        at: u64,
        bytes: &[u8],
    ) -> io::Result<()>
        ensures locked { OnOk result (name ≡ Control → IsTrue self.new.is_locked) }
        ensures others { name ≢ Control → self.new.is_locked ≡ self.old.is_locked }
        ensures flag { IsTrue self.old.is_changed → IsTrue self.new.is_changed }
        ensures dir { self.new.dir ≡ self.old.dir }
    {
        let place = self.find_or_make(rt, name)?;
        self.kept[place].write(at, bytes)
    }

    /// Syncs the file, if it is there, and the folder if a name may have come or gone: a crash keeps the file's name,
    /// or that it is absent. A file of a settled pair has to stand under its name still: what a process behind the child
    /// puts there is not what was compared.
    pub fn sync<R: Files<File = File>>(&mut self, rt: &R, name: FileName) -> io::Result<()>
        ensures locked { OnOk result (name ≡ Control → IsTrue self.new.is_locked) }
        ensures others { name ≢ Control → self.new.is_locked ≡ self.old.is_locked }
        ensures synced { OnOk result (IsFalse self.new.is_changed) }
        ensures flag { OnErr result (self.new.is_changed ≡ self.old.is_changed) }
        ensures dir { self.new.dir ≡ self.old.dir }
    {
        if let Some(place) = self.find(rt, name)? {
            if let Some(identity) = self.settled(name) {
                let path = path_of(self.alloc, self.dir.as_str(), name)?;
                still_stands(rt, path.as_str(), identity)?;
            }
            self.kept[place].sync()?;
        }
        if self.is_changed {
            self.folder.sync_all()?;
            self.is_changed = false;
        }
        Ok(())
    }

    /// Removes the file, if it is there. What else stands there goes too, but a folder only where it is empty.
    pub fn remove<R: Files<File = File>>(&mut self, rt: &R, name: FileName) -> io::Result<()>
        ensures locked { OnOk result (name ≡ Control → IsTrue self.new.is_locked) }
        ensures others { name ≢ Control → self.new.is_locked ≡ self.old.is_locked }
        ensures changed { OnOk result (IsTrue self.new.is_changed) }
        ensures flag { IsTrue self.old.is_changed → IsTrue self.new.is_changed }
        ensures dir { self.new.dir ≡ self.old.dir }
    {
        self.claim(name)?;
        let path = path_of(self.alloc, self.dir.as_str(), name)?;
        self.close(name);
        self.is_changed = true;
        remove_name(rt, path.as_str())
    }

    /// The files of this attempt change hands: the child may make other files in their place, so none stays open, and
    /// the next sync is of the folder too. From now on what is no plain file there counts as absent.
    pub fn hand_over(&mut self, attempt: u64)
        ensures lock { self.new.is_locked ≡ self.old.is_locked }
        ensures changed { IsTrue self.new.is_changed }
        ensures dir { self.new.dir ≡ self.old.dir }
    {
        self.close(FileName::Prefix(attempt));
        self.close(FileName::Mapping(attempt));
        self.close(FileName::Done(attempt));
        self.is_changed = true;
        self.left = Some(attempt);
        self.pair = None;
    }

    /// The child of this attempt was reaped, and changes nothing any more; none of its files is open. A plain pair is
    /// opened and stays so, and is the store's own from now on; what is none goes, or counts as absent where it can't go,
    /// as a folder with something in it. Both names are looked at before one goes: they may be names of one file.
    pub fn settle<R: Files<File = File>>(&mut self, rt: &R, attempt: u64) -> io::Result<()>
        ensures lock { self.new.is_locked ≡ self.old.is_locked }
        ensures flag { self.new.is_changed ≡ self.old.is_changed }
        ensures dir { self.new.dir ≡ self.old.dir }
    {
        let (prefix, mapping) = (FileName::Prefix(attempt), FileName::Mapping(attempt));
        let found = (self.take(rt, prefix)?, self.take(rt, mapping)?);
        if let (Found::Plain(prefix), Found::Plain(mapping)) = found {
            self.left = None;
            self.pair = Some(Pair {
                attempt,
                prefix,
                mapping,
            });
        }
        for (name, found) in [(prefix, found.0), (mapping, found.1)] {
            if let Found::Other = found {
                let path = path_of(self.alloc, self.dir.as_str(), name)?;
                let _ = remove_name(rt, path.as_str());
            }
        }
        Ok(())
    }

    // Opens a file that a child left, and keeps it open.
    fn take<R: Files<File = File>>(&mut self, rt: &R, name: FileName) -> io::Result<Found>
        ensures lock { self.new.is_locked ≡ self.old.is_locked }
        ensures flag { self.new.is_changed ≡ self.old.is_changed }
        ensures dir { self.new.dir ≡ self.old.dir }
    {
        let path = path_of(self.alloc, self.dir.as_str(), name)?;
        match opened(rt, path.as_str(), true)? {
            Stands::Absent => Ok(Found::Absent),
            Stands::Plain(file, Some(identity)) => {
                self.keep(name, file)?;
                Ok(Found::Plain(identity))
            }
            _ => Ok(Found::Other),
        }
    }
}

// Removes what stands under this path, if anything does: a file of whatever kind, or an empty folder.
fn remove_name<R: Files>(rt: &R, path: &str) -> io::Result<()> {
    let removed = match remove_file(rt, path) {
        Err(e) if e.kind() == ErrorKind::IsADirectory => remove_dir(rt, path),
        other => other,
    };
    match removed {
        Err(e) if e.kind() == ErrorKind::NotFound => Ok(()),
        other => other,
    }
}

// Takes the numbers of standard streams that were closed: else a file of the store would get them, and what is said
// would be written into it.
fn closed_streams<R: Files<File = File>>(alloc: Global, rt: &R) -> io::Result<Vec<File>> {
    let mut taken = Vec::new(alloc);
    for _ in 0..3 {
        let file = File::open(rt, "/dev/null")?;
        if file.as_raw_fd() > 2 {
            break;
        }
        taken.push(file)?;
    }
    Ok(taken)
}

// Reads until the file ends or the room is full.
fn read_from(file: &File, at: u64, out: &mut [u8]) -> io::Result<usize>
    ensures { IfOk result (λ n. n ≤ length out.old) }
{
    let mut n = 0;
    for _ in 0..u64::MAX {
        if n >= out.len() {
            break;
        }
        match file.read_at(&mut out[n..], at.saturating_add(n as u64)) {
            Ok(0) => break,
            Ok(got) => n += got,
            Err(e) if e.kind() == ErrorKind::Interrupted => {}
            Err(e) => return Err(e),
        }
    }
    Ok(n)
}
