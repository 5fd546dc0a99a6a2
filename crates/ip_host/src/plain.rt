// What stands under a name of the store. Its files are plain ones, and each name is looked at before it is opened,
// without following it: the kit's opens follow a link, and one of a device may wait or do more than that. An open of a
// fifo, for reading and writing as here, never waits.
use std::fs::{File, Files, Metadata, symlink_metadata};
use std::io;
use std::io::ErrorKind;
use std::os::unix::fs::MetadataExt;

// What an open of a socket or of a device without a driver fails with.
const NO_SUCH_DEVICE: [i32; 2] = [6, 19];

/// Which file of the system it is, whatever its name is.
#[derive(Clone, Copy, Debug, PartialEq, Eq)]
pub struct Identity {
    device: u64,
    number: u64,
}

/// What stands under a name.
#[derive(Drop)]
pub enum Stands {
    Absent,
    /// A plain file, open for reading and writing, and which one it is, where that was asked for.
    Plain(File, Option<Identity>),
    /// Something else, or a file that may not be opened so: why.
    Other(io::Error),
}

/// What stands under this path, and nothing where it is absent. No link at its end is followed.
pub fn looked_at<R: Files>(rt: &R, path: &str) -> io::Result<Option<Metadata>> {
    match symlink_metadata(rt, path) {
        Ok(found) => Ok(Some(found)),
        Err(e) if e.kind() == ErrorKind::NotFound => Ok(None),
        Err(e) => Err(e),
    }
}

/// Whether it is a plain file that has no second name.
pub fn is_alone(found: &Metadata) -> bool {
    found.is_file() && found.nlink() == 1
}

/// Opens the plain file of this path. With `alone` it may have no second name, and what was opened is what was looked
/// at: a child that still changes its names is met there. Other files have one process that changes them, this one; a
/// child may well give them a second name, which is none of their matter.
pub fn opened<R: Files<File = File>>(rt: &R, path: &str, alone: bool) -> io::Result<Stands> {
    let Some(found) = looked_at(rt, path)? else {
        return Ok(Stands::Absent);
    };
    if !found.is_file() || alone && !is_alone(&found) {
        return Ok(Stands::Other(not_plain(&found)));
    }
    match File::options().read(true).write(true).open(rt, path) {
        Ok(file) => kept(file, &found, alone),
        Err(e) if e.kind() == ErrorKind::NotFound => Ok(Stands::Absent),
        Err(e) if is_of_name(&e) => Ok(Stands::Other(e)),
        Err(e) => Err(e),
    }
}

// The file that was opened, where it is the one that was looked at.
fn kept(file: File, found: &Metadata, alone: bool) -> io::Result<Stands> {
    if !alone {
        return Ok(Stands::Plain(file, None));
    }
    let held = file.metadata()?;
    let identity = identity_of(&held);
    if is_alone(&held) && identity == identity_of(found) {
        Ok(Stands::Plain(file, Some(identity)))
    } else {
        Ok(Stands::Other(not_plain(&held)))
    }
}

fn identity_of(found: &Metadata) -> Identity {
    Identity {
        device: found.dev(),
        number: found.ino(),
    }
}

/// Whether this file stands under this path, and has no second name.
pub fn still_stands<R: Files>(rt: &R, path: &str, identity: Identity) -> io::Result<()> {
    match looked_at(rt, path)? {
        Some(found) if !is_alone(&found) => Err(not_plain(&found)),
        Some(found) if identity_of(&found) == identity => Ok(()),
        Some(_) => Err(another()),
        None => Err(io::Error::from(ErrorKind::NotFound)),
    }
}

/// Why a file is not the one that it was.
pub fn another() -> io::Error {
    io::Error::from(ErrorKind::AlreadyExists)
}

// Whether an open failed by what stands there: a file without permission, one that is being run, or one of another kind
// that was put there since it was looked at. Want of memory or of descriptors, and a disk that fails, are no such.
fn is_of_name(e: &io::Error) -> bool {
    match e.kind() {
        ErrorKind::PermissionDenied
        | ErrorKind::ExecutableFileBusy
        | ErrorKind::IsADirectory
        | ErrorKind::FilesystemLoop => true,
        _ => match e.raw_os_error() {
            Some(code) => NO_SUCH_DEVICE.contains(&code),
            None => false,
        },
    }
}

// Why what stands under a name is no file of a store.
fn not_plain(found: &Metadata) -> io::Error {
    let kind = if found.is_symlink() {
        ErrorKind::FilesystemLoop
    } else if found.is_dir() {
        ErrorKind::IsADirectory
    } else {
        ErrorKind::NotSeekable
    };
    io::Error::from(kind)
}
