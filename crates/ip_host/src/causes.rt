// Why a call of the system failed, for a person.
use crate::names::file_name;
use ip_base::Memory;
use ip_ground::FileName;
use std::io;
use std::io::ErrorKind;

/// What a call of the system was about.
#[derive(Clone, Copy, Debug, PartialEq, Eq)]
pub enum Subject {
    /// The store's folder itself.
    Folder,
    /// A file in it.
    File(FileName),
    /// Standard input.
    Input,
    /// Standard output.
    Output,
    /// The child of a collection.
    Child,
}

/// A call of the system that failed, and why.
#[derive(Clone, Copy, Debug)]
pub struct Cause {
    call: &'static str,
    subject: Subject,
    kind: ErrorKind,
    code: Option<i32>,
}

impl Cause {
    // Of a call by its name.
    pub(crate) fn of(call: &'static str, subject: Subject, error: &io::Error) -> Cause {
        Cause {
            call,
            subject,
            kind: error.kind(),
            code: error.raw_os_error(),
        }
    }

    /// Writes `ipstore: CALL SUBJECT: WHY` and a line feed. The call is `open`, `length`, `read`, `write`, `sync`, `remove`, `settle` or `start`.
    pub fn put_line(&self, out: &mut Vec<u8>) -> Result<(), Memory> {
        out.extend_from_slice(b"ipstore: ")?;
        out.extend_from_slice(self.call_shown().as_bytes())?;
        out.push(b' ')?;
        self.put_subject(out)?;
        out.extend_from_slice(b": ")?;
        self.put_why(out)?;
        Ok(out.push(b'\n')?)
    }

    // Files are opened by the call that needs them first, so these faults of it are those of opening.
    fn call_shown(&self) -> &'static str {
        let is_of_file = matches!(self.subject, Subject::File(_)) && self.call != "remove";
        if self.call == "sync" && self.kind == ErrorKind::ReadOnlyFilesystem {
            return self.call;
        }
        if is_of_file && (is_of_opening(self.kind) || self.is_of_too_many()) {
            return "open";
        }
        self.call
    }

    fn put_subject(&self, out: &mut Vec<u8>) -> Result<(), Memory> {
        let text: &[u8] = match self.subject {
            Subject::Folder => b"folder",
            Subject::File(file) => return put_file(file, out),
            Subject::Input => b"input",
            Subject::Output => b"output",
            Subject::Child => b"child",
        };
        Ok(out.extend_from_slice(text)?)
    }

    fn put_why(&self, out: &mut Vec<u8>) -> Result<(), Memory> {
        match self.code {
            Some(code) if self.kind == ErrorKind::Uncategorized => put_code(code, out),
            _ => Ok(out.extend_from_slice(self.why().as_bytes())?),
        }
    }

    fn why(&self) -> &'static str {
        match self.kind {
            ErrorKind::NotFound if self.subject == Subject::Folder => "no such folder",
            ErrorKind::NotFound => "no such file",
            ErrorKind::PermissionDenied => "no permission",
            ErrorKind::WouldBlock if self.subject == Subject::File(FileName::Control) => {
                "another process serves this store"
            }
            ErrorKind::WouldBlock if self.subject == Subject::Child => "too many processes",
            ErrorKind::WouldBlock => "it would have to wait",
            ErrorKind::NotADirectory => "not a folder",
            ErrorKind::IsADirectory => "a folder stands there",
            ErrorKind::FilesystemLoop => "a link stands there",
            ErrorKind::ReadOnlyFilesystem => "read-only file system",
            ErrorKind::StorageFull => "no space left",
            other => rarer(other),
        }
    }

    fn is_of_too_many(&self) -> bool {
        self.code == Some(TOO_MANY) || self.code == Some(TOO_MANY_IN_ALL)
    }
}

// Linux's number where a process has too many files open, and where the whole system has.
const TOO_MANY: i32 = 24;

const TOO_MANY_IN_ALL: i32 = 23;

// Whether it is a fault that opening a file gives, and no call on one that is open.
fn is_of_opening(kind: ErrorKind) -> bool {
    matches!(
        kind,
        ErrorKind::NotFound
            | ErrorKind::PermissionDenied
            | ErrorKind::WouldBlock
            | ErrorKind::NotADirectory
            | ErrorKind::IsADirectory
            | ErrorKind::FilesystemLoop
            | ErrorKind::NotSeekable
            | ErrorKind::ReadOnlyFilesystem
    )
}

fn rarer(kind: ErrorKind) -> &'static str {
    match kind {
        ErrorKind::QuotaExceeded => "quota exceeded",
        ErrorKind::FileTooLarge => "past the limit of a file's size",
        ErrorKind::InvalidFilename => "the name is too long",
        ErrorKind::BrokenPipe => "nobody reads it",
        ErrorKind::OutOfMemory => "want of memory",
        ErrorKind::ResourceBusy => "in use",
        ErrorKind::ExecutableFileBusy => "the program is being written",
        ErrorKind::ArgumentListTooLong => "the words are too long",
        ErrorKind::StaleNetworkFileHandle => "the network's file is gone",
        ErrorKind::InvalidInput => "not possible there",
        ErrorKind::NotSeekable => "no plain file stands there",
        ErrorKind::AlreadyExists => "another file stands there",
        _ => "it failed",
    }
}

fn put_file(file: FileName, out: &mut Vec<u8>) -> Result<(), Memory> {
    let name = file_name(*out.allocator(), file)?;
    Ok(out.extend_from_slice(name.as_bytes())?)
}

// A fault by its number alone.
fn put_code(code: i32, out: &mut Vec<u8>) -> Result<(), Memory> {
    match code {
        TOO_MANY => Ok(out.extend_from_slice(b"too many open files")?),
        TOO_MANY_IN_ALL => Ok(out.extend_from_slice(b"too many open files in the system")?),
        5 => Ok(out.extend_from_slice(b"the device failed")?),
        9 => Ok(out.extend_from_slice(b"it is closed")?),
        37 => Ok(out.extend_from_slice(b"no lock is to be had")?),
        _ => {
            let text = format!(in *out.allocator(); "error {code}")?;
            Ok(out.extend_from_slice(text.as_bytes())?)
        }
    }
}
