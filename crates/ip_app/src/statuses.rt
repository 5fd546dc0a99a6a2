// How a call of the program ends.
ghost use Rattle.std.specs.Prelude.{◌≡◌, ◌++◌, ◌∷◌, OnOk, OnErr};
ghost use Rattle.ip_spec.specs.Path.{space};
ghost use Rattle.ip_host.specs.Names.{file_text};
ghost use Rattle.ip_app.specs.Statuses.{code_of, names_text, status_line};

use ip_base::{Hash, Memory};
use ip_ground::FileName;
use ip_host::file_name;
use ip_script::{put_hex, put_number};

/// What a source has too much of.
#[derive(Clone, Copy, Debug, PartialEq, Eq)]
pub enum Bound {
    /// Bytes of a line before its line feed: more than `LONGEST_LINE`.
    Line,
    /// Bytes in all: 2^62.
    Input,
}

/// How a call of the program ends.
#[derive(Clone, Copy, Debug, PartialEq, Eq)]
pub enum Status {
    /// The source was read to its end, the store was made, the job was done, or all lines of the load were run and the summary was said.
    Done,
    /// The words ask for nothing that the program does.
    Usage,
    /// No slot of the control file is open.
    NoStore,
    /// The store's files stand for no repository; the byte `at` of the file is the first that is wrong.
    Damaged { file: FileName, at: u64 },
    /// The files were changed by others while the store was open: at this offset among its records stands none of the kind that stood there.
    DamagedRecord { at: u64 },
    /// The same, but one of another name than the wanted one.
    DamagedName { at: u64, want: Hash, got: Hash },
    /// The files that a job of a collection reads are not whole.
    DamagedJob,
    /// The source could not be read.
    ReadFault,
    /// A reply could not be said, or not all of it; of a load, the summary.
    SayFault,
    /// A file of the store could not be read, written or synced, or its folder could not be bound.
    GroundFault,
    /// There was no memory for a line and its reply, before the first line.
    Memory,
    /// A line or the source is too long.
    Limit(Bound),
    /// The source ended within a line.
    Unfinished,
    /// A store is there already.
    Exists,
}

impl Status {
    /// The program's exit status.
    pub fn code(&self) -> u8
        ensures { result ≡ code_of self.now }
    {
        match self {
            Status::Done => 0,
            Status::Usage => 2,
            Status::NoStore => 3,
            Status::Damaged { .. }
            | Status::DamagedRecord { .. }
            | Status::DamagedName { .. }
            | Status::DamagedJob => 4,
            Status::ReadFault => 5,
            Status::SayFault => 6,
            Status::GroundFault => 7,
            Status::Memory => 8,
            Status::Limit(_) => 9,
            Status::Unfinished => 10,
            Status::Exists => 11,
        }
    }

    /// Writes the line for standard error at the end, with its line feed, if there is one.
    pub fn put_line(&self, out: &mut Vec<u8>) -> Result<(), Memory>
        ensures { OnOk result (out.new.items ≡ out.old.items ++ status_line self.now) }
    {
        let text: &[u8] = match self {
            Status::Done => return Ok(()),
            Status::Damaged { file, at } => return put_damaged(*file, *at, out),
            Status::DamagedRecord { at } => return put_damaged_record(*at, out),
            Status::DamagedName { at, want, got } => {
                return put_damaged_name(*at, want, got, out);
            }
            Status::Usage => b"ipstore: usage\n",
            Status::NoStore => b"ipstore: no store\n",
            Status::DamagedJob => b"ipstore: damaged job\n",
            Status::ReadFault => b"ipstore: read fault\n",
            Status::SayFault => b"ipstore: write fault\n",
            Status::GroundFault => b"ipstore: disk fault\n",
            Status::Memory => b"ipstore: want of memory\n",
            Status::Limit(Bound::Line) => b"ipstore: limit line\n",
            Status::Limit(Bound::Input) => b"ipstore: limit input\n",
            Status::Unfinished => b"ipstore: unfinished line\n",
            Status::Exists => b"ipstore: store exists\n",
        };
        Ok(out.extend_from_slice(text)?)
    }
}

fn put_file(file: FileName, out: &mut Vec<u8>) -> Result<(), Memory>
    ensures { OnOk result (out.new.items ≡ out.old.items ++ file_text file) }
{
    let name = file_name(*out.allocator(), file)?;
    Ok(out.extend_from_slice(name.as_bytes())?)
}

fn put_damaged(file: FileName, at: u64, out: &mut Vec<u8>) -> Result<(), Memory>
    ensures { OnOk result (out.new.items ≡ out.old.items ++ status_line (Status.Damaged file at)) }
{
    out.extend_from_slice(b"ipstore: damaged ")?;
    put_file(file, out)?;
    out.push(b' ')?;
    put_number(at, out)?;
    Ok(out.push(b'\n')?)
}

fn put_damaged_record(at: u64, out: &mut Vec<u8>) -> Result<(), Memory>
    ensures { OnOk result (out.new.items ≡ out.old.items ++ status_line (Status.DamagedRecord at)) }
{
    out.extend_from_slice(b"ipstore: damaged record ")?;
    put_number(at, out)?;
    Ok(out.push(b'\n')?)
}

fn put_names(want: &Hash, got: &Hash, out: &mut Vec<u8>) -> Result<(), Memory>
    ensures { OnOk result (out.new.items ≡ out.old.items ++ names_text want.now got.now) }
{
    put_hex(want.as_slice(), out)?;
    out.push(b' ')?;
    put_hex(got.as_slice(), out)
}

fn put_damaged_name(at: u64, want: &Hash, got: &Hash, out: &mut Vec<u8>) -> Result<(), Memory>
    ensures { OnOk result (out.new.items ≡ out.old.items ++ status_line (Status.DamagedName at want.now got.now)) }
{
    out.extend_from_slice(b"ipstore: damaged name ")?;
    put_number(at, out)?;
    out.push(b' ')?;
    put_names(want, got, out)?;
    Ok(out.push(b'\n')?)
}
