// What the store's files are called, and where they are.
ghost use Rattle.std.specs.Prelude.{◌≡◌, ◌++◌, ◌∷◌, IfOk, string_bytes};
ghost use Rattle.ip_host.specs.Names.{slash, file_text};

use ip_ground::FileName;
use std::alloc::{AllocError, Global};

/// What the file is called in the store's folder: a word, and its number in decimal digits where it has one.
pub fn file_name(alloc: Global, file: FileName) -> Result<String, AllocError>
    ensures { IfOk result (λ name. string_bytes name ≡ file_text file) }
{
    match file {
        FileName::Control => String::from_str(alloc, "control"),
        FileName::Chunk(number) => format!(in alloc; "chunk.{number}"),
        FileName::Prefix(attempt) => format!(in alloc; "prefix.{attempt}"),
        FileName::Mapping(attempt) => format!(in alloc; "mapping.{attempt}"),
        FileName::Done(attempt) => format!(in alloc; "done.{attempt}"),
    }
}

/// The path of a file of the store in this folder.
pub fn path_of(alloc: Global, dir: &str, file: FileName) -> Result<String, AllocError>
    ensures { IfOk result (λ path. string_bytes path ≡ dir.now ++ slash ∷ file_text file) }
{
    let name = file_name(alloc, file)?;
    format!(in alloc; "{dir}/{name}")
}
