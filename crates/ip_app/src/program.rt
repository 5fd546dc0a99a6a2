// The program: its words, its folder, standard input and output.
ghost use Rattle.std.specs.Prelude.{◌↔◌, IsTrue};
ghost use Rattle.ip_words.specs.Words.{texts_of};
ghost use Rattle.ip_app.specs.Working.{NamesWorker};

use crate::calls::run;
use crate::rules::ProgramRules;
use crate::statuses::Status;
use crate::turn_log::Silent;
use ip_base::Memory;
use ip_host::{Cause, Children, Folder, Stdin};
use ip_words::USAGE;
use std::alloc::{AllocError, Global};
use std::env;
use std::io::{ErrorKind, Write};
use std::process::ExitCode;

/// The program's version, as `ipstore --version` tells it.
pub const VERSION: &str = "ipstore 0.1.0\n";

// The words that the program was called by. One that is not UTF-8 is no word of a call.
fn words(rt: &HostRuntime) -> Result<Vec<String>, Status> {
    let words = match env::args(rt) {
        Ok(words) => words,
        Err(error) if error.kind() == ErrorKind::OutOfMemory => return Err(Status::Memory),
        Err(_) => return Err(Status::Usage),
    };
    match words.collect(rt.alloc()) {
        Ok(words) => Ok(words),
        Err(_) => Err(Status::Memory),
    }
}

// The word that the program was called by, by which it starts itself as the child of a collection.
fn program_in(alloc: Global, words: &[String]) -> Result<String, AllocError> {
    match words.first() {
        Some(word) => word.clone(),
        None => Ok(String::new(alloc)),
    }
}

// The folder of a call. The child of a collection works beside the process that started it, which holds the lock.
fn folder_for<'a>(rt: &'a HostRuntime, words: &[String]) -> Folder<&'a HostRuntime>
    ensures beside { IsTrue result.is_beside ↔ NamesWorker (texts_of words.now) }
{
    match words.get(1) {
        Some(word) if word.as_str() == "worker" => Folder::beside(rt, rt.alloc()),
        _ => Folder::new(rt, rt.alloc()),
    }
}

// What a person is told of words that ask for nothing: the version where they ask for that, and else which words there are.
fn put_help(words: &[String], told: &mut Vec<u8>) -> Result<(), Memory> {
    let text = match words.get(1) {
        Some(word) if word.as_str() == "--version" || word.as_str() == "-V" => VERSION,
        _ => USAGE,
    };
    Ok(told.extend_from_slice(text.as_bytes())?)
}

// The line of a status. In front of it stands which words there are, where these were wrong.
fn put_ended(status: &Status, words: &[String], told: &mut Vec<u8>) -> Result<(), Memory> {
    if matches!(status, Status::Usage) {
        put_help(words, told)?;
    }
    status.put_line(told)
}

// Why a call of the system failed, if one did.
fn put_cause(cause: Option<Cause>, told: &mut Vec<u8>) -> Result<(), Memory> {
    match cause {
        Some(cause) => cause.put_line(told),
        None => Ok(()),
    }
}

// Whether the call ended for a fault of the folder, or of output.
fn is_of_folder(status: &Status) -> bool {
    matches!(status, Status::GroundFault | Status::SayFault)
}

// Runs the call that the words ask for, over a folder of the system, standard input and standard output, with children that are processes of the
// system. What a person is told at the end is written into `told`: without the memory for that, as much as there is room for.
fn called(rt: &HostRuntime, told: &mut Vec<u8>) -> Status {
    let words = match words(rt) {
        Ok(words) => words,
        Err(status) => {
            let _ = put_ended(&status, &[], told);
            return status;
        }
    };
    let mut source = Stdin::new(rt.stdin());
    let mut folder = folder_for(rt, &words);
    let Ok(program) = program_in(rt.alloc(), &words) else {
        let _ = Status::Memory.put_line(told);
        return Status::Memory;
    };
    let mut children = Children::new(rt, rt.alloc(), program);
    let status = run(
        rt.alloc(),
        &words,
        &mut source,
        &mut folder,
        &mut children,
        &ProgramRules,
        &mut Silent,
    );
    let _ = put_ended(&status, &words, told);
    let _ = put_cause(source.cause(), told);
    if is_of_folder(&status) {
        let _ = put_cause(folder.cause(), told);
    }
    let _ = put_cause(children.cause(), told);
    status
}

/// The program `ipstore`: runs the call that its words ask for over a folder of the system, standard input and standard output. At the end it writes to
/// standard error the line of its status, if there is one, in front of it the words that there are where these were wrong, and behind it which call of
/// the system failed and why, where one did. The answer is the exit status of that, also where standard error takes nothing.
pub fn run_program(rt: &HostRuntime) -> ExitCode {
    let mut told = Vec::new(rt.alloc());
    let status = called(rt, &mut told);
    let _ = rt.stderr().write_all(&told);
    ExitCode::from(status.code())
}
