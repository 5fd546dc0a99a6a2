// The program over texts.
use crate::player::play_text;
use std::io::BufRead;
use std::process::{ExitCode, Termination};
use std::test::Fail;
use std::{env, fs, io};

// Plays the text of a file.
fn play(rt: &HostRuntime, name: &str, at: &mut u64) -> Result<(), Fail> {
    let text = fs::read_to_string(rt, name)?;
    play_text(rt.alloc(), &text, at)
}

// Plays a text and says how that went. Whether it went as it has to.
fn is_well(rt: &HostRuntime, name: &str) -> bool {
    let mut at = 0;
    let played = play(rt, name, &mut at);
    if played.is_ok() {
        let _ = println!(rt; "{name}");
    } else {
        let _ = println!(rt; "{name}: line {at}");
        let _ = eprint!(rt; "{name}: line {at}: ");
    }
    let well = played.is_ok();
    let _ = played.report(rt);
    well
}

// Plays those whose names stand on standard input.
fn is_all_well(rt: &HostRuntime) -> bool {
    let mut well = true;
    for line in rt.lines(rt.alloc()) {
        well = match line {
            Ok(name) => is_well(rt, &name) && well,
            Err(_) => false,
        };
    }
    well
}

// The texts that the words of the call name.
fn named(rt: &HostRuntime) -> io::Result<Vec<String>> {
    let mut names = Vec::new(rt.alloc());
    for word in env::args(rt)?.skip(1) {
        names.push(word)?;
    }
    Ok(names)
}

/// Plays each text that a word of the call names, or each whose name stands on standard input, a line each, where there is no word. It says a text's name
/// where all went as the text says, and else besides at which line it did not. Name, line and why stand on standard error, and the exit status is 1 then.
pub fn play_texts(rt: &HostRuntime) -> ExitCode {
    let Ok(names) = named(rt) else {
        return ExitCode::from(2);
    };
    let mut well = true;
    for name in &names {
        well = is_well(rt, name) && well;
    }
    if names.is_empty() {
        well = is_all_well(rt);
    }
    ExitCode::from(if well { 0 } else { 1 })
}
