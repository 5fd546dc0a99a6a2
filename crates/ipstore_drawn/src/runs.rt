// Runs of scripts, each against the model.
use crate::children::{Fault, Served};
use crate::drawn::Drawn;
use crate::rows::{number, play, put_all};
use ip_app::{ProgramRules, Status};
use ip_merge::Decides;
use std::alloc::Global;
use std::fs;
use std::test::Fail;

/// All that was said so far, and at which line the last script was answered otherwise.
#[derive(Drop)]
pub struct Runs {
    pub alloc: Global,
    met: Vec<u8>,
    pub at: u64,
}

// How many lines there are.
fn count_lines(bytes: &[u8]) -> u64 {
    let mut count = 0u64;
    for byte in bytes {
        if *byte == b'\n' {
            count = count.saturating_add(1);
        }
    }
    count
}

// How many lines begin so.
fn count_met(bytes: &[u8], word: &str) -> u64 {
    let mut count = 0u64;
    for line in bytes.split(|byte| *byte == b'\n') {
        if line.starts_with(word.as_bytes()) {
            count = count.saturating_add(1);
        }
    }
    count
}

// The script of a kind and a seed, up to a number of lines.
fn drawn_of<D: Decides>(
    alloc: Global,
    text: &str,
    seed: u64,
    most: u64,
    rules: &D,
) -> Result<Drawn, Fail> {
    let mut drawn = Drawn::new(alloc, seed, most);
    play(&mut drawn, text, rules)?;
    Ok(drawn)
}

// What a store has to be answered that is opened again behind so many lines, and the script that asks for it.
fn standing<D: Decides>(
    alloc: Global,
    text: &str,
    seed: u64,
    most: u64,
    rules: &D,
) -> Result<Drawn, Fail> {
    let mut drawn = drawn_of(alloc, text, seed, most, rules)?;
    drawn.begin_again();
    drawn.reopen(None, rules)?;
    put_all(&mut drawn, text, "asked", rules)?;
    Ok(drawn)
}

impl Runs {
    /// Nothing was said.
    pub fn new(alloc: Global) -> Runs {
        Runs {
            alloc,
            met: Vec::new(alloc),
            at: 0,
        }
    }

    /// Does what a row asks for.
    pub fn row(&mut self, rt: &HostRuntime, row: &str) -> Result<(), Fail> {
        let Some((way, rest)) = row.split_once(' ') else {
            return Err("no row")?;
        };
        let Some((kind, rest)) = rest.split_once(' ') else {
            return Err("no kind")?;
        };
        self.at = 0;
        if way == "met" {
            return self.has_met(number(kind)?, rest);
        }
        let name = format!(in self.alloc; "{kind}.txt")?;
        let text = fs::read_to_string(rt, &name)?;
        self.run(way, &text, number(rest)?)
    }

    fn has_met(&self, least: u64, word: &str) -> Result<(), Fail> {
        let count = count_met(&self.met, word);
        if count < least {
            return Err(Fail::new(format_args!("{word:?} came {count} times")));
        }
        Ok(())
    }

    fn run(&mut self, way: &str, text: &str, seed: u64) -> Result<(), Fail> {
        match way {
            "serve" => self.serve(text, seed, &ProgramRules),
            "caller" => self.serve_by_caller(text, seed),
            "fails" => self.fail(text, seed, false),
            "stops" => self.fail(text, seed, true),
            _ => Err("no way")?,
        }
    }

    // What was said is a front of these replies. The first line that has another one is kept.
    fn test_said(&mut self, said: &[u8], replies: &[u8]) -> Result<(), Fail> {
        if replies.starts_with(said) {
            return Ok(());
        }
        let (Ok(said), Ok(replies)) = (str::from_utf8(said), str::from_utf8(replies)) else {
            return Err("a reply is no text")?;
        };
        let mut wants = replies.lines();
        for line in said.lines() {
            self.at = self.at.saturating_add(1);
            let want = wants.next().unwrap_or("nothing");
            if want != line {
                return Err(Fail::new(format_args!("{line:?} in place of {want:?}")));
            }
        }
        Err("the last reply is not whole")?
    }

    /// A script is served to its end, and each line has the model's reply.
    pub fn serve<D: Decides>(&mut self, text: &str, seed: u64, rules: &D) -> Result<(), Fail> {
        let drawn = drawn_of(self.alloc, text, seed, u64::MAX, rules)?;
        let served = drawn.children.served(&drawn.script, Fault::Nothing, rules)?;
        self.test_said(&served.said, &drawn.replies)?;
        self.at = count_lines(&served.said);
        let status = served.status;
        if status != Status::Done || served.said.len() != drawn.replies.len() {
            return Err(Fail::new(format_args!("the script ended by {status:?}")));
        }
        Ok(self.met.extend_from_slice(&served.said)?)
    }

    // A script that a call cuts short, which fails alone or with all behind it, is answered as the model answers it up to there; and opened again, the store has
    // what was acknowledged, or what the line did too that was cut short.
    fn fail(&mut self, text: &str, seed: u64, is_stop: bool) -> Result<(), Fail> {
        let mut drawn = drawn_of(self.alloc, text, seed, u64::MAX, &ProgramRules)?;
        let lines = count_lines(&drawn.replies);
        let call = drawn.draw(lines.saturating_mul(2)).saturating_add(4);
        let fault = if is_stop {
            Fault::Stop(call)
        } else {
            Fault::Call(call)
        };
        let served = drawn.children.served(&drawn.script, fault, &ProgramRules)?;
        self.test_said(&served.said, &drawn.replies)?;
        self.at = count_lines(&served.said);
        self.test_kept(text, seed, served)
    }

    fn test_kept(&mut self, text: &str, seed: u64, served: Served) -> Result<(), Fail> {
        let less = standing(self.alloc, text, seed, self.at, &ProgramRules)?;
        let next = self.at.saturating_add(1);
        let more = standing(self.alloc, text, seed, next, &ProgramRules)?;
        let told = served.told_again(self.alloc, seed % 2 == 0, less.behind())?;
        if told.as_slice() == less.told() || told.as_slice() == more.told() {
            return Ok(self.met.extend_from_slice(&told)?);
        }
        self.test_said(&told, less.told())?;
        Err("another answer")?
    }
}
