// A text, line by line.
use crate::directive::Directive;
use crate::names::{Names, number};
use crate::words::directive_of;
use std::alloc::Global;
use std::test::Fail;

/// What plays the lines of a text, in order.
pub trait Play {
    /// A line behind `% `, but for loops and names.
    fn direct(&mut self, directive: Directive) -> Result<(), Fail>;

    /// A line behind `> `.
    fn ask(&mut self, line: &str) -> Result<(), Fail>;

    /// A reply, and its line in the text.
    fn reply(&mut self, line: &str, at: u64) -> Result<(), Fail>;

    /// The text is at its end.
    fn end(&mut self) -> Result<(), Fail>;
}

// Lines that are taken again for each number between two.
#[derive(Drop)]
struct Loop {
    word: String,
    first: String,
    last: String,
    // the line in which it begins
    at: u64,
    lines: String,
}

// A loop, if this begins one.
fn loop_of(alloc: Global, line: &str, at: u64) -> Result<Option<Loop>, Fail> {
    let Some(words) = line.strip_prefix("% for ") else {
        return Ok(None);
    };
    let mut words = words.split_whitespace();
    let (Some(word), Some(first), Some(last)) = (words.next(), words.next(), words.next()) else {
        return Err("a loop has a word and two numbers")?;
    };
    Ok(Some(Loop {
        word: String::from_str(alloc, word)?,
        first: String::from_str(alloc, first)?,
        last: String::from_str(alloc, last)?,
        at,
        lines: String::new(alloc),
    }))
}

// The number that digits spell, zeros in front of it among them.
fn bound_of(digits: &str) -> Result<u64, Fail> {
    match digits.trim_start_matches('0') {
        "" => Ok(0),
        rest => number(rest),
    }
}

// The digits of a number, with zeros in front up to so many.
fn digits_of(alloc: Global, value: u64, width: usize) -> Result<String, Fail> {
    let digits = format!(in alloc; "{value}")?;
    let mut out = String::new(alloc);
    for _ in digits.len()..width {
        out.push('0')?;
    }
    out.push_str(&digits)?;
    Ok(out)
}

// Where a text is: names, and the line that was taken last.
#[derive(Drop)]
struct Reader {
    alloc: Global,
    names: Names,
    at: u64,
}

impl Reader {
    // Takes a line that begins and ends no loop.
    fn take<P: Play>(&mut self, player: &mut P, line: &str) -> Result<(), Fail> {
        if line.is_empty() || line.starts_with('#') {
            return Ok(());
        }
        let line = self.names.expanded(line)?;
        if let Some(words) = line.strip_prefix("% ") {
            return match directive_of(self.alloc, words)? {
                Directive::Let(word, text) => self.names.set(&word, &text),
                directive => player.direct(directive),
            };
        }
        match line.strip_prefix("> ") {
            Some(asked) => player.ask(asked),
            None => player.reply(&line, self.at),
        }
    }

    // Takes the lines of a loop once.
    fn take_all<P: Play>(&mut self, player: &mut P, round: &Loop) -> Result<(), Fail> {
        self.at = round.at;
        for line in round.lines.lines() {
            self.at = self.at.saturating_add(1);
            self.take(player, line)?;
        }
        Ok(())
    }

    // Takes the lines of a loop again and again, up or down.
    fn go_round<P: Play>(&mut self, player: &mut P, round: &Loop) -> Result<(), Fail> {
        let (first, last) = (bound_of(&round.first)?, bound_of(&round.last)?);
        let width = round.first.len().min(round.last.len());
        let count = first.max(last).saturating_sub(first.min(last));
        for step in 0..=count {
            let value = if first <= last {
                first.saturating_add(step)
            } else {
                first.saturating_sub(step)
            };
            let digits = digits_of(self.alloc, value, width)?;
            self.names.set(&round.word, &digits)?;
            self.take_all(player, round)?;
        }
        Ok(())
    }

    // Plays all lines of a text.
    fn play<P: Play>(&mut self, text: &str, player: &mut P) -> Result<(), Fail> {
        let mut round: Option<Loop> = None;
        for line in text.lines() {
            self.at = self.at.saturating_add(1);
            match round.take() {
                Some(begun) if line == "% end" => {
                    let end = self.at;
                    self.go_round(player, &begun)?;
                    self.at = end;
                }
                Some(mut begun) => {
                    begun.lines.push_str(line)?;
                    begun.lines.push('\n')?;
                    round = Some(begun);
                }
                None => match loop_of(self.alloc, line, self.at)? {
                    Some(begun) => round = Some(begun),
                    None => self.take(player, line)?,
                },
            }
        }
        player.end()
    }
}

/// Plays all lines of a text. The line that was taken last stands in `at`, counted from 1, also where something is not as it has to be.
pub fn play_lines<P: Play>(
    alloc: Global,
    text: &str,
    at: &mut u64,
    player: &mut P,
) -> Result<(), Fail> {
    let mut reader = Reader {
        alloc,
        names: Names::new(alloc),
        at: 0,
    };
    let played = reader.play(text, player);
    *at = reader.at;
    played
}
