// A kind of scripts is a text. Behind `let NAME ` stand words with `|` between them; below `% NAME` stand rows, a line each, up to the next such line. A number
// in front of a row says how often it is among them. A row is one line of a script, or several with ` ; ` between them, and `*N ` in front of one puts it N times.
// `plan` says what a script is: the name of a table puts all its rows, and `NAME*N` puts N that are drawn; `kept`, `synced` and `again` open the store again.
//
// In braces stands what is drawn:
//
//     {NAME}       a word of a list
//     {^NAME}      the same; from here on it stands for {=} too
//     {A|B}        one of these
//     {n}          how often the line was put before, of those by `*`
//     {commit}     the name of a commit, seldom of none
//     {kept}       the same of those that were not given up
//     {date}       a number that grows with each commit
//     {lowest}     the branch that is at the commit of the least number
//     {value N}    the hex digits of N bytes, and of up to 300 more
use crate::drawn::Drawn;
use ip_merge::Decides;
use ip_spawn::Job;
use std::alloc::Global;
use std::test::Fail;

/// The number that a word spells.
pub fn number(word: &str) -> Result<u64, Fail> {
    match Job::number(word) {
        Some(number) => Ok(number),
        None => Err(Fail::new(format_args!("no number: {word:?}"))),
    }
}

// The list of a name; a word that is no name is a list by itself.
fn list_of<'a>(text: &'a str, word: &'a str) -> &'a str {
    for line in text.lines() {
        if let Some(rest) = line.strip_prefix("let ")
            && let Some((name, list)) = rest.split_once(' ')
            && name == word
        {
            return list;
        }
    }
    word
}

// The word of a list at a place.
fn word_at(list: &str, place: u64) -> &str {
    let mut left = place;
    for word in list.split('|') {
        if left == 0 {
            return word;
        }
        left = left.saturating_sub(1);
    }
    ""
}

fn count_words(list: &str) -> u64 {
    let mut count = 0u64;
    for _ in list.split('|') {
        count = count.saturating_add(1);
    }
    count
}

// A word of a list.
fn pick<'a>(drawn: &mut Drawn, text: &'a str, word: &'a str) -> &'a str {
    let list = list_of(text, word);
    let place = drawn.draw(count_words(list));
    word_at(list, place)
}

fn put_value(drawn: &mut Drawn, least: u64, out: &mut String) -> Result<(), Fail> {
    let count = least.saturating_add(drawn.draw(300));
    for _ in 0..count {
        let place = drawn.draw(4);
        out.push_str(word_at("00|1f|a7|e0", place))?;
    }
    Ok(())
}

fn put_number(alloc: Global, number: u64, out: &mut String) -> Result<(), Fail> {
    let digits = format!(in alloc; "{number}")?;
    Ok(out.push_str(&digits)?)
}

// Puts what a word of a list stands for, or a value.
fn put_drawn(drawn: &mut Drawn, text: &str, word: &str, out: &mut String) -> Result<(), Fail> {
    if let Some(least) = word.strip_prefix("value ") {
        return put_value(drawn, number(least)?, out);
    }
    if let Some(word) = word.strip_prefix("^") {
        let item = pick(drawn, text, word);
        drawn.same = String::from_str(drawn.alloc, item)?;
        return Ok(out.push_str(item)?);
    }
    let item = pick(drawn, text, word);
    Ok(out.push_str(item)?)
}

// Puts what stands for a word in braces.
fn put_word(drawn: &mut Drawn, text: &str, word: &str, out: &mut String) -> Result<(), Fail> {
    match word {
        "=" => Ok(out.push_str(&drawn.same)?),
        "n" => put_number(drawn.alloc, drawn.turn, out),
        "date" => put_number(drawn.alloc, drawn.next().saturating_add(100), out),
        "commit" => drawn.put_commit_from(0, out),
        "kept" => drawn.put_commit_from(drawn.floor, out),
        "lowest" => drawn.put_lowest(out),
        _ => put_drawn(drawn, text, word, out),
    }
}

fn expanded(drawn: &mut Drawn, text: &str, line: &str) -> Result<String, Fail> {
    let mut out = String::new(drawn.alloc);
    for piece in line.split('{') {
        match piece.split_once('}') {
            Some((word, rest)) => {
                put_word(drawn, text, word, &mut out)?;
                out.push_str(rest)?;
            }
            None => out.push_str(piece)?,
        }
    }
    Ok(out)
}

// The line with what is drawn in place of braces, also of those that are in what was drawn.
fn line_of(drawn: &mut Drawn, text: &str, line: &str) -> Result<String, Fail> {
    let mut line = String::from_str(drawn.alloc, line)?;
    for _ in 0..5 {
        line = expanded(drawn, text, &line)?;
    }
    Ok(line)
}

fn put_line<D: Decides>(drawn: &mut Drawn, text: &str, line: &str, rules: &D) -> Result<(), Fail> {
    let line = line_of(drawn, text, line)?;
    drawn.put(&line, rules)
}

// Puts a line once, or as often as is said in front of it.
fn put_times<D: Decides>(drawn: &mut Drawn, text: &str, part: &str, rules: &D) -> Result<(), Fail> {
    if let Some(rest) = part.strip_prefix("*")
        && let Some((count, line)) = rest.split_once(' ')
    {
        for turn in 0..number(count)? {
            drawn.turn = turn;
            put_line(drawn, text, line, rules)?;
        }
        return Ok(());
    }
    put_line(drawn, text, part, rules)
}

fn put_row<D: Decides>(drawn: &mut Drawn, text: &str, row: &str, rules: &D) -> Result<(), Fail> {
    for part in row.split(';') {
        put_times(drawn, text, part.trim(), rules)?;
    }
    Ok(())
}

// Puts a row in as often as is said in front of it.
fn push_row<'a>(line: &'a str, rows: &mut Vec<&'a str>) -> Result<(), Fail> {
    if let Some((count, row)) = line.split_once(' ')
        && let Some(count) = Job::number(count)
    {
        for _ in 0..count {
            rows.push(row)?;
        }
        return Ok(());
    }
    Ok(rows.push(line)?)
}

// The rows of a table.
fn rows_of<'a>(alloc: Global, text: &'a str, table: &str) -> Result<Vec<&'a str>, Fail> {
    let mut rows = Vec::new(alloc);
    let mut is_in = false;
    for line in text.lines() {
        if let Some(name) = line.strip_prefix("% ") {
            is_in = name == table;
        } else if is_in && !line.is_empty() {
            push_row(line, &mut rows)?;
        }
    }
    if rows.is_empty() {
        return Err(Fail::new(format_args!("no table {table:?}")));
    }
    Ok(rows)
}

/// Puts all rows of a table, in their order.
pub fn put_all<D: Decides>(
    drawn: &mut Drawn,
    text: &str,
    table: &str,
    rules: &D,
) -> Result<(), Fail> {
    let rows = rows_of(drawn.alloc, text, table)?;
    for row in &rows {
        put_row(drawn, text, row, rules)?;
    }
    Ok(())
}

// Puts so many rows of a table.
fn put_some<D: Decides>(
    drawn: &mut Drawn,
    text: &str,
    table: &str,
    count: u64,
    rules: &D,
) -> Result<(), Fail> {
    let rows = rows_of(drawn.alloc, text, table)?;
    for _ in 0..count {
        let place = drawn.draw(rows.len() as u64) as usize;
        let row = rows.get(place).unwrap_or(&"");
        put_row(drawn, text, row, rules)?;
    }
    Ok(())
}

fn put_step<D: Decides>(drawn: &mut Drawn, text: &str, step: &str, rules: &D) -> Result<(), Fail> {
    if let Some((table, count)) = step.split_once('*') {
        return put_some(drawn, text, table, number(count)?, rules);
    }
    match step {
        "kept" => drawn.reopen(Some(true), rules),
        "synced" => drawn.reopen(Some(false), rules),
        "again" => drawn.reopen(None, rules),
        _ => put_all(drawn, text, step, rules),
    }
}

/// Puts a script of the kind of a text.
pub fn play<D: Decides>(drawn: &mut Drawn, text: &str, rules: &D) -> Result<(), Fail> {
    drawn.children.size = line_of(drawn, text, "{chunk}")?;
    let plan = line_of(drawn, text, "{plan}")?;
    for step in plan.split(' ') {
        put_step(drawn, text, step, rules)?;
    }
    Ok(())
}
