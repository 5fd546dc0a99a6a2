// Which line is which command.
ghost use Rattle.std.specs.Prelude.{◌≡◌, ◌⊎◌, ◌≢◌, ℕ, [], Err, IfOk, IsOk, IsFalse, ◌==◌};
ghost use Rattle.std.specs.List.{list_any};
ghost use Rattle.ip_base.specs.PathText.{space};
ghost use Rattle.ip_spec.specs.Path.{Bytes};
ghost use Rattle.ip_spec.specs.declared.command.Command.{Command};
ghost use Rattle.ip_spec.specs.declared.command.LineFault.TheVariants as LineFault;
ghost use Rattle.ip_spec.specs.Line.{Reads, IsBadAt, IsLineOf};
ghost use Rattle.ip_script.specs.Fields.{reach};
ghost use Rattle.ip_script.specs.Frugal.{IsFrugal};
ghost use Rattle.ip_script.specs.Forms.{word_of, fields_of, command_at};
ghost use Rattle.ip_script.specs.Words.{left_of};
ghost use Rattle.ip_script.specs.declared.line.Form.TheVariants as Form;

use crate::field::{Field, field_length, is_whole};
use crate::words::Words;
use ip_base::Memory;
use ip_spec::command::{Command, LineFault};
use std::alloc::Global;

/// The commands, by the form of their lines.
#[derive(Clone, Copy, Debug, PartialEq, Eq)]
enum Form {
    Empty,
    Checkout,
    Set,
    Rm,
    Graft,
    Parent,
    Get,
    List,
    Cat,
    Commit,
    Merge,
    Branch,
    BranchRm,
    Branches,
    Show,
    Log,
    Lcas,
    Hash,
    Collect,
    Look,
    Finish,
    Cancel,
    Stat,
}

const FORMS: [Form; 23] = [
    Form::Empty,
    Form::Checkout,
    Form::Set,
    Form::Rm,
    Form::Graft,
    Form::Parent,
    Form::Get,
    Form::List,
    Form::Cat,
    Form::Commit,
    Form::Merge,
    Form::Branch,
    Form::BranchRm,
    Form::Branches,
    Form::Show,
    Form::Log,
    Form::Lcas,
    Form::Hash,
    Form::Collect,
    Form::Look,
    Form::Finish,
    Form::Cancel,
    Form::Stat,
];

impl Form {
    fn word(self) -> &'static [u8]
        ensures { result.now ≡ word_of self }
    {
        match self {
            Form::Empty => b"empty",
            Form::Checkout => b"checkout",
            Form::Set => b"set",
            Form::Rm => b"rm",
            Form::Graft => b"graft",
            Form::Parent => b"parent",
            Form::Get => b"get",
            Form::List => b"list",
            Form::Cat => b"cat",
            Form::Commit => b"commit",
            Form::Merge => b"merge",
            Form::Branch => b"branch",
            Form::BranchRm => b"branch-rm",
            Form::Branches => b"branches",
            Form::Show => b"show",
            Form::Log => b"log",
            Form::Lcas => b"lcas",
            Form::Hash => b"hash",
            Form::Collect => b"collect",
            Form::Look => b"look",
            Form::Finish => b"finish",
            Form::Cancel => b"cancel",
            Form::Stat => b"stat",
        }
    }

    fn fields(self) -> &'static [Field]
        ensures { result.now ≡ fields_of self }
    {
        match self {
            Form::Empty => &[],
            Form::Checkout => &[Field::Reference],
            Form::Set => &[Field::Path, Field::Hex],
            Form::Rm => &[Field::Path],
            Form::Graft => &[Field::Reference, Field::Place, Field::Path],
            Form::Parent => &[Field::Reference],
            Form::Get => &[Field::Path],
            Form::List => &[Field::Place],
            Form::Cat => &[Field::Reference, Field::Path],
            Form::Commit => &[Field::Name, Field::Date, Field::Author, Field::Message],
            Form::Merge => &[
                Field::Reference,
                Field::Name,
                Field::Date,
                Field::Author,
                Field::Message,
            ],
            Form::Branch => &[Field::Name, Field::Reference],
            Form::BranchRm => &[Field::Name],
            Form::Branches => &[],
            Form::Show => &[Field::Reference],
            Form::Log => &[Field::Reference],
            Form::Lcas => &[Field::Reference, Field::Reference],
            Form::Hash => &[Field::Hex],
            Form::Collect => &[Field::Reference],
            Form::Look => &[],
            Form::Finish => &[],
            Form::Cancel => &[],
            Form::Stat => &[],
        }
    }
}

/// How far a line goes along with a form, and whether it is of it.
#[derive(Clone, Copy, Debug, PartialEq, Eq)]
struct Fit {
    at: usize,
    whole: bool,
}

// How far the line goes along with a word and the fields behind it.
fn reach(word: &[u8], fields: &[Field], line: &[u8]) -> Fit
    ensures { result ≡ reach word.now fields.now line.now }
{
    let mut at = 0;
    while at < word.len() {
        if at >= line.len() || line[at] != word[at] {
            return Fit { at, whole: false };
        }
        at += 1;
    }
    for field in fields {
        if at >= line.len() || line[at] != b' ' {
            return Fit { at, whole: false };
        }
        let text = &line[at + 1..];
        let length = field_length(*field, text);
        at += 1 + length;
        if !is_whole(*field, text, length) {
            return Fit { at, whole: false };
        }
    }
    Fit {
        at,
        whole: at == line.len(),
    }
}

// The command of the words behind the first one.
fn command_of(alloc: Global, form: Form, text: &[u8]) -> Result<Command, Memory>
    ensures command { IfOk result (λ command. command ≡ command_at form text.now) }
    ensures no_words { fields_of form ≡ [] → IsOk result }
    ensures spare { IsFrugal (command_at form text.now) → IsOk result }
{
    let mut words = Words::new(text);
    match form {
        Form::Empty => Ok(Command::Empty),
        Form::Checkout => Ok(Command::Checkout(words.target(alloc)?)),
        Form::Set => Ok(Command::Set {
            path: words.path(alloc)?,
            contents: words.contents(alloc)?,
        }),
        Form::Rm => Ok(Command::Rm(words.path(alloc)?)),
        Form::Graft => graft_of(alloc, words),
        Form::Parent => Ok(Command::Parent(words.target(alloc)?)),
        Form::Get => Ok(Command::Get(words.path(alloc)?)),
        Form::List => Ok(Command::List(words.place(alloc)?)),
        Form::Cat => cat_of(alloc, words),
        Form::Commit => Ok(Command::Commit {
            branch: words.text(alloc, Field::Name)?,
            info: words.info(alloc)?,
        }),
        Form::Merge => merge_of(alloc, words),
        Form::Branch => Ok(Command::Branch {
            name: words.text(alloc, Field::Name)?,
            target: words.target(alloc)?,
        }),
        Form::BranchRm => Ok(Command::BranchRm(words.text(alloc, Field::Name)?)),
        Form::Branches => Ok(Command::Branches),
        Form::Show => Ok(Command::Show(words.target(alloc)?)),
        Form::Log => Ok(Command::Log(words.target(alloc)?)),
        Form::Lcas => lcas_of(alloc, words),
        Form::Hash => Ok(Command::Hash(words.contents(alloc)?)),
        Form::Collect => Ok(Command::Collect(words.target(alloc)?)),
        Form::Look => Ok(Command::Look),
        Form::Finish => Ok(Command::Finish),
        Form::Cancel => Ok(Command::Cancel),
        Form::Stat => Ok(Command::Stat),
    }
}

fn graft_of(alloc: Global, mut words: Words<'_>) -> Result<Command, Memory>
    ensures { IfOk result (λ command. command ≡ command_at Form.Graft (left_of words.entry)) }
{
    Ok(Command::Graft {
        target: words.target(alloc)?,
        from: words.place(alloc)?,
        to: words.path(alloc)?,
    })
}

fn cat_of(alloc: Global, mut words: Words<'_>) -> Result<Command, Memory>
    ensures { IfOk result (λ command. command ≡ command_at Form.Cat (left_of words.entry)) }
{
    Ok(Command::Cat {
        target: words.target(alloc)?,
        path: words.path(alloc)?,
    })
}

fn merge_of(alloc: Global, mut words: Words<'_>) -> Result<Command, Memory>
    ensures { IfOk result (λ command. command ≡ command_at Form.Merge (left_of words.entry)) }
{
    let target = words.target(alloc)?;
    let branch = words.text(alloc, Field::Name)?;
    Ok(Command::Merge {
        target,
        branch,
        info: words.info(alloc)?,
    })
}

fn lcas_of(alloc: Global, mut words: Words<'_>) -> Result<Command, Memory>
    ensures command { IfOk result (λ command. command ≡ command_at Form.Lcas (left_of words.entry)) }
    ensures spare { IsFrugal (command_at Form.Lcas (left_of words.entry)) → IsOk result }
{
    Ok(Command::Lcas {
        one: words.target(alloc)?,
        other: words.target(alloc)?,
    })
}

/// The command that a line spells, or how many of its bytes begin one. A line that is no command takes no memory, nor does one of one word, or whose other words are names of commits.
pub fn read_line(alloc: Global, line: &[u8]) -> Result<Command, LineFault>
    ensures reads { Reads IsLineOf line.now result }
    ensures bad { (at : ℕ) → IsBadAt IsLineOf line.now at → result ≡ Err (LineFault.Bad at) }
    ensures one_word { IsFalse (list_any (λ b. b == space) line.now) → result ≢ Err LineFault.Memory }
    ensures spare { (command : Command) → IsLineOf command line.now → IsFrugal command → result ≢ Err LineFault.Memory }
{
    let mut most = 0;
    for form in FORMS {
        let word = form.word();
        let fit = reach(word, form.fields(), line);
        if fit.whole {
            return match command_of(alloc, form, &line[word.len()..]) {
                Ok(command) => Ok(command),
                Err(Memory) => Err(LineFault::Memory),
            };
        }
        most = most.max(fit.at);
    }
    Err(LineFault::Bad(most as u64))
}

/// Each line is of a command or goes wrong at a place. It is of one command at most, and goes wrong at one place at most.
pub fn grammar()
    ensures each { (line : Bytes) → ((command : Command) × IsLineOf command line) ⊎ ((at : ℕ) × IsBadAt IsLineOf line at) }
    ensures one { (line : Bytes) (c d : Command) → IsLineOf c line → IsLineOf d line → c ≡ d }
    ensures place { (line : Bytes) (a b : ℕ) → IsBadAt IsLineOf line a → IsBadAt IsLineOf line b → a ≡ b }
{}
