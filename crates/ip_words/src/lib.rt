//! The words of a call of the program, as clap reads them: `init DIR [--chunk N]`, `serve DIR`, `worker DIR J1 J2 J3 J4 J5 J6 J7 J8` and
//! `load DIR SEED COUNT`.
#![tactic(auto)]

ghost use Rattle.std.specs.Prelude.{◌≡◌, ◌≤◌, ℕ, [], ◌∷◌, ◌++◌, List, IfOk, IfSome, IfNone, Some, option_map, codes, false};
ghost use Rattle.std.specs.Fmt.{decimal};
ghost use Rattle.clap.specs.Words.{App, app_of, rule_of, with_rule, subcommand_rows_of, found_of, rows_of, first_of};
ghost use Rattle.ip_spawn.specs.Jobs.{IsValid, numbers_of};
ghost use Rattle.ip_spawn.specs.Sizes.{IsChunkSize};
ghost use Rattle.ip_spawn.specs.Spelling.{Spells};
ghost use Rattle.ip_spawn.specs.declared.job.Job.{Job};
ghost use Rattle.ip_spec.specs.Path.{Bytes};
ghost use Rattle.ip_words.specs.Words.{needed_rule, job_words, init_line, serve_line, worker_line, load_line, command_line, texts_of, IsLine, IsNumber, AreNumbers, AreSpelled, IsRead, IsReadBy, Asked, Asks, AsksNothing, making, serving, working, loading};
ghost use Rattle.ip_words.specs.declared.TheConstants.{LOAD_MAX};

use clap::error::ErrorKind;
use clap::{Arg, ArgMatches, Command};
use ip_base::Memory;
use ip_spawn::{Job, chunk_allowed};
use std::alloc::{AllocError, Global};

/// The most lines of a load: their replies are counted, and a million are run in minutes.
pub const LOAD_MAX: u64 = 1000000;

/// The words of the calls, for who gave others: a line for each call.
pub const USAGE: &str = "\
usage: ipstore init DIR [--chunk N]
       ipstore serve DIR
       ipstore load DIR SEED COUNT
       ipstore worker DIR ATTEMPT HORIZON END CHUNK LIVE OLD-HORIZON PREFIX ROWS
       ipstore --help
       ipstore --version
";

/// What a call of the program is for.
#[derive(Clone, Copy, Debug, PartialEq, Eq)]
pub enum Call<'a> {
    /// Makes a store in the folder, with chunks of so many bytes.
    Init {
        folder: &'a str,
        chunk: u64,
    },
    /// Serves the store in the folder.
    Serve {
        folder: &'a str,
    },
    /// Writes the pair of the job in the folder, as the child of a collection does.
    Worker {
        folder: &'a str,
        job: Job,
    },
    /// Runs so many lines of the load from this seed on over the store in the folder.
    Load {
        folder: &'a str,
        seed: u64,
        count: u64,
    },
}

// A word that has to be there.
fn needed<'a>(alloc: Global, name: &'a str) -> Arg<'a>
    ensures rule { rule_of result ≡ needed_rule name.now }
    ensures local { result.global ≡ false }
{
    Arg::new(alloc, name).required(true)
}

fn init_line<'a>(alloc: Global) -> Result<Command<'a>, AllocError>
    ensures { IfOk result (IsLine init_line) }
{
    let chunk = Arg::new(alloc, "chunk")
        .long("chunk")
        .default_value("1048576");
    Command::new(alloc, "init")
        .arg(needed(alloc, "DIR"))?
        .arg(chunk)
}

fn serve_line<'a>(alloc: Global) -> Result<Command<'a>, AllocError>
    ensures { IfOk result (IsLine serve_line) }
{
    Command::new(alloc, "serve").arg(needed(alloc, "DIR"))
}

fn worker_line<'a>(alloc: Global) -> Result<Command<'a>, AllocError>
    ensures { IfOk result (IsLine worker_line) }
{
    Command::new(alloc, "worker")
        .arg(needed(alloc, "DIR"))?
        .arg(needed(alloc, "J1"))?
        .arg(needed(alloc, "J2"))?
        .arg(needed(alloc, "J3"))?
        .arg(needed(alloc, "J4"))?
        .arg(needed(alloc, "J5"))?
        .arg(needed(alloc, "J6"))?
        .arg(needed(alloc, "J7"))?
        .arg(needed(alloc, "J8"))
}

fn load_line<'a>(alloc: Global) -> Result<Command<'a>, AllocError>
    ensures { IfOk result (IsLine load_line) }
{
    Command::new(alloc, "load")
        .arg(needed(alloc, "DIR"))?
        .arg(needed(alloc, "SEED"))?
        .arg(needed(alloc, "COUNT"))
}

// The command line that clap reads.
fn command_line<'a>(alloc: Global) -> Result<Command<'a>, AllocError>
    ensures { IfOk result (λ command. app_of command ≡ command_line) }
{
    Command::new(alloc, "ipstore")
        .subcommand(init_line(alloc)?)?
        .subcommand(serve_line(alloc)?)?
        .subcommand(worker_line(alloc)?)?
        .subcommand(load_line(alloc)?)
}

// The text that was found of an argument.
fn text_of<'a>(found: &ArgMatches<'a>, id: &str) -> Option<&'a str>
    ensures { option_map (λ text. text.now) result ≡ first_of id.now (rows_of (found_of found.now)) }
{
    found.get_str(id)
}

// The number that was found of an argument.
fn number_of(found: &ArgMatches<'_>, id: &str) -> Option<u64>
    ensures some { IfSome result (IsNumber (rows_of (found_of found.now)) id.now) }
    ensures none { IfNone result ((n : ℕ) → ¬ IsNumber (rows_of (found_of found.now)) id.now n) }
{
    Job::number(text_of(found, id)?)
}

fn init_in<'a>(found: &ArgMatches<'a>) -> Option<Call<'a>>
    ensures { IsReadBy (Some (codes "init", rows_of (found_of found.now))) result }
{
    let folder = text_of(found, "DIR")?;
    let chunk = number_of(found, "chunk")?;
    if !chunk_allowed(chunk) {
        return None;
    }
    Some(Call::Init { folder, chunk })
}

fn serve_in<'a>(found: &ArgMatches<'a>) -> Option<Call<'a>>
    ensures { IsReadBy (Some (codes "serve", rows_of (found_of found.now))) result }
{
    let folder = text_of(found, "DIR")?;
    Some(Call::Serve { folder })
}

// The job that a collector is given.
fn job_in(found: &ArgMatches<'_>) -> Option<Job>
    ensures some { IfSome result (λ job. AreNumbers (rows_of (found_of found.now)) job_words (numbers_of job) × IsValid job) }
    ensures none { IfNone result ((job : Job) → AreNumbers (rows_of (found_of found.now)) job_words (numbers_of job) → ¬ IsValid job) }
{
    let job = Job::of([
        number_of(found, "J1")?,
        number_of(found, "J2")?,
        number_of(found, "J3")?,
        number_of(found, "J4")?,
        number_of(found, "J5")?,
        number_of(found, "J6")?,
        number_of(found, "J7")?,
        number_of(found, "J8")?,
    ]);
    if !job.valid() {
        return None;
    }
    Some(job)
}

fn worker_in<'a>(found: &ArgMatches<'a>) -> Option<Call<'a>>
    ensures { IsReadBy (Some (codes "worker", rows_of (found_of found.now))) result }
{
    let folder = text_of(found, "DIR")?;
    let job = job_in(found)?;
    Some(Call::Worker { folder, job })
}

fn load_in<'a>(found: &ArgMatches<'a>) -> Option<Call<'a>>
    ensures { IsReadBy (Some (codes "load", rows_of (found_of found.now))) result }
{
    let folder = text_of(found, "DIR")?;
    let seed = number_of(found, "SEED")?;
    let count = number_of(found, "COUNT")?;
    if count < 1 || count > LOAD_MAX {
        return None;
    }
    Some(Call::Load {
        folder,
        seed,
        count,
    })
}

// A subcommand with its arguments.
fn call_in<'a>(matches: &ArgMatches<'a>) -> Option<Call<'a>>
    ensures { IsReadBy (subcommand_rows_of matches.now) result }
{
    let Some((word, found)) = matches.subcommand() else {
        return None;
    };
    if word == "init" {
        return init_in(found);
    }
    if word == "serve" {
        return serve_in(found);
    }
    if word == "worker" {
        return worker_in(found);
    }
    if word == "load" {
        return load_in(found);
    }
    None
}

/// What the words of a call ask for, the program's name first. Nothing where clap refuses them or answers them by its help, or where a number has
/// a zero in front or does not fit into 64 bits, N is no size that chunks may have, COUNT is none of 1 to `LOAD_MAX`, or no collector may be given
/// the job.
pub fn asked<'a>(alloc: Global, words: &'a [String]) -> Result<Option<Call<'a>>, Memory>
    ensures { IfOk result (IsRead (texts_of words.now)) }
{
    let command = command_line(alloc)?;
    match command.try_get_matches_from(words) {
        Ok(matches) => Ok(call_in(&matches)),
        Err(error) => {
            if error.kind() == ErrorKind::OutOfMemory {
                return Err(Memory);
            }
            Ok(None)
        }
    }
}

/// A law, which does nothing when it is called: words ask for one thing, and for chunks of a size and a job and a number of lines that are allowed.
pub fn one_call()
    ensures one { (words : List Bytes) (a b : Asked) → Asks words a → Asks words b → a ≡ b }
    ensures allowed { (words : List Bytes) (folder : Bytes) (chunk : ℕ) → Asks words (making folder chunk) → IsChunkSize chunk }
    ensures valid { (words : List Bytes) (folder : Bytes) (job : Job) → Asks words (working folder job) → IsValid job }
    ensures counted { (words : List Bytes) (folder : Bytes) (seed count : ℕ) → Asks words (loading folder seed count) → (1 ≤ count) × (count ≤ LOAD_MAX) }
    ensures most { LOAD_MAX ≡ 1000000 }
{}

/// A law, which does nothing when it is called: what the plain forms ask for, where the folder's name has bytes and does not begin with a dash (45),
/// and words that ask for nothing.
pub fn plain_words()
    ensures serve { (program : Bytes) (c : ℕ) (rest : Bytes) → ¬ (c ≡ 45) →
        Asks (program ∷ codes "serve" ∷ (c ∷ rest) ∷ []) (serving (c ∷ rest)) }
    ensures init { (program : Bytes) (c : ℕ) (rest : Bytes) → ¬ (c ≡ 45) →
        Asks (program ∷ codes "init" ∷ (c ∷ rest) ∷ []) (making (c ∷ rest) 1048576) }
    ensures behind { (program : Bytes) (c : ℕ) (rest : Bytes) (chunk : ℕ) → ¬ (c ≡ 45) → IsChunkSize chunk →
        Asks (program ∷ codes "init" ∷ (c ∷ rest) ∷ codes "--chunk" ∷ decimal chunk ∷ []) (making (c ∷ rest) chunk) }
    ensures before { (program : Bytes) (c : ℕ) (rest : Bytes) (chunk : ℕ) → ¬ (c ≡ 45) → IsChunkSize chunk →
        Asks (program ∷ codes "init" ∷ codes "--chunk" ∷ decimal chunk ∷ (c ∷ rest) ∷ []) (making (c ∷ rest) chunk) }
    ensures worker { (program : Bytes) (c : ℕ) (rest : Bytes) (words : List Bytes) (job : Job) → ¬ (c ≡ 45) → AreSpelled words (numbers_of job) → IsValid job →
        Asks (program ∷ codes "worker" ∷ (c ∷ rest) ∷ words) (working (c ∷ rest) job) }
    ensures load { (program : Bytes) (c : ℕ) (rest : Bytes) (first second : Bytes) (seed count : ℕ) → ¬ (c ≡ 45) →
        Spells first seed → Spells second count → 1 ≤ count → count ≤ LOAD_MAX →
        Asks (program ∷ codes "load" ∷ (c ∷ rest) ∷ first ∷ second ∷ []) (loading (c ∷ rest) seed count) }
    ensures none { AsksNothing [] }
    ensures program { (program : Bytes) → AsksNothing (program ∷ []) }
    ensures help { (program : Bytes) → AsksNothing (program ∷ codes "--help" ∷ []) }
{}
