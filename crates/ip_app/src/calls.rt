// The program's calls.
ghost use Rattle.std.specs.Prelude.{◌≡◌, ◌⊎◌, [], ℕ, Bool, None, IsTrue, List};
ghost use Rattle.ip_ground.specs.declared.names.FileName.TheVariants.{Control};
ghost use Rattle.ip_ground.specs.Counts.{NoneFalls};
ghost use Rattle.ip_ground.specs.Told.{ChangesOnly, Only, Reopens};
ghost use Rattle.ip_merge.specs.Rules.{IsDecisive};
ghost use Rattle.ip_spawn.specs.declared.job.Job.{Job};
ghost use Rattle.ip_spec.specs.Machine.{State};
ghost use Rattle.ip_spec.specs.Path.{Bytes};
ghost use Rattle.ip_spec.specs.Script.{Answered};
ghost use Rattle.ip_image.specs.Headline.{AtMoment};
ghost use Rattle.ip_image.specs.Pending.{crash_now};
ghost use Rattle.ip_image.specs.Slot.{IsChunkSize};
ghost use Rattle.ip_words.specs.Words.{Asked, making, serving, working, loading, Asks, AsksNothing, texts_of};
ghost use Rattle.ip_app.specs.Loading.{Loads, LoadsWhereAllIsWell};
ghost use Rattle.ip_app.specs.Outside.{outside, IsBound};
ghost use Rattle.ip_app.specs.Working.{RunsJob};
ghost use Rattle.ip_app.specs.Serving.{CountsOf};
ghost use Rattle.ip_app.specs.Run.{init_status, InitRow, Inits, Serves, EndsAsBytes, EndsWhereAllIsWell, LeavesAll, StandsAgain};

use crate::load::load;
use crate::serve::serve;
use crate::statuses::Status;
use crate::turn_log::Log;
use crate::work::work;
use ip_ground::Ground;
use ip_merge::Decides;
use ip_script::Source;
use ip_spawn::Spawner;
use ip_store::{InitFault, Store};
use ip_words::{Call, asked};
use std::alloc::Global;

// How a call ends that makes a store.
fn init_status(made: Result<(), InitFault>) -> Status
    ensures { result ≡ init_status made }
{
    match made {
        Ok(()) => Status::Done,
        Err(InitFault::Existing) => Status::Exists,
        Err(InitFault::Ground) => Status::GroundFault,
    }
}

// Binds the folder and makes a store in it, with chunks of so many bytes.
fn init<G: Ground>(folder: &str, chunk: u64, ground: &mut G) -> Status
    requires { IsChunkSize chunk }
    ensures only { IsTrue G.tells → ChangesOnly (Only Control) (G.told ground.old) (G.told ground.new) }
    ensures row { InitRow chunk result G.tells (G.told ground.old) (G.told ground.new) }
    ensures counted { CountsOf result (G.counts_of ground.old) (G.counts_of ground.new) }
    ensures bound { IsBound folder.now result (G.counts_of ground.old) (G.counts_of ground.new) }
    ensures counts { NoneFalls (G.counts_of ground.old) (G.counts_of ground.new) }
{
    // A count's range is that of its type, so one that stands at its last value has not fallen.
    let _counts = ground.counts();
    if ground.attach(folder).is_err() {
        return Status::GroundFault;
    }
    init_status(Store::init(ground, chunk))
}

/// Does what the words ask for, the program's name first: `init DIR [--chunk N]` makes a store in the folder DIR, with chunks of N bytes
/// (1048576 where N is not given). `serve DIR` opens the one there, runs each line of the source, a merge by these rules, and says each reply.
/// `worker DIR` with a job's eight numbers does that job of a collection in the folder. `load DIR SEED COUNT` opens the store, runs COUNT generated
/// lines, and says how many of their replies begin with each word, and then the reply of `stat`.
pub fn run<S: Source, G: Ground, P: Spawner, D: Decides, L: Log>(
    alloc: Global,
    words: &[String],
    source: &mut S,
    ground: &mut G,
    spawner: &mut P,
    rules: &D,
    log: &mut L,
) -> Status
    requires child { P.held spawner.old ≡ None }
    ensures none_held { P.held spawner.new ≡ None }
    // Only where the words ask for nothing that the program does; and where they do, it is this, or want of memory, and nothing is changed.
    ensures usage { result ≡ Status.Usage → AsksNothing (texts_of words.now) }
    ensures refused { AsksNothing (texts_of words.now) → (result ≡ Status.Usage) ⊎ (result ≡ Status.Memory) }
    ensures nothing { let told = outside [] S.tells S.left S.read_faults G.tells G.told G.counts_of P.tells P.told P.held P.counts_of L.tells L.turns in
        AsksNothing (texts_of words.now) → LeavesAll (told source.old ground.old spawner.old log.old) (told source.new ground.new spawner.new log.new) }
    ensures init { (folder : Bytes) → let told = outside folder S.tells S.left S.read_faults G.tells G.told G.counts_of P.tells P.told P.held P.counts_of L.tells L.turns in
        (chunk : ℕ) → Asks (texts_of words.now) (making folder chunk) →
        Inits chunk (told source.old ground.old spawner.old log.old) (told source.new ground.new spawner.new log.new) result }
    // Of replies and states it speaks where the rules are known to be decisive, which `decisive` says.
    ensures serve { (folder : Bytes) → let told = outside folder S.tells S.left S.read_faults G.tells G.told G.counts_of P.tells P.told P.held P.counts_of L.tells L.turns in
        Asks (texts_of words.now) (serving folder) → (decisive : Bool) → (IsTrue decisive → IsDecisive (D.rule rules.now)) →
        Serves (D.rule rules.now) decisive (told source.old ground.old spawner.old log.old) (told source.new ground.new spawner.new log.new) result }
    // Where the source tells its bytes, these alone give the status, in whatever pieces they came.
    ensures bytes { (folder : Bytes) → let told = outside folder S.tells S.left S.read_faults G.tells G.told G.counts_of P.tells P.told P.held P.counts_of L.tells L.turns in
        Asks (texts_of words.now) (serving folder) →
        EndsAsBytes (told source.old ground.old spawner.old log.old) result }
    // Where no fault is counted and the store stands, it ends by the script, or for want of memory.
    ensures complete { (folder : Bytes) → let told = outside folder S.tells S.left S.read_faults G.tells G.told G.counts_of P.tells P.told P.held P.counts_of L.tells L.turns in
        Asks (texts_of words.now) (serving folder) → IsDecisive (D.rule rules.now) →
        EndsWhereAllIsWell (told source.old ground.old spawner.old log.old) (told source.new ground.new spawner.new log.new) result }
    ensures worker { (folder : Bytes) → let told = outside folder S.tells S.left S.read_faults G.tells G.told G.counts_of P.tells P.told P.held P.counts_of L.tells L.turns in
        (job : Job) → Asks (texts_of words.now) (working folder job) →
        RunsJob job (told source.old ground.old spawner.old log.old) (told source.new ground.new spawner.new log.new) result }
    ensures load { (folder : Bytes) → let told = outside folder S.tells S.left S.read_faults G.tells G.told G.counts_of P.tells P.told P.held P.counts_of L.tells L.turns in
        (seed count : ℕ) → Asks (texts_of words.now) (loading folder seed count) → (decisive : Bool) → (IsTrue decisive → IsDecisive (D.rule rules.now)) →
        Loads (D.rule rules.now) decisive seed count (told source.old ground.old spawner.old log.old) (told source.new ground.new spawner.new log.new) result }
    // Where no fault is counted and the store stands, all lines are run and the summary is said, or memory was wanting before them.
    ensures load_complete { (folder : Bytes) → let told = outside folder S.tells S.left S.read_faults G.tells G.told G.counts_of P.tells P.told P.held P.counts_of L.tells L.turns in
        (seed count : ℕ) → Asks (texts_of words.now) (loading folder seed count) → IsDecisive (D.rule rules.now) →
        LoadsWhereAllIsWell (told source.old ground.old spawner.old log.old) (told source.new ground.new spawner.new log.new) result }
{
    let call = match asked(alloc, words) {
        Ok(Some(call)) => call,
        Ok(None) => return Status::Usage,
        Err(_) => return Status::Memory,
    };
    match call {
        Call::Init { folder, chunk } => init(folder, chunk, ground),
        Call::Serve { folder } => serve(alloc, folder, source, ground, spawner, rules, log),
        Call::Worker { folder, job } => work(alloc, folder, &job, ground),
        Call::Load {
            folder,
            seed,
            count,
        } => load(alloc, folder, seed, count, ground, spawner, rules, log),
    }
}

/// What a run promises of a moment holds of the ground that is opened behind a stop at it: the files stand for the repository after some first commands, all
/// acknowledged ones among them, and nothing of them is pending, so that they may be served again.
pub fn reopened<G: Ground>(stopped: &G, opened: &G)
    ensures stands { (said : Bytes) (first : State) (steps : List Answered) → AtMoment (crash_now (G.told stopped.now)) said first steps → Reopens (G.told stopped.now) (G.told opened.now) →
        StandsAgain (G.told opened.now) said first steps }
{}
