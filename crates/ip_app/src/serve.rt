// Serving a script: line by line, one reply each.
ghost use Rattle.std.specs.Prelude.{◌≡◌, ◌-◌, ◌^◌, ◌≤◌, [], None, Some, Bool, IsTrue, OnOk, IfOk, IfErr};
ghost use Rattle.ip_ground.specs.Counts.{binds};
ghost use Rattle.ip_ground.specs.Told.{SyncsOnly, Only};
ghost use Rattle.ip_ground.specs.declared.names.FileName.TheVariants.{Control};
ghost use Rattle.ip_merge.specs.Rules.{IsDecisive};
ghost use Rattle.ip_spec.specs.Repository.{Repository};
ghost use Rattle.ip_spec.specs.View.{View};
ghost use Rattle.ip_held.specs.Collecting.{child_of};
ghost use Rattle.ip_opens.specs.Opening.{RecoversOnceOpen};
ghost use Rattle.ip_app.specs.Outside.{outside, IsBound};
ghost use Rattle.ip_app.specs.Turns.{turn_counts, AreCounts};
ghost use Rattle.ip_app.specs.Serving.{CountsOf, Works, TurnedIn, Stops};
ghost use Rattle.ip_app.specs.Run.{opening_status, CouldNotOpen, OpensAs, Serves, EndsWhereAllIsWell, EndsAsBytes};
ghost use Rattle.ip_session.specs.Session.{IsServing};

use crate::exchange::exchange;
use crate::lines::{LONGEST_LINE, Lines};
use crate::statuses::Status;
use crate::turn_log::{Log, turn_counts};
use ip_base::Memory;
use ip_ground::Ground;
use ip_image::counts::TurnCounts;
use ip_merge::Decides;
use ip_script::Source;
use ip_session::{REPLY_ROOM, Session};
use ip_spawn::Spawner;
use ip_store::{OpenFault, Store};
use std::alloc::Global;

/// The room for a line and its reply.
#[derive(Drop)]
struct LineRoom {
    lines: Lines,
    line: Vec<u8>,
    text: Vec<u8>,
}

impl LineRoom {
    ghost use Rattle.ip_app.specs.Rooms.{IsRoomy};
    ghost use Rattle.ip_app.specs.Pending.{pending};

    fn new(alloc: Global) -> Result<Self, Memory>
        ensures roomy { IfOk result IsRoomy }
        ensures pending { IfOk result (λ room. pending room.lines ≡ []) }
        ensures taken { IfOk result (λ room. room.lines.taken ≡ 0) }
    {
        let line = Vec::with_capacity(alloc, LONGEST_LINE + 1)?;
        let text = Vec::with_capacity(alloc, REPLY_ROOM)?;
        Ok(LineRoom {
            lines: Lines::new(),
            line,
            text,
        })
    }

    // Takes a line, runs its command, notes it and says its reply. `Err` says why there is no further turn.
    fn turn<S: Source, G: Ground, P: Spawner, D: Decides, L: Log>(
        &mut self,
        folder: &str,
        session: &mut Session,
        counts: &mut TurnCounts,
        source: &mut S,
        ground: &mut G,
        spawner: &mut P,
        rules: &D,
        log: &mut L,
    ) -> Result<(), Status>
        requires roomy { IsRoomy self.old }
        requires counted { counts.old ≡ turn_counts (G.counts_of ground.old) (P.counts_of spawner.old) }
        requires small { counts.old.file_faults ≤ 2 ^ 64 - 1 }
        requires removals { counts.old.remove_faults ≤ 2 ^ 64 - 1 }
        requires damages { (G.counts_of ground.old).damages ≤ 2 ^ 64 - 1 }
        requires counters { AreCounts (P.counts_of spawner.old) }
        requires tables { IsServing session.old }
        requires child { P.held spawner.old ≡ child_of session.old.store.held.collection }
        ensures roomy { IsRoomy self.new }
        ensures removals { counts.new.remove_faults ≤ 2 ^ 64 - 1 }
        ensures counters { AreCounts (P.counts_of spawner.new) }
        ensures child { P.held spawner.new ≡ child_of session.new.store.held.collection }
        ensures turned { let told = outside folder.now S.tells S.left S.read_faults G.tells G.told G.counts_of P.tells P.told P.held P.counts_of L.tells L.turns in
            (known : Bool) (r : Repository) (v : View) → (IsTrue known → Works (D.rule rules.now) G.tells (G.told ground.old) session.old r v) →
            OnOk result (TurnedIn (D.rule rules.now) known (told source.old ground.old spawner.old log.old) (told source.new ground.new spawner.new log.new) self.old.lines self.new.lines counts.old counts.new session.old session.new r v) }
        ensures stops { let told = outside folder.now S.tells S.left S.read_faults G.tells G.told G.counts_of P.tells P.told P.held P.counts_of L.tells L.turns in
            (known : Bool) (r : Repository) (v : View) → (IsTrue known → Works (D.rule rules.now) G.tells (G.told ground.old) session.old r v) →
            IfErr result (λ status. Stops (D.rule rules.now) status known (told source.old ground.old spawner.old log.old) (told source.new ground.new spawner.new log.new) self.old.lines self.new.lines counts.old counts.new session.old session.new r v) }
    {
        self.line.clear();
        self.text.clear();
        if let Err(status) = self.lines.next_line(source, &mut self.line) {
            return Err(status);
        }
        if let Err(status) = exchange(
            folder,
            session,
            counts,
            &self.line,
            ground,
            spawner,
            rules,
            log,
            &mut self.text,
        ) {
            return Err(status);
        }
        match ground.say(&self.text) {
            Ok(()) => Ok(()),
            Err(_) => Err(Status::SayFault),
        }
    }
}

// How a call ends that could not open the store.
fn opening_status(fault: OpenFault) -> Status
    ensures { result ≡ opening_status fault }
{
    match fault {
        OpenFault::NoStore => Status::NoStore,
        OpenFault::Damaged { file, at } => Status::Damaged { file, at },
        OpenFault::Ground => Status::GroundFault,
        OpenFault::Memory => Status::Memory,
    }
}

// Binds the folder and opens the store in it.
pub(crate) fn open_in<G: Ground>(
    alloc: Global,
    folder: &str,
    ground: &mut G,
) -> Result<Store, Status>
    ensures only { IsTrue G.tells → SyncsOnly (Only Control) (G.told ground.old) (G.told ground.new) }
    ensures opening { IsTrue G.tells → RecoversOnceOpen (G.told ground.old) (G.told ground.new) }
    ensures opened { IfOk result (λ store. OpensAs G.tells (G.told ground.old) (G.told ground.new) store.held) }
    ensures idle { IfOk result (λ store. store.held.collection ≡ None) }
    ensures refused { IfErr result (λ status. CouldNotOpen status G.tells (G.told ground.old)) }
    ensures counted { IfErr result (λ status. CountsOf status (G.counts_of ground.old) (G.counts_of ground.new)) }
    ensures bound { IfErr result (λ status. IsBound folder.now status (G.counts_of ground.old) (G.counts_of ground.new)) }
    ensures no_fault { OnOk result (G.counts_of ground.new ≡ record (G.counts_of ground.old) { bound = binds folder.now (Some folder.now) (G.counts_of ground.old).bound }) }
{
    if ground.attach(folder).is_err() {
        return Err(Status::GroundFault);
    }
    match Store::open_at(alloc, ground) {
        Ok(store) => Ok(store),
        Err(fault) => Err(opening_status(fault)),
    }
}

/// Opens the store, runs each line of the source, a merge by these rules, and says each reply.
pub fn serve<S: Source, G: Ground, P: Spawner, D: Decides, L: Log>(
    alloc: Global,
    folder: &str,
    source: &mut S,
    ground: &mut G,
    spawner: &mut P,
    rules: &D,
    log: &mut L,
) -> Status
    requires child { P.held spawner.old ≡ None }
    ensures none_held { P.held spawner.new ≡ None }
    ensures serves { let told = outside folder.now S.tells S.left S.read_faults G.tells G.told G.counts_of P.tells P.told P.held P.counts_of L.tells L.turns in
        (decisive : Bool) → (IsTrue decisive → IsDecisive (D.rule rules.now)) →
        Serves (D.rule rules.now) decisive (told source.old ground.old spawner.old log.old) (told source.new ground.new spawner.new log.new) result }
    // Where the source tells its bytes, these alone give the status, in whatever pieces they came.
    ensures bytes { let told = outside folder.now S.tells S.left S.read_faults G.tells G.told G.counts_of P.tells P.told P.held P.counts_of L.tells L.turns in
        EndsAsBytes (told source.old ground.old spawner.old log.old) result }
    // Where no fault is counted and the store stands, it ends by the script, or for want of memory.
    ensures complete { let told = outside folder.now S.tells S.left S.read_faults G.tells G.told G.counts_of P.tells P.told P.held P.counts_of L.tells L.turns in
        IsDecisive (D.rule rules.now) → EndsWhereAllIsWell (told source.old ground.old spawner.old log.old) (told source.new ground.new spawner.new log.new) result }
{
    let mut counts = turn_counts(ground.counts(), spawner.counts());
    let store = match open_in(alloc, folder, ground) {
        Ok(store) => store,
        Err(status) => return status,
    };
    let Ok(mut room) = LineRoom::new(alloc) else {
        return Status::Memory;
    };
    let mut session = Session::new(alloc, store);
    'lines: loop {
        if let Err(status) = room.turn(
            folder,
            &mut session,
            &mut counts,
            source,
            ground,
            spawner,
            rules,
            log,
        ) {
            session.let_go(spawner);
            return status;
        }
    }
}
