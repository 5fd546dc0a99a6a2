// Running a generated load: its replies are counted, and a summary of them is said.
ghost use Rattle.std.specs.Prelude.{◌≡◌, ◌+◌, ◌-◌, ◌^◌, ◌≤◌, ◌++◌, [], ◌∷◌, None, ℕ, Bool, false, List, length, ◌<◌, IsTrue, IfOk, OnOk, IfErr};
ghost use Rattle.std.specs.Vec.{vec_capacity};
ghost use Rattle.ip_ground.specs.Calls.{Says};
ghost use Rattle.ip_ground.specs.Counts.{CountsAs, SayFault};
ghost use Rattle.ip_merge.specs.Rules.{IsDecisive};
ghost use Rattle.ip_spec.specs.Load.{load_line, summary};
ghost use Rattle.ip_spec.specs.Path.{Bytes};
ghost use Rattle.ip_spec.specs.Repository.{Repository};
ghost use Rattle.ip_spec.specs.Text.{reply_text};
ghost use Rattle.ip_spec.specs.View.{View};
ghost use Rattle.ip_spec.specs.declared.reply.Reply.{Reply};
ghost use Rattle.ip_held.specs.Collecting.{child_of};
ghost use Rattle.ip_session.specs.Session.{IsServing, state_in};
ghost use Rattle.ip_app.specs.Exchanging.{Works, Replied, CutsShort};
ghost use Rattle.ip_app.specs.Loading.{Loads, LoadsWhereAllIsWell};
ghost use Rattle.ip_app.specs.Loaded.{IsLoadRoom, FinishesLoad};
ghost use Rattle.ip_app.specs.Outside.{outside_of};
ghost use Rattle.ip_app.specs.Turns.{turn_counts, AreCounts};
ghost use Rattle.ip_summary.specs.Tally.{Tallies};

use crate::exchange::exchange;
use crate::serve::open_in;
use crate::statuses::Status;
use crate::turn_log::{Log, turn_counts};
use ip_base::Memory;
use ip_ground::{Ground, GroundFault};
use ip_image::counts::TurnCounts;
use ip_merge::Decides;
use ip_script::{LOAD_LINE_MAX, load_line};
use ip_session::{REPLY_ROOM, Session};
use ip_spawn::Spawner;
use ip_summary::Summary;
use std::alloc::Global;

// All that a load takes memory for beside its commands.
#[derive(Drop)]
struct LoadRoom {
    line: Vec<u8>,
    text: Vec<u8>,
    summary: Summary,
}

impl LoadRoom {
    fn new(alloc: Global) -> Result<Self, Memory>
        ensures roomy { IfOk result IsLoadRoom }
        ensures tallies { IfOk result (λ room. Tallies room.summary []) }
    {
        Ok(LoadRoom {
            line: Vec::with_capacity(alloc, LOAD_LINE_MAX)?,
            text: Vec::with_capacity(alloc, REPLY_ROOM)?,
            summary: Summary::new(alloc)?,
        })
    }

    // Runs the load's line of this number, notes it, and counts its reply. `Err` says why the session has ended.
    fn turn<G: Ground, P: Spawner, D: Decides, L: Log>(
        &mut self,
        folder: &str,
        state: &mut u64,
        number: u64,
        session: &mut Session,
        counts: &mut TurnCounts,
        ground: &mut G,
        spawner: &mut P,
        rules: &D,
        log: &mut L,
    ) -> Result<(), Status>
        requires roomy { IsLoadRoom self.old }
        requires counted { counts.old ≡ turn_counts (G.counts_of ground.old) (P.counts_of spawner.old) }
        requires small { counts.old.file_faults ≤ 2 ^ 64 - 1 }
        requires removals { counts.old.remove_faults ≤ 2 ^ 64 - 1 }
        requires damages { (G.counts_of ground.old).damages ≤ 2 ^ 64 - 1 }
        requires counters { AreCounts (P.counts_of spawner.old) }
        requires tables { IsServing session.old }
        requires child { P.held spawner.old ≡ child_of session.old.store.held.collection }
        ensures roomy { IsLoadRoom self.new }
        ensures removals { counts.new.remove_faults ≤ 2 ^ 64 - 1 }
        ensures counters { AreCounts (P.counts_of spawner.new) }
        ensures child { P.held spawner.new ≡ child_of session.new.store.held.collection }
        ensures state { state.new ≡ (load_line state.old number).1 }
        ensures tallies { OnOk result ((replies : List Reply) (reply : Reply) → self.new.text.items ≡ reply_text reply → length replies < 2 ^ 64 - 1 → Tallies self.old.summary replies → Tallies self.new.summary (replies ++ reply ∷ [])) }
        ensures replied { (source_tells : Bool) (left : Bytes) (read_faults : ℕ) → let told = outside_of folder.now source_tells left read_faults G.tells G.told G.counts_of P.tells P.told P.held P.counts_of L.tells L.turns in
            (known : Bool) (r : Repository) (v : View) → (IsTrue known → Works (D.rule rules.now) G.tells (G.told ground.old) session.old r v) →
            OnOk result (Replied (D.rule rules.now) known (told ground.old spawner.old log.old) (told ground.new spawner.new log.new) (load_line state.old number).0 self.new.text.items counts.old counts.new session.old session.new r v) }
        ensures cut { (source_tells : Bool) (left : Bytes) (read_faults : ℕ) → let told = outside_of folder.now source_tells left read_faults G.tells G.told G.counts_of P.tells P.told P.held P.counts_of L.tells L.turns in
            (known : Bool) (r : Repository) (v : View) → (IsTrue known → Works (D.rule rules.now) G.tells (G.told ground.old) session.old r v) →
            IfErr result (λ status. CutsShort (D.rule rules.now) status known (told ground.old spawner.old log.old) (told ground.new spawner.new log.new) (load_line state.old number).0 counts.old counts.new (state_in session.old r v)) }
    {
        self.line.clear();
        self.text.clear();
        load_line(state, number, &mut self.line).unwrap();
        if let Err(status) = exchange(
            folder,
            session,
            counts,
            &self.line,
            ground,
            spawner,
            rules,
            log,
            &mut self.text,
        ) {
            return Err(status);
        }
        self.summary.note(&self.text);
        Ok(())
    }

    // Runs `stat`, notes it, and says the summary of so many lines and then its reply. How the call ends.
    fn finish<G: Ground, P: Spawner, D: Decides, L: Log>(
        mut self,
        folder: &str,
        count: u64,
        session: &mut Session,
        counts: &mut TurnCounts,
        ground: &mut G,
        spawner: &mut P,
        rules: &D,
        log: &mut L,
    ) -> Status
        requires roomy { IsLoadRoom self }
        requires counted { counts.old ≡ turn_counts (G.counts_of ground.old) (P.counts_of spawner.old) }
        requires small { counts.old.file_faults ≤ 2 ^ 64 - 1 }
        requires removals { counts.old.remove_faults ≤ 2 ^ 64 - 1 }
        requires damages { (G.counts_of ground.old).damages ≤ 2 ^ 64 - 1 }
        requires counters { AreCounts (P.counts_of spawner.old) }
        requires tables { IsServing session.old }
        requires child { P.held spawner.old ≡ child_of session.old.store.held.collection }
        requires tallied { (replies : List Reply) × Tallies self.summary replies }
        ensures counters { AreCounts (P.counts_of spawner.new) }
        ensures child { P.held spawner.new ≡ child_of session.new.store.held.collection }
        ensures finishes { (source_tells : Bool) (left : Bytes) (read_faults : ℕ) → let told = outside_of folder.now source_tells left read_faults G.tells G.told G.counts_of P.tells P.told P.held P.counts_of L.tells L.turns in
            (known : Bool) (r : Repository) (v : View) → (IsTrue known → Works (D.rule rules.now) G.tells (G.told ground.old) session.old r v) →
            (replies : List Reply) → Tallies self.summary replies →
            FinishesLoad (D.rule rules.now) result known (told ground.old spawner.old log.old) (told ground.new spawner.new log.new) (summary count replies) counts.old counts.new session.old session.new r v }
    {
        self.text.clear();
        if let Err(status) = exchange(
            folder,
            session,
            counts,
            b"stat",
            ground,
            spawner,
            rules,
            log,
            &mut self.text,
        ) {
            return status;
        }
        let line = self.summary.line(count);
        match say_both(&line, &self.text, ground) {
            Ok(()) => Status::Done,
            Err(_) => Status::SayFault,
        }
    }
}

// Says one text, and then another one.
fn say_both<G: Ground>(first: &[u8], second: &[u8], ground: &mut G) -> Result<(), GroundFault>
    ensures does { IsTrue G.tells → Says (first.now ++ second.now) result (G.told ground.old) (G.told ground.new) }
    ensures counts { CountsAs SayFault result (G.counts_of ground.old) (G.counts_of ground.new) }
{
    match ground.say(first) {
        Ok(()) => ground.say(second),
        Err(fault) => Err(fault),
    }
}

/// Opens the store, runs so many lines of the load from this seed on, a merge by these rules, and then `stat`, and says how many of the lines' replies
/// begin with each word, and the reply of `stat`.
pub fn load<G: Ground, P: Spawner, D: Decides, L: Log>(
    alloc: Global,
    folder: &str,
    seed: u64,
    count: u64,
    ground: &mut G,
    spawner: &mut P,
    rules: &D,
    log: &mut L,
) -> Status
    requires child { P.held spawner.old ≡ None }
    ensures none_held { P.held spawner.new ≡ None }
    // Whatever a source tells meanwhile.
    ensures loads { (source_tells : Bool) (left : Bytes) (read_faults : ℕ) → let told = outside_of folder.now source_tells left read_faults G.tells G.told G.counts_of P.tells P.told P.held P.counts_of L.tells L.turns in
        (decisive : Bool) → (IsTrue decisive → IsDecisive (D.rule rules.now)) →
        Loads (D.rule rules.now) decisive seed count (told ground.old spawner.old log.old) (told ground.new spawner.new log.new) result }
    // Where no fault is counted and the store stands, all lines are run and the summary is said, or memory was wanting before them.
    ensures complete { let told = outside_of folder.now false [] 0 G.tells G.told G.counts_of P.tells P.told P.held P.counts_of L.tells L.turns in
        IsDecisive (D.rule rules.now) → LoadsWhereAllIsWell (told ground.old spawner.old log.old) (told ground.new spawner.new log.new) result }
{
    let mut counts = turn_counts(ground.counts(), spawner.counts());
    let store = match open_in(alloc, folder, ground) {
        Ok(store) => store,
        Err(status) => return status,
    };
    let Ok(mut room) = LoadRoom::new(alloc) else {
        return Status::Memory;
    };
    let mut session = Session::new(alloc, store);
    let mut state = seed;
    for done in 0..count {
        if let Err(status) = room.turn(
            folder,
            &mut state,
            done + 1,
            &mut session,
            &mut counts,
            ground,
            spawner,
            rules,
            log,
        ) {
            session.let_go(spawner);
            return status;
        }
    }
    let status = room.finish(
        folder,
        count,
        &mut session,
        &mut counts,
        ground,
        spawner,
        rules,
        log,
    );
    session.let_go(spawner);
    status
}
