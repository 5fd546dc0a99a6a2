// One line and its reply, noted in the log.
ghost use Rattle.std.specs.Prelude.{◌≡◌, ◌-◌, ◌^◌, ◌≤◌, [], ℕ, Bool, IsTrue, OnOk, IfErr};
ghost use Rattle.std.specs.Vec.{vec_capacity};
ghost use Rattle.ip_spec.specs.Path.{Bytes};
ghost use Rattle.ip_spec.specs.Repository.{Repository};
ghost use Rattle.ip_spec.specs.View.{View};
ghost use Rattle.ip_held.specs.Collecting.{child_of};
ghost use Rattle.ip_session.specs.declared.session.TheConstants.{REPLY_ROOM};
ghost use Rattle.ip_session.specs.Session.{IsServing, state_in};
ghost use Rattle.ip_app.specs.Exchanging.{ended_status, Works, Replied, CutsShort};
ghost use Rattle.ip_app.specs.Outside.{outside_of};
ghost use Rattle.ip_app.specs.Turns.{turn_counts, AreCounts};

use crate::statuses::Status;
use crate::turn_log::{Log, Turn, turn_counts};
use ip_ground::Ground;
use ip_image::counts::TurnCounts;
use ip_merge::Decides;
use ip_session::{Session, SessionEnd};
use ip_spawn::Spawner;

// How a call ends whose session has ended.
fn ended_status(end: SessionEnd) -> Status
    ensures { result ≡ ended_status end }
{
    match end {
        SessionEnd::Ground => Status::GroundFault,
        SessionEnd::Damaged { at, names: None } => Status::DamagedRecord { at },
        SessionEnd::Damaged {
            at,
            names: Some((want, got)),
        } => Status::DamagedName { at, want, got },
    }
}

/// Runs a line's command, notes it, and writes its reply's text, of which nothing is said. `Err` says why the session has ended.
pub fn exchange<G: Ground, P: Spawner, D: Decides, L: Log>(
    folder: &str,
    session: &mut Session,
    counts: &mut TurnCounts,
    line: &[u8],
    ground: &mut G,
    spawner: &mut P,
    rules: &D,
    log: &mut L,
    text: &mut Vec<u8>,
) -> Result<(), Status>
    requires empty { text.old.items ≡ [] }
    requires room { REPLY_ROOM ≤ vec_capacity text.old }
    requires counted { counts.old ≡ turn_counts (G.counts_of ground.old) (P.counts_of spawner.old) }
    requires small { counts.old.file_faults ≤ 2 ^ 64 - 1 }
    requires removals { counts.old.remove_faults ≤ 2 ^ 64 - 1 }
    requires damages { (G.counts_of ground.old).damages ≤ 2 ^ 64 - 1 }
    requires counters { AreCounts (P.counts_of spawner.old) }
    requires tables { IsServing session.old }
    requires child { P.held spawner.old ≡ child_of session.old.store.held.collection }
    ensures room { vec_capacity text.old ≤ vec_capacity text.new }
    ensures removals { counts.new.remove_faults ≤ 2 ^ 64 - 1 }
    ensures counters { AreCounts (P.counts_of spawner.new) }
    ensures sayable { (G.counts_of ground.new).say_faults ≤ 2 ^ 64 - 1 }
    ensures child { P.held spawner.new ≡ child_of session.new.store.held.collection }
    // Whatever a source tells meanwhile.
    ensures replied { (source_tells : Bool) (left : Bytes) (read_faults : ℕ) → let told = outside_of folder.now source_tells left read_faults G.tells G.told G.counts_of P.tells P.told P.held P.counts_of L.tells L.turns in
        (known : Bool) (r : Repository) (v : View) → (IsTrue known → Works (D.rule rules.now) G.tells (G.told ground.old) session.old r v) →
        OnOk result (Replied (D.rule rules.now) known (told ground.old spawner.old log.old) (told ground.new spawner.new log.new) line.now text.new.items counts.old counts.new session.old session.new r v) }
    ensures cut { (source_tells : Bool) (left : Bytes) (read_faults : ℕ) → let told = outside_of folder.now source_tells left read_faults G.tells G.told G.counts_of P.tells P.told P.held P.counts_of L.tells L.turns in
        (known : Bool) (r : Repository) (v : View) → (IsTrue known → Works (D.rule rules.now) G.tells (G.told ground.old) session.old r v) →
        IfErr result (λ status. CutsShort (D.rule rules.now) status known (told ground.old spawner.old log.old) (told ground.new spawner.new log.new) line.now counts.old counts.new (state_in session.old r v)) }
{
    let before = *counts;
    let answered = session.answer(folder, ground, spawner, line, rules, text);
    *counts = turn_counts(ground.counts(), spawner.counts());
    log.note(&Turn {
        met: session.met(),
        before,
        after: *counts,
    });
    match answered {
        Ok(()) => Ok(()),
        Err(end) => Err(ended_status(end)),
    }
}
