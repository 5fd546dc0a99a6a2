// Sweeping: what no collection needs is removed, chunk by chunk and attempt by attempt. A removal that fails is counted and passed over.
ghost use Rattle.std.specs.Prelude.{◌≡◌, IsTrue, if◌then◌else◌, ◌==◌};
ghost use Rattle.ip_ground.specs.Counts.{CountsLeft};
ghost use Rattle.ip_ground.specs.Told.{Only};
ghost use Rattle.ip_image.specs.Slot.{IsSlot};
ghost use Rattle.ip_held.specs.Sweeping.{IsSweptFrom, IsSweptOf, IsSwept, SweepsFiles, swept_to};

use ip_chunks::Chunks;
use ip_ground::{FileName, Ground};
use ip_held::{Held, Unswept};

// Removes a file; 1 where that failed.
fn sweep_file<G: Ground>(outside: &mut G, file: FileName) -> u64
    ensures does { IsTrue G.tells → SweepsFiles (Only file) result (G.told outside.old) (G.told outside.new) }
    ensures counts { CountsLeft result (G.counts_of outside.old) (G.counts_of outside.new) }
{
    match outside.remove(file) {
        Ok(()) => 0,
        Err(_) => 1,
    }
}

// Removes the files of an attempt, but for a pair that is live.
fn sweep_attempt<G: Ground>(outside: &mut G, attempt: u64, live: u64) -> u64
    ensures does { IsTrue G.tells → SweepsFiles (IsSweptOf attempt live) result (G.told outside.old) (G.told outside.new) }
    ensures counts { CountsLeft result (G.counts_of outside.old) (G.counts_of outside.new) }
{
    let done = sweep_file(outside, FileName::Done(attempt));
    if attempt == live {
        return done;
    }
    let prefix = sweep_file(outside, FileName::Prefix(attempt));
    let mapping = sweep_file(outside, FileName::Mapping(attempt));
    done.saturating_add(prefix).saturating_add(mapping)
}

// Removes the files of the attempts from one up to, and without, another, and says how many removals failed.
fn sweep_attempts<G: Ground>(outside: &mut G, from: u64, to: u64, live: u64) -> u64
    ensures does { IsTrue G.tells → SweepsFiles (IsSweptFrom from to live) result (G.told outside.old) (G.told outside.new) }
    ensures counts { CountsLeft result (G.counts_of outside.old) (G.counts_of outside.new) }
{
    let mut left: u64 = 0;
    for attempt in from..to {
        left = left.saturating_add(sweep_attempt(outside, attempt, live));
    }
    left
}

// Removes what no collection needs, and says how many removals failed. Where none did, the next slot says that all is swept.
pub(crate) fn sweep<G: Ground>(store: &mut Held, outside: &mut G) -> u64
    requires slot { IsSlot store.old.slot }
    ensures does { IsTrue G.tells → SweepsFiles (IsSwept store.old.slot store.old.unswept) result (G.told outside.old) (G.told outside.new) }
    ensures counts { CountsLeft result (G.counts_of outside.old) (G.counts_of outside.new) }
    ensures unswept { store.new ≡ record store.old { unswept = if result == 0 then swept_to store.old.slot else store.old.unswept } }
{
    let chunks = Chunks {
        size: store.slot.chunk,
    };
    let to = store.slot.horizon / store.slot.chunk;
    let few = chunks.sweep(outside, store.unswept.chunk, to);
    let left = few.saturating_add(sweep_attempts(
        outside,
        store.unswept.attempt,
        store.slot.next_attempt,
        store.slot.live,
    ));
    if left == 0 {
        store.unswept = Unswept {
            chunk: to,
            attempt: if store.slot.live == 0 {
                store.slot.next_attempt
            } else {
                store.slot.live
            },
        };
    }
    left
}
