// A durable step: records behind the end, and then a slot that names their end. Its steps are those of docs/DISK.md:
//   1. The caller has taken all memory that it needs; none is taken here.
//   2. The records are written behind the end, one write for each chunk. No image refers to them yet.
//   3. The chunks that hold them are synced, each once.
//   4. The slot that is not live is closed and synced, unless it is whole and closed; its other bytes are written and synced.
//   5. Its gate is opened, by one byte, and synced. What a crash in that write leaves has the old slot live, or the new one.
//   6. The caller answers only behind that.
ghost use Rattle.std.specs.Prelude.{◌+◌, ◌<◌, ◌≤◌, length, IsTrue};
ghost use Rattle.ip_base.specs.declared.limit.TheConstants.{OFFSET_MAX};
ghost use Rattle.ip_ground.specs.Counts.{CountsAs, FileFault};
ghost use Rattle.ip_ground.specs.declared.names.FileName.TheVariants.{Control};
ghost use Rattle.ip_ground.specs.Told.{Only, ChangesOnly};
ghost use Rattle.ip_image.specs.Slot.{IsChunkSize};
ghost use Rattle.ip_control.specs.Changes.{control, IsReady};
ghost use Rattle.ip_control.specs.Live.{live_of, IsNewer};
ghost use Rattle.ip_publish.specs.Publishing.{CanStep, IsWritten, MakesStep, TurnsGate};

use ip_chunks::Chunks;
use ip_control::{Slot, open_gate, prepare};
use ip_ground::{Ground, GroundFault};

/// Appends records at `end`, an offset up to which the chunks have no gap, and syncs the chunks that hold them; then it makes slot 0 or 1, which is not
/// live, ready with these fields, and opens its gate. Nothing of the control file may be pending. After a fault something may be.
pub fn durable_step<G: Ground>(
    outside: &mut G,
    end: u64,
    bytes: &[u8],
    slot: u8,
    fields: &Slot,
) -> Result<(), GroundFault>
    requires which { slot < 2 }
    requires chunk { IsChunkSize fields.now.chunk }
    requires room { end + length bytes.now ≤ OFFSET_MAX }
    ensures does { IsTrue G.tells → CanStep end slot fields.now (G.told outside.old) → MakesStep end bytes.now slot fields.now result (G.told outside.old) (G.told outside.new) }
    // whatever the files are
    ensures only { IsTrue G.tells → ChangesOnly (IsWritten fields.now.chunk end (end + length bytes.now)) (G.told outside.old) (G.told outside.new) }
    ensures counts { CountsAs FileFault result (G.counts_of outside.old) (G.counts_of outside.new) }
{
    let chunks = Chunks { size: fields.chunk };
    chunks.append(outside, end, bytes)?;
    chunks.sync_range(outside, end, end + bytes.len() as u64)?;
    prepare(outside, slot, fields)?;
    open_gate(outside, slot)
}

/// Makes slot 0 or 1, which is not live, ready with these fields, and opens its gate. Nothing of the control file may be pending.
/// After a fault something may be.
pub fn turn_gate<G: Ground>(outside: &mut G, slot: u8, fields: &Slot) -> Result<(), GroundFault>
    requires which { slot < 2 }
    ensures does { IsTrue G.tells → IsReady slot (G.told outside.old) → IsNewer fields.now.sequence (live_of (control (G.told outside.old))) → TurnsGate slot fields.now result (G.told outside.old) (G.told outside.new) }
    // whatever the control file is
    ensures only { IsTrue G.tells → ChangesOnly (Only Control) (G.told outside.old) (G.told outside.new) }
    ensures counts { CountsAs FileFault result (G.counts_of outside.old) (G.counts_of outside.new) }
{
    prepare(outside, slot, fields)?;
    open_gate(outside, slot)
}
