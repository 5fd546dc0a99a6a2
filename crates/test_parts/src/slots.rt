// A slot of the control file of a new ground is written, and is the live one then.
ghost use Rattle.std.specs.Prelude.{◌≡◌, ◌≤◌, Some, OnOk, length};
ghost use Rattle.ip_ground.specs.Told.{IsBlank};
ghost use Rattle.ip_image.specs.Slot.{slot_bytes};
ghost use Rattle.ip_control.specs.Live.{live_of, live_slot, IsSpare, IsNewer};
ghost use Rattle.ip_control.specs.Changes.{control};

use crate::grounds::ground;
use ip_control::{Slot, open_gate, prepare, read_live};
use ip_ground::{Bench, FileName, Ground, GroundFault};

// Slot 0 is live with sequence 1, and slot 1 is closed.
const FRESH: [u8; 256] = [
    0xa5, 0, 0, 0, 0, 0, 0, 0, 0x01, 0, 0, 0, 0, 0, 0, 0, 0x01, 0, 0, 0, 0, 0, 0, 0, 0, 0x10, 0, 0,
    0, 0, 0, 0, 0, 0, 0, 0, 0, 0, 0, 0, 0, 0, 0, 0, 0, 0, 0, 0, 0, 0, 0, 0, 0, 0, 0, 0, 0, 0, 0, 0,
    0, 0, 0, 0, 0, 0, 0, 0, 0, 0, 0, 0, 0x01, 0, 0, 0, 0, 0, 0, 0, 0, 0, 0, 0, 0, 0, 0, 0, 0, 0, 0,
    0, 0, 0, 0, 0, 0, 0, 0, 0, 0, 0, 0, 0, 0x01, 0, 0, 0, 0, 0, 0, 0, 0, 0, 0, 0, 0, 0, 0, 0, 0, 0,
    0, 0, 0, 0, 0, 0, 0, 0, 0, 0, 0, 0, 0, 0, 0, 0, 0, 0, 0, 0, 0, 0, 0, 0, 0, 0, 0, 0, 0, 0, 0, 0,
    0, 0, 0, 0, 0, 0, 0, 0, 0, 0, 0, 0, 0, 0, 0, 0, 0, 0, 0, 0, 0, 0, 0, 0, 0, 0, 0, 0, 0, 0, 0, 0,
    0, 0, 0, 0, 0, 0, 0, 0, 0, 0, 0, 0, 0, 0, 0, 0, 0, 0, 0, 0, 0, 0, 0, 0, 0, 0, 0, 0, 0, 0, 0, 0,
    0, 0, 0, 0, 0, 0, 0, 0, 0, 0, 0, 0, 0, 0, 0, 0, 0, 0, 0, 0, 0, 0, 0, 0, 0, 0, 0, 0, 0, 0, 0, 0,
    0, 0, 0, 0, 0, 0,
];

// Each field is another number.
const NEXT: Slot = Slot {
    version: 1,
    sequence: 2,
    chunk: 0x1000,
    horizon: 0x2000,
    end: 0x3000,
    floor: 5,
    next: 7,
    live: 3,
    next_attempt: 4,
    prefix_len: 0x102,
    rows: 6,
    first_chunk: 2,
    first_attempt: 3,
};

// Makes the file, makes its slot 1 ready, and opens it. It ends at the first call that fails.
fn published(bench: &mut Bench, file: &[u8], fields: &Slot) -> Result<(), GroundFault>
    ensures { IsBlank (⟦<Bench as Ground>⟧.told bench.old) → 128 ≤ length file.now → IsSpare 1 (live_of (Some file.now)) → IsNewer fields.now.sequence (live_of (Some file.now)) → OnOk result (live_of (control (⟦<Bench as Ground>⟧.told bench.new)) ≡ live_slot 1 (slot_bytes fields.now)) }
{
    bench.write(FileName::Control, 0, file)?;
    bench.sync(FileName::Control)?;
    prepare(bench, 1, fields)?;
    open_gate(bench, 1)
}

fn published_anew(bench: &mut Bench, fields: &Slot) -> Result<(), GroundFault>
    ensures { IsBlank (⟦<Bench as Ground>⟧.told bench.old) → fields.now.sequence ≡ 2 → OnOk result (live_of (control (⟦<Bench as Ground>⟧.told bench.new)) ≡ live_slot 1 (slot_bytes fields.now)) }
{
    published(bench, &FRESH, fields)
}

#[test]
fn a_slot_is_written_and_read(rt: HostRuntime) {
    let mut bench = ground(rt.alloc(), None);
    assert!(rt; published_anew(&mut bench, &NEXT).is_ok());
    assert_eq!(rt; read_live(&mut bench), Ok(Some((1, NEXT))));
}
