// Making a store's control file.
ghost use Rattle.std.specs.Prelude.{◌≡◌, IsTrue, is_some, length, ◌+◌, ◌≤◌, nat_le, ◌&&◌, ◌==◌, slice_index};
ghost use Rattle.ip_ground.specs.Counts.{Counts};
ghost use Rattle.ip_image.specs.Slot.{IsChunkSize, live_index, fresh_control};
ghost use Rattle.ip_opens.specs.OpenFaults.{counted_init};
ghost use Rattle.ip_opens.specs.Opening.{Makes};

use ip_control::GATE_OPEN;
use ip_ground::{FileName, Ground, GroundFault};

/// Why no store was made.
#[derive(Clone, Copy, Debug, PartialEq, Eq)]
pub enum InitFault {
    /// One is there: a slot of the control file is open. Nothing was changed.
    Existing,
    /// A call on the ground failed.
    Ground,
}

impl From<GroundFault> for InitFault {
    ghost use Rattle.ip_opens.specs.declared.making.InitFault.TheVariants as InitFault;

    ghost from_gives = { λ _ e. e ≡ InitFault.Ground };

    fn from(_: GroundFault) -> Self {
        InitFault::Ground
    }
}

/// Makes a store without commits, whose chunks have so many bytes. It is there for good once this is `Ok`.
pub fn init<G: Ground>(outside: &mut G, chunk: u64) -> Result<(), InitFault>
    requires { IsChunkSize chunk }
    ensures does { IsTrue G.tells → Makes chunk result (G.told outside.old) (G.told outside.new) }
    ensures counts { Counts counted_init result (G.counts_of outside.old) (G.counts_of outside.new) }
{
    let mut room = [0; 256];
    let count = outside.read(FileName::Control, 0, &mut room)?;
    if has_open_slot(&room[..count]) {
        return Err(InitFault::Existing);
    }
    outside.write(FileName::Control, 0, &fresh_control(chunk))?;
    Ok(outside.sync(FileName::Control)?)
}

// Whether one of the two slots is whole and open.
fn has_open_slot(control: &[u8]) -> bool
    ensures { result ≡ is_some (live_index control.now) }
{
    is_open_at(control, 0) || is_open_at(control, 128)
}

// Whether the slot that begins there is whole and open.
fn is_open_at(control: &[u8], start: usize) -> bool
    requires { start ≤ 128 }
    ensures { result ≡ (nat_le (start + 128) (length control.now) && (slice_index control.now start == 165)) }
{
    control.len() >= start + 128 && control[start] == GATE_OPEN
}

// The control file of a store without commits: slot 0 says version 1, sequence 1, the chunk size, 1 as the attempt that
// comes next and 1 as the first not yet swept; slot 1 is closed.
fn fresh_control(chunk: u64) -> [u8; 256]
    ensures { result ≡ fresh_control chunk }
{
    let mut out = [0; 256];
    out[0] = GATE_OPEN;
    out[8] = 1;
    out[16] = 1;
    out[72] = 1;
    out[104] = 1;
    out[24..32].copy_from_slice(&chunk.to_le_bytes());
    out
}
