// Opening a store: its control file is read, and then each of its records, once.
ghost use Rattle.std.specs.Prelude.{◌≡◌, ◌↔◌, ◌+◌, ◌*◌, ◌<◌, length, None, IsTrue, IfOk, IsErrOf};
ghost use Rattle.ip_opens.specs.OpenFaults.{counted_open};
ghost use Rattle.ip_ground.specs.Counts.{Counts};
ghost use Rattle.ip_spec.specs.Repository.{Repository};
ghost use Rattle.ip_image.specs.Slot.{IsSlot, layout_of};
ghost use Rattle.ip_image.specs.Standing.{AreRetained};
ghost use Rattle.ip_opens.specs.Opening.{Opens};
ghost use Rattle.ip_opens.specs.Found.{FindsSlot, FindsGeneration, Finishes};
ghost use Rattle.ip_held.specs.Clear.{unswept_in};
ghost use Rattle.ip_held.specs.Placed.{IsSpaceOf};
ghost use Rattle.ip_ground.specs.Told.{NoFile, ChangesOnly};
ghost use Rattle.ip_space.specs.SpaceView.{IsReadable};
ghost use Rattle.ip_held.specs.Held.{IsOf, OwnsPair};
ghost use Rattle.ip_opens.specs.declared.opening.OpenFault.TheVariants as OpenFault;
ghost use Rattle.ip_ground.specs.declared.names.FileName.TheVariants.{Control};

use crate::walk::{Found, read_records};
use ip_audit::Names;
use ip_base::Memory;
use ip_base::limit::BRANCHES_MAX;
use ip_control::{ControlFault, Slot, read_live};
use ip_ground::{FileName, Ground, GroundFault};
use ip_held::{Held, Unswept, layout_of};
use ip_space::{Space, SpaceFault};
use ip_tables::Branches;
use std::alloc::Global;

/// Why no store was opened.
#[derive(Clone, Copy, Debug, PartialEq, Eq)]
pub enum OpenFault {
    /// None is there: no slot of the control file is open.
    NoStore,
    /// The files are no store's, and this is the first place that shows it.
    Damaged { file: FileName, at: u64 },
    /// A call on the ground failed, as its counts show.
    Ground,
    /// Want of memory, for the buffer, for a record or for the tables.
    Memory,
}

impl From<GroundFault> for OpenFault {
    ghost use Rattle.ip_opens.specs.declared.opening.OpenFault.TheVariants as OpenFault;

    ghost from_gives = { λ _ e. e ≡ OpenFault.Ground };

    fn from(_: GroundFault) -> Self {
        OpenFault::Ground
    }
}

impl From<Memory> for OpenFault {
    ghost use Rattle.ip_opens.specs.declared.opening.OpenFault.TheVariants as OpenFault;

    ghost from_gives = { λ _ e. e ≡ OpenFault.Memory };

    fn from(_: Memory) -> Self {
        OpenFault::Memory
    }
}

/// Opens the store: it reads each byte of its records once, and of a live mapping, and keeps the names of the commits, where their records
/// lie, the branches and the mapping. It reads by the mebibyte, or run by run below the horizon, and besides these it takes memory for one record and for a buffer, which has no more than a
/// mebibyte and the bytes of the longest record, as its head tells them. `NoStore` and `Damaged` are final; after the other two it
/// may be tried again.
pub fn open_at<G: Ground>(alloc: Global, outside: &mut G) -> Result<Held, OpenFault>
    ensures tables { IfOk result (λ store. (r : Repository) × IsOf store r) }
    ensures idle { IfOk result (λ store. store.collection ≡ None) }
    ensures unswept { IfOk result (λ store. store.unswept ≡ unswept_in store.slot) }
    ensures does { IsTrue G.tells → Opens result (G.told outside.old) (G.told outside.new) }
    ensures counts { Counts counted_open result (G.counts_of outside.old) (G.counts_of outside.new) }
{
    let (index, slot) = find_slot(outside)?;
    let space = space_of(alloc, outside, &slot)?;
    let found = read_records(alloc, outside, &slot, &space)?;
    finish(outside, index, slot, found, space)
}

// The live slot, and which one it is. From the sync on, what is read of the control file is what a crash leaves.
fn find_slot<G: Ground>(outside: &mut G) -> Result<(u8, Slot), OpenFault>
    ensures order { IfOk result (λ live. (live.0 < 2) × IsSlot live.1) }
    ensures does { IsTrue G.tells → FindsSlot result (G.told outside.old) (G.told outside.new) }
    ensures counts { Counts counted_open result (G.counts_of outside.old) (G.counts_of outside.new) }
{
    if outside.length(FileName::Control)?.is_none() {
        return Err(OpenFault::NoStore);
    }
    outside.sync(FileName::Control)?;
    match read_live(outside) {
        Ok(Some(live)) => Ok(live),
        Ok(None) => Err(OpenFault::NoStore),
        Err(ControlFault::Form(index)) => {
            outside.note_damage();
            Err(slot_damaged(index))
        }
        Err(ControlFault::Ground) => Err(OpenFault::Ground),
    }
}

// What shows that the files are no store's: the slot of this number.
fn slot_damaged(index: u8) -> OpenFault
    ensures { result ≡ OpenFault.Damaged Control (128 * index) }
{
    OpenFault::Damaged {
        file: FileName::Control,
        at: 128 * u64::from(index),
    }
}

// The space of a slot's records. Where a generation is live its mapping is read, and the length of its prefix is asked for.
fn space_of<G: Ground>(alloc: Global, outside: &mut G, slot: &Slot) -> Result<Space, OpenFault>
    requires { IsSlot slot.now }
    ensures view { IfOk result (λ space. IsSpaceOf slot.now space) }
    ensures finds { IsTrue G.tells → OwnsPair (G.told outside.old) slot.now → FindsGeneration (G.told outside.new).held slot.now result }
    ensures readable { IsTrue G.tells → OwnsPair (G.told outside.old) slot.now → IfOk result (λ space. IsReadable (G.told outside.new) space) }
    ensures there { IsErrOf result OpenFault.NoStore → ⊥ }
    ensures only { IsTrue G.tells → ChangesOnly NoFile (G.told outside.old) (G.told outside.new) }
    ensures counts { Counts counted_open result (G.counts_of outside.old) (G.counts_of outside.new) }
{
    match Space::of(alloc, outside, layout_of(slot)) {
        Ok(space) => Ok(space),
        Err(SpaceFault::Ground) => Err(OpenFault::Ground),
        Err(SpaceFault::Damaged { file, at }) => Err(OpenFault::Damaged { file, at }),
        Err(SpaceFault::Memory) => Err(OpenFault::Memory),
    }
}

// The store of a slot, its space and its records, where slot and records go together; that they do not is noted. It takes no memory.
fn finish<G: Ground>(
    outside: &mut G,
    index: u8,
    slot: Slot,
    found: Found,
    space: Space,
) -> Result<Held, OpenFault>
    requires slot { IsSlot slot }
    requires space { IsSpaceOf slot space }
    ensures finishes { Finishes index slot found result }
    ensures space { IfOk result (λ store. store.space ≡ space) }
    ensures only { IsTrue G.tells → ChangesOnly NoFile (G.told outside.old) (G.told outside.new) }
    ensures counts { Counts counted_open result (G.counts_of outside.old) (G.counts_of outside.new) }
{
    let Found {
        audit,
        places,
        branches,
        history,
    } = found;
    let names = audit.into_names();
    if !is_whole(&slot, &names, &branches) {
        outside.note_damage();
        return Err(slot_damaged(index));
    }
    Ok(Held {
        index,
        slot,
        names,
        places,
        branches,
        history,
        space,
        collection: None,
        unswept: Unswept {
            chunk: slot.first_chunk,
            attempt: slot.first_attempt,
        },
    })
}

// Whether there are as many commits as the slot says, and each branch is at one of them.
fn is_whole(slot: &Slot, names: &Names, branches: &Branches) -> bool
    requires { IsSlot slot.now }
    ensures { IsTrue result ↔ ((slot.now.next ≡ slot.now.floor + length names.now) × AreRetained slot.now branches.now) }
{
    slot.next - slot.floor == names.len() as u64
        && branches.len() <= BRANCHES_MAX
        && branches.are_within(slot.floor, slot.next)
}
