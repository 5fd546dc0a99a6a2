// The live mapping and prefix.
ghost use Rattle.std.specs.Prelude.{◌≡◌, ◌≢◌, ◌↔◌, ◌+◌, ◌*◌, ℕ, IsTrue, IfOk, OnOk, IsErrOf};
ghost use Rattle.ip_space.specs.Faults.{counted_space};
ghost use Rattle.ip_ground.specs.Counts.{Counts};
ghost use Rattle.ip_ground.specs.Contents.{Image, bytes_of, size_of};
ghost use Rattle.ip_ground.specs.Told.{IsForeign, NoFile, ChangesOnly};
ghost use Rattle.ip_space.specs.Pair.{live_mapping, live_prefix, IsOwnPair, FindsMapping, FindsPrefix, FindsPair, HasNumbers};
ghost use Rattle.ip_space.specs.declared.fault.SpaceFault.TheVariants as SpaceFault;

use crate::SpaceFault;
use crate::noting::note_pair;
use ip_ground::{FileName, Ground};
use ip_image::layout::Layout;
use ip_mapping::{Head, Mapping, MappingFault};
use std::alloc::Global;

/// The mapping of a layout with a live generation. It reads the mapping's file once, where that has the length that the layout's rows say,
/// and asks for the length of the prefix, not for its bytes.
pub fn read_live<G: Ground>(
    alloc: Global,
    outside: &mut G,
    layout: Layout,
) -> Result<Mapping, SpaceFault>
    requires { layout.live ≢ 0 }
    ensures horizon { IfOk result (λ m. m.horizon ≡ layout.horizon) }
    ensures finds { IsTrue G.tells → IsOwnPair (G.told outside.old) layout → FindsPair (G.told outside.new).held layout result }
    ensures only { IsTrue G.tells → ChangesOnly NoFile (G.told outside.old) (G.told outside.new) }
    ensures counts { Counts counted_space result (G.counts_of outside.old) (G.counts_of outside.new) }
{
    let mapping = match read_mapping(alloc, outside, layout) {
        Ok(mapping) => mapping,
        Err(fault) => return Err(fault),
    };
    if !mapping.fills(layout.prefix_len) {
        outside.note_damage();
        return Err(SpaceFault::Damaged {
            file: FileName::Mapping(layout.live),
            at: 0,
        });
    }
    if let Err(fault) = test_prefix(outside, layout) {
        return Err(fault);
    }
    Ok(mapping)
}

// The mapping, by its file.
fn read_mapping<G: Ground>(
    alloc: Global,
    outside: &mut G,
    layout: Layout,
) -> Result<Mapping, SpaceFault>
    ensures horizon { IfOk result (λ m. m.horizon ≡ layout.horizon) }
    ensures finds { IsTrue G.tells → ¬ IsForeign (G.told outside.old) (live_mapping layout) → FindsMapping (G.told outside.new).held layout result }
    ensures only { IsTrue G.tells → ChangesOnly NoFile (G.told outside.old) (G.told outside.new) }
    ensures counts { Counts counted_space result (G.counts_of outside.old) (G.counts_of outside.new) }
{
    let file = FileName::Mapping(layout.live);
    let size = outside.length(file)?.unwrap_or(0);
    if !has_rows(size, layout.rows) {
        outside.note_damage();
        return Err(SpaceFault::Damaged { file, at: 0 });
    }
    let bytes = match read_file(alloc, outside, file, size) {
        Ok(bytes) => bytes,
        Err(fault) => return Err(fault),
    };
    let found = parse_live(alloc, layout, &bytes);
    note_pair(outside, &found);
    found
}

// Whether a mapping's file of this length has this many rows.
fn has_rows(size: u64, rows: u64) -> bool
    ensures { IsTrue result ↔ (size ≡ 32 + 24 * rows) }
{
    size >= 32 && (size - 32) % 24 == 0 && (size - 32) / 24 == rows
}

// The bytes of a file of this length, or those in front of the place where it ends earlier.
fn read_file<G: Ground>(
    alloc: Global,
    outside: &mut G,
    file: FileName,
    size: u64,
) -> Result<Vec<u8>, SpaceFault>
    ensures bytes { IsTrue G.tells → ¬ IsForeign (G.told outside.old) file → size_of ((G.told outside.old).held file) ≡ size →
        IfOk result (λ bytes. bytes.items ≡ bytes_of ((G.told outside.new).held file)) }
    ensures damaged { (place : FileName) (at : ℕ) → IsErrOf result (SpaceFault.Damaged place at) → ⊥ }
    ensures only { IsTrue G.tells → ChangesOnly NoFile (G.told outside.old) (G.told outside.new) }
    ensures counts { Counts counted_space result (G.counts_of outside.old) (G.counts_of outside.new) }
{
    let Ok(mut bytes) = vec![in alloc; 0; size as usize] else {
        return Err(SpaceFault::Memory);
    };
    let count = outside.read(file, 0, &mut bytes)?;
    bytes.truncate(count);
    Ok(bytes)
}

// The mapping that the bytes of its file are. The numbers of the layout are tested before any row is.
fn parse_live(alloc: Global, layout: Layout, bytes: &[u8]) -> Result<Mapping, SpaceFault>
    ensures horizon { IfOk result (λ m. m.horizon ≡ layout.horizon) }
    ensures finds { (image : Image) → bytes_of (image (live_mapping layout)) ≡ bytes.now → FindsMapping image layout result }
    ensures ground { IsErrOf result SpaceFault.Ground → ⊥ }
{
    let file = FileName::Mapping(layout.live);
    match Head::of(bytes) {
        Some(head) if has_numbers(&head, &layout) => {}
        _ => return Err(SpaceFault::Damaged { file, at: 0 }),
    }
    match Mapping::parse(alloc, bytes) {
        Ok(mapping) => Ok(mapping),
        Err(MappingFault::Form(at)) => Err(SpaceFault::Damaged { file, at }),
        Err(MappingFault::Memory) => Err(SpaceFault::Memory),
    }
}

// Whether the numbers in front of a mapping are those of the layout.
fn has_numbers(head: &Head, layout: &Layout) -> bool
    ensures { IsTrue result ↔ HasNumbers layout.now head.now }
{
    head.horizon == layout.horizon
        && head.rows == layout.rows
        && layout.horizon < head.end
        && head.end <= layout.end
}

// Tests the length of the prefix.
fn test_prefix<G: Ground>(outside: &mut G, layout: Layout) -> Result<(), SpaceFault>
    ensures finds { IsTrue G.tells → ¬ IsForeign (G.told outside.old) (live_prefix layout) → FindsPrefix (G.told outside.new).held layout result }
    ensures only { IsTrue G.tells → ChangesOnly NoFile (G.told outside.old) (G.told outside.new) }
    ensures counts { Counts counted_space result (G.counts_of outside.old) (G.counts_of outside.new) }
{
    let file = FileName::Prefix(layout.live);
    if outside.length(file)? != Some(layout.prefix_len) {
        outside.note_damage();
        return Err(SpaceFault::Damaged { file, at: 0 });
    }
    Ok(())
}
