// Bytes are appended to the chunks of a new ground, and stand there then.
ghost use Rattle.std.specs.Prelude.{◌+◌, ◌^◌, ◌≤◌, [], ◌∷◌, IsTrue, OnOk, length};
ghost use Rattle.ip_image.specs.Slot.{IsChunkSize};
ghost use Rattle.ip_chunks.specs.Places.{chunk_start};
ghost use Rattle.ip_chunks.specs.Fronts.{Holds, AppendsKept};

use crate::grounds::ground;
use ip_chunks::Chunks;
use ip_ground::{Bench, Ground, GroundFault};

// What a store does: bytes behind a front that is there, and the chunks that hold them synced.
fn append_kept<G: Ground>(
    chunks: Chunks,
    outside: &mut G,
    from: u64,
    front: &[u8],
    bytes: &[u8],
) -> Result<(), GroundFault>
    requires allowed { IsChunkSize chunks.size }
    requires room { from + length front.now + length bytes.now ≤ 2 ^ 62 }
    requires begins { from ≤ chunk_start chunks.size (from + length front.now) }
    ensures { IsTrue G.tells → Holds chunks.size from front.now (G.told outside.old).held → AppendsKept chunks.size from (from + length front.now) front.now bytes.now result (G.told outside.old) (G.told outside.new) }
{
    let end = from + front.len() as u64;
    chunks.append(outside, end, bytes)?;
    chunks.sync_range(outside, end, end + bytes.len() as u64)
}

fn small_chunks() -> Chunks
    ensures { IsChunkSize result.size }
{
    Chunks { size: 4096 }
}

// The bytes 1 to 4, and 5 and 6 behind them. It ends at the first call that fails.
fn six_bytes(chunks: Chunks, bench: &mut Bench) -> Result<(), GroundFault>
    requires allowed { IsChunkSize chunks.size }
    ensures { OnOk result (Holds chunks.size 0 (1 ∷ 2 ∷ 3 ∷ 4 ∷ 5 ∷ 6 ∷ []) (⟦<Bench as Ground>⟧.told bench.new).held) }
{
    append_kept(chunks, bench, 0, &[], &[1, 2, 3, 4])?;
    append_kept(chunks, bench, 0, &[1, 2, 3, 4], &[5, 6])
}

#[test]
fn bytes_are_appended_and_read(rt: HostRuntime) {
    let chunks = small_chunks();
    let mut bench = ground(rt.alloc(), None);
    assert!(rt; six_bytes(chunks, &mut bench).is_ok());
    let mut out = [0; 8];
    assert_eq!(rt; chunks.read_at(&mut bench, 2, &mut out), Ok(4));
    assert_eq!(rt; out, [3, 4, 5, 6, 0, 0, 0, 0]);
}
