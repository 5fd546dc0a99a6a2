//! The chunk files seen as one list of bytes with gaps: a place, counted from 0, has a byte where the file of its chunk
//! reaches it, and is a gap where that file is absent or too short. No call takes memory, and each fault is one of the ground.
#![tactic(auto)]

ghost use Rattle.std.specs.Prelude.{◌≡◌, ◌↔◌, ◌+◌, ◌≤◌, ℕ, List, length};
ghost use Rattle.ip_ground.specs.Contents.{Image};
ghost use Rattle.ip_image.specs.declared.layout.Layout.{Layout};
ghost use Rattle.ip_image.specs.declared.run.Run.{Run};
ghost use Rattle.ip_image.specs.Virtual.{virtual_byte, chunk_byte};
ghost use Rattle.ip_image.specs.Pending.{SameChunks};
ghost use Rattle.ip_chunks.specs.Places.{NoGap};
ghost use Rattle.ip_chunks.specs.Fronts.{Holds, bytes_from};

mod chunks;

pub use chunks::Chunks;

/// The list of bytes in the words of an image. From the horizon on its bytes are the virtual ones. Without a gap there are bytes, and these alone; another
/// image has them exactly where it has the same byte at each place.
pub fn places()
    ensures virtual_bytes { (image : Image) (s : Layout) (runs : List Run) (at : ℕ) → s.horizon ≤ at → virtual_byte image s runs at ≡ chunk_byte s.chunk image at }
    ensures some { (size at n : ℕ) (image : Image) → NoGap size image at (at + n) → Holds size at (bytes_from size image at n) image }
    ensures no_gap { (size at : ℕ) (bytes : List ℕ) (image : Image) → Holds size at bytes image → NoGap size image at (at + length bytes) }
    ensures same { (size at n : ℕ) (image other : Image) → NoGap size image at (at + n) →
        Holds size at (bytes_from size image at n) other ↔ SameChunks size at (at + n) image other }
    ensures one { (size at : ℕ) (bytes : List ℕ) (image : Image) → Holds size at bytes image → bytes_from size image at (length bytes) ≡ bytes }
{}
