// The places of a step.
ghost use Rattle.std.specs.Prelude.{◌≡◌, ◌<◌, All};
ghost use Rattle.sha2.specs.Sha256.{sha256};
ghost use Rattle.ip_spec.specs.Shape.{place, deepest};
ghost use Rattle.ip_shape.specs.Place.{place_in};

use ip_base::Step;
use sha2::{Digest, Sha256};
use std::marker::Model;

/// The depth at which every part is a leaf. An inode has a lesser one.
pub const DEEPEST: u8 = 51;

/// How many places there are at a depth: an inode has a child for each.
pub const CHILDREN: u8 = 32;

/// The places of a step at all depths: its SHA-256 (FIPS 180-4), which an operation computes once.
#[derive(Clone, Copy)]
pub struct Places {
    digest: [u8; 32],
}

impl Model for Places {
    ghost use Rattle.std.specs.Prelude.{List, ℕ, ◌<◌, All};

    ghost Value = { List ℕ };

    ghost view = { λ p. p.digest };

    ghost inverse = { λ digest. record { digest = digest } };

    ghost invariant = { λ p. All (λ b. b < 256) p.digest };
}

impl Places {
    pub fn of(step: &Step) -> Self
        ensures { result ≡ sha256 step.now }
    {
        Places {
            digest: Sha256::digest(step.bytes()),
        }
    }

    /// The index, below 32, among the children of an inode of this depth.
    pub fn at(&self, depth: u8) -> u8
        requires { depth < deepest }
        ensures { result ≡ place_in self.now depth }
    {
        five_bits(self.digest, depth)
    }
}

// Five bits of a digest, which lie in at most two of its bytes.
fn five_bits(digest: [u8; 32], depth: u8) -> u8
    requires bytes { All (λ b. b < 256) digest }
    requires inode { depth < deepest }
    ensures { result ≡ place_in digest depth }
{
    let end = (5 * depth as usize + 12) / 8;
    let after = 8 * end - (5 * depth as usize + 5);
    let low = digest[end - 1] as u16;
    if end < 2 {
        return ((low >> after) % 32) as u8;
    }
    let high = digest[end - 2] as u16;
    (((high * 256 + low) >> after) % 32) as u8
}

/// The index, below 32, of a step among the children of an inode of this depth.
pub fn place(step: &Step, depth: u8) -> u8
    requires { depth < deepest }
    ensures { result ≡ place step.now depth }
{
    Places::of(step).at(depth)
}
