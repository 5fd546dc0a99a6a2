//! Where the bytes below the horizon lie in a prefix file: the mapping's file, read, written and looked up.
#![tactic(auto)]

ghost use Rattle.std.specs.Prelude.{◌≡◌, ℕ, List, map};
ghost use Rattle.ip_spec.specs.Path.{Bytes};
ghost use Rattle.ip_spec.specs.Record.{IsU64};
ghost use Rattle.ip_image.specs.declared.run.Run.{Run};
ghost use Rattle.ip_image.specs.Virtual.{run_of, placed, mapping_bytes, RowsFit};
ghost use Rattle.ip_mapping.specs.declared.head.Head.{Head};
ghost use Rattle.ip_mapping.specs.Parsing.{Fields, IsForm, IsMapping, IsBadAt, Begins, head_of};

mod encode;
mod fault;
mod head;
mod mapping;
mod reader;

pub use encode::{build, put_head, put_row};
pub use fault::MappingFault;
pub use head::Head;
pub use ip_image::run::{Row, Run};
pub use mapping::Mapping;

/// Bytes are one mapping at most, or go wrong at one place at most, and never both. The numbers in front are
/// the mapping's, also where its rows are in no order.
pub fn one_outcome()
    ensures form { (bytes : Bytes) (m n : Fields) → IsForm bytes m → IsForm bytes n → m ≡ n }
    ensures head { (bytes : Bytes) (head : Head) (m : Fields) → IsU64 head.horizon → IsU64 head.end → IsU64 head.rows
        → Begins bytes head → IsForm bytes m → head ≡ head_of m }
    ensures place { (bytes : Bytes) (a b : ℕ) → IsBadAt bytes a → IsBadAt bytes b → a ≡ b }
    ensures apart { (bytes : Bytes) (m : Fields) (a : ℕ) → IsMapping bytes m → IsBadAt bytes a → ⊥ }
{}

/// What `build` writes is the mapping of its runs, whatever the two numbers.
pub fn built_is_mapping()
    ensures built { (horizon end : ℕ) (runs : List Run) → IsU64 horizon → IsU64 end → RowsFit horizon (placed 0 runs)
        → IsMapping (mapping_bytes horizon end runs) (record { horizon = horizon; end = end; rows = placed 0 runs }) }
    ensures runs { (runs : List Run) → map run_of (placed 0 runs) ≡ runs }
{}
