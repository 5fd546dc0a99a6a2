//! A mapping's bytes.
ghost use Rattle.std.specs.Prelude.{◌≡◌, ◌++◌, IfOk, OnOk};
ghost use Rattle.ip_image.specs.Virtual.{placed, mapping_bytes, RowsFit, row_bytes};
ghost use Rattle.ip_mapping.specs.Parsing.{head_bytes};

use crate::Head;
use ip_base::{Blob, Memory};
use ip_image::run::{Row, Run};
use std::alloc::Global;

/// The file of the mapping with these runs, in which the prefix has them one behind another. Numbers are in
/// bytes of the virtual space.
pub fn build(alloc: Global, horizon: u64, end: u64, runs: &[Run]) -> Result<Blob, Memory>
    requires { RowsFit horizon (placed 0 runs.now) }
    ensures { IfOk result (λ bytes. bytes ≡ mapping_bytes horizon end runs.now) }
{
    let mut out = Vec::with_capacity(alloc, 32 + 24 * runs.len())?;
    let head = Head {
        horizon,
        end,
        rows: runs.len() as u64,
    };
    put_head(&mut out, &head)?;
    let mut place = 0;
    for run in runs {
        let row = Row {
            at: run.at,
            length: run.length,
            place,
        };
        put_row(&mut out, &row)?;
        place += run.length;
    }
    Ok(Blob::of(out))
}

/// Appends the head of a mapping's file, 32 bytes.
pub fn put_head(out: &mut Vec<u8>, head: &Head) -> Result<(), Memory>
    ensures { OnOk result (out.new.items ≡ out.old.items ++ head_bytes head.now) }
{
    out.extend_from_slice(b"IPMAP001")?;
    out.extend_from_slice(&head.horizon.to_le_bytes())?;
    out.extend_from_slice(&head.end.to_le_bytes())?;
    out.extend_from_slice(&head.rows.to_le_bytes())?;
    Ok(())
}

/// Appends a row of a mapping's file, 24 bytes.
pub fn put_row(out: &mut Vec<u8>, row: &Row) -> Result<(), Memory>
    ensures { OnOk result (out.new.items ≡ out.old.items ++ row_bytes row.now) }
{
    out.extend_from_slice(&row.at.to_le_bytes())?;
    out.extend_from_slice(&row.length.to_le_bytes())?;
    out.extend_from_slice(&row.place.to_le_bytes())?;
    Ok(())
}
