// Where new contents lie: each bytes have one record.
ghost use Rattle.std.specs.Prelude.{◌≡◌, ◌++◌, ℕ, List, [], All, IfOk, OnOk};
ghost use Rattle.sha2.specs.Sha256.{sha256};
ghost use Rattle.ip_spec.specs.Path.{Bytes};
ghost use Rattle.ip_save.specs.Earlier.{AreKept, IsPlacedOnce, found_or, slices_of};
ghost use Rattle.ip_save.specs.Laid.{IsShort, contents_at, contents_bytes};
ghost use Rattle.ip_save.specs.Reused.{AreHashed, place_of, places_from, refs_of, spelled_from, told_fresh};

use crate::fresh::Fresh;
use ip_base::Memory;
use ip_object::put_contents;
use ip_spec::kind::CONTENTS;
use ip_spec::record::Ref;
use ip_tree::Stored;
use std::alloc::Global;
use std::collections::BTreeMap;

/// Where new contents lie.
#[derive(Drop)]
pub struct Placing<'a> {
    /// What refers to each of them.
    pub refs: Vec<Stored>,
    /// Those that get a record of their own, in the order in which these are put.
    pub put: Vec<&'a [u8]>,
}

/// Where these new contents lie when the first record that is put for them lies at the offset `end`. Those that were found in a record, or that are
/// the same bytes as earlier ones that were not, get none of their own.
pub fn place_fresh<'a>(alloc: Global, fresh: &[Fresh<'a>], end: u64) -> Result<Placing<'a>, Memory>
    requires hashed { AreHashed fresh.now }
    ensures refs { IfOk result (λ placing. placing.refs.items ≡ refs_of (told_fresh fresh.now) (places_from [] end (told_fresh fresh.now))) }
    ensures put { IfOk result (λ placing. slices_of placing.put.items ≡ spelled_from [] end (told_fresh fresh.now)) }
{
    let mut refs = Vec::with_capacity(alloc, fresh.len())?;
    let mut put = Vec::new(alloc);
    let mut places = BTreeMap::new(alloc);
    let mut next = end;
    for one in fresh {
        let at = place_once(one, &mut next, &mut places, &mut put)?;
        refs.push(stored_at(one, at))?;
    }
    Ok(Placing { refs, put })
}

// What refers to new contents whose record lies at an offset.
fn stored_at(one: &Fresh<'_>, at: u64) -> Stored
    ensures { one.now.name ≡ sha256 one.now.bytes.now → result ≡ contents_at one.now.bytes.now at }
{
    Stored {
        reference: Ref {
            at,
            name: one.name,
            kind: CONTENTS,
        },
        height: 0,
    }
}

// The offset of the record of new contents. Where none was found, and these bytes have none, they get the next one. So many bytes that they cannot be
// counted are no room.
fn place_once<'a>(
    one: &Fresh<'a>,
    next: &mut u64,
    places: &mut BTreeMap<&'a [u8], u64>,
    put: &mut Vec<&'a [u8]>,
) -> Result<u64, Memory>
    ensures { (seen : List (Bytes × ℕ)) → AreKept places.old seen
        → IfOk result (IsPlacedOnce (found_or one.now.at (place_of seen one.now.bytes.now)) seen one.now.bytes.now next.old next.new (slices_of put.old.items) (slices_of put.new.items) places.new) }
{
    if let Some(at) = one.at {
        return Ok(at);
    }
    if let Some(at) = places.get(&one.bytes).copied() {
        return Ok(at);
    }
    let at = *next;
    let Some(behind) = at.checked_add(one.bytes.len() as u64 + 5) else {
        return Err(Memory);
    };
    put.push(one.bytes)?;
    places.insert(one.bytes, at)?;
    *next = behind;
    Ok(at)
}

/// Puts the records of these contents behind what is there.
pub fn put_each(put: &[&[u8]], out: &mut Vec<u8>) -> Result<(), Memory>
    requires short { All (λ x. IsShort x.now) put.now }
    ensures { OnOk result (out.new.items ≡ out.old.items ++ contents_bytes (slices_of put.now)) }
{
    for bytes in put {
        put_contents(bytes, out)?;
    }
    Ok(())
}
