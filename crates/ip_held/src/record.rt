// The bytes of a record.
ghost use Rattle.std.specs.Prelude.{◌≡◌, IfOk};
ghost use Rattle.ip_spec.specs.Record.{Fits, spelling};

use ip_base::Memory;
use ip_object::encode_into;
use ip_spec::record::Record;
use std::alloc::Global;

/// The bytes of a record, in a list of their own.
pub fn spelled(alloc: Global, rec: &Record) -> Result<Vec<u8>, Memory>
    requires { Fits 1 rec.now }
    ensures { IfOk result (λ bytes. bytes.items ≡ spelling rec.now) }
{
    let mut bytes = Vec::new(alloc);
    encode_into(rec, &mut bytes)?;
    Ok(bytes)
}
