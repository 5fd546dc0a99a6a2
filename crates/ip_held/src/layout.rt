// Where the records of a slot lie.
ghost use Rattle.std.specs.Prelude.{◌≡◌};
ghost use Rattle.ip_image.specs.Slot.{layout_of};

use ip_control::Slot;
use ip_space::Layout;

/// Where the records of a slot lie.
pub fn layout_of(slot: &Slot) -> Layout
    ensures { result ≡ layout_of slot.now }
{
    Layout {
        chunk: slot.chunk,
        horizon: slot.horizon,
        end: slot.end,
        live: slot.live,
        prefix_len: slot.prefix_len,
        rows: slot.rows,
    }
}
