// Copies of a text.

ghost use Rattle.std.specs.Prelude.{◌≡◌, ◌+◌, ◌++◌, length, drop, is_ok, if◌then◌else◌, nat_le};
ghost use Rattle.list.specs.Held.{held, free, capacity};

use crate::bytes::Bytes;
use list::{Full, List};

/// All bytes of a text behind what a list holds. Where there is no room for all, nothing has changed.
pub fn append<B: Bytes>(to: &mut List<u8>, more: B) -> Result<(), Full>
    ensures fits { is_ok result ≡ nat_le (to.old.len + length (B.to_come more)) (capacity to.old) }
    ensures all_more { held to.new ≡ (if is_ok result then held to.old ++ B.to_come more else held to.old) }
    ensures others_as_before { free to.new ≡ (if is_ok result then drop (length (B.to_come more)) (free to.old) else free to.old) }
    ensures counted { to.new.len ≡ (if is_ok result then to.old.len + length (B.to_come more) else to.old.len) }
    ensures same_capacity { capacity to.new ≡ capacity to.old }
    ensures same_memory { to.new.items.ghost_name ≡ to.old.items.ghost_name }
{
    if more.bytes_left() > to.room() {
        return Err(Full);
    }
    let mut rest = more;
    while let Some(byte) = rest.next() {
        to.push(byte).unwrap();
    }
    Ok(())
}
