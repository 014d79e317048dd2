// Whether bytes are text in UTF-8.

ghost use Rattle.std.specs.Prelude.{IsUtf8, Decides};

/// Whether the bytes are UTF-8, as the standard library defines it.
pub fn is_utf8(bytes: &[u8]) -> bool
    ensures exactly_utf8 { Decides result (IsUtf8 bytes.now) }
{
    std::str::from_utf8(bytes).is_ok()
}
