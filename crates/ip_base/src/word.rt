// The bytes that words and steps are made of.
ghost use Rattle.std.specs.Prelude.{◌≡◌, ◌≢◌, IsTrue};
ghost use Rattle.ip_base.specs.PathText.{IsWordByte, is_word_byte, is_step_byte, slash};

/// Whether the byte may stand in a word: it is no space, line feed or NUL.
pub fn is_word_byte(byte: u8) -> bool
    ensures is { result ≡ is_word_byte byte }
    ensures means { IsTrue result → IsWordByte byte }
{
    byte != b' ' && byte != b'\n' && byte != 0
}

/// Whether the byte may stand in a step: one of a word, and no slash.
pub fn is_step_byte(byte: u8) -> bool
    ensures is { result ≡ is_step_byte byte }
    ensures means { IsTrue result → IsWordByte byte × (byte ≢ slash) }
{
    is_word_byte(byte) && byte != b'/'
}
