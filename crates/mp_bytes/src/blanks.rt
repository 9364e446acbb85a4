//! Single bytes and whole texts.

ghost use Rattle.std.specs.Prelude.{◌≡◌};
ghost use Rattle.mp_bytes.specs.Bytes.{is_blank as is_blank_byte, same_text as is_same_text};

/// Whether a byte is a space or a tab.
pub fn is_blank(byte: u8) -> bool
    ensures { result ≡ is_blank_byte byte }
{
    byte == b' ' || byte == b'\t'
}

/// Whether two texts have the same bytes.
pub fn same_text(text: &[u8], other: &[u8]) -> bool
    ensures { result ≡ is_same_text text.now other.now }
{
    text == other
}
