//! The names of selections, tables and columns.
ghost use Rattle.std.specs.Prelude.{◌≡◌};
ghost use Rattle.std.specs.List.{list_all};
ghost use Rattle.style_read.specs.Name.{is_name, is_name_byte};

/// The most characters of a name.
pub(crate) const MAX_NAME: usize = 63;

/// The one character of a name that is no letter and no digit.
pub(crate) const UNDERSCORE: u8 = b'_';

/// Whether a text is a name: 1 to 63 characters of a to z, 0 to 9 and `_`.
pub(crate) fn is_name(text: &str) -> bool
    ensures name { result ≡ is_name text.now }
{
    1 <= text.len() && text.len() <= MAX_NAME && has_name_bytes(text.as_bytes())
}

/// Whether each byte may stand in a name.
fn has_name_bytes(bytes: &[u8]) -> bool
    ensures bytes { result ≡ list_all is_name_byte bytes.now }
{
    bytes.iter().all(|&byte| is_name_byte(byte))
}

/// Whether a byte may stand in a name.
fn is_name_byte(byte: u8) -> bool
    ensures byte { result ≡ is_name_byte byte }
{
    byte.is_ascii_lowercase() || byte.is_ascii_digit() || byte == UNDERSCORE
}
