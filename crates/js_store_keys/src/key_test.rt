//! Which texts are keys.
ghost use Rattle.std.specs.Prelude.{◌≡◌};
ghost use Rattle.std.specs.List.{list_all};
ghost use Rattle.js_store_keys.specs.Key.{is_key, is_key_byte as is_key_byte_in};

use js_base::is_valid_subject;

fn is_key_byte(byte: u8) -> bool
    ensures { result ≡ is_key_byte_in byte }
{
    byte.is_ascii_alphanumeric() || matches!(byte, b'-' | b'/' | b'_' | b'=' | b'.')
}

fn has_only_key_bytes(bytes: &[u8]) -> bool
    ensures { result ≡ list_all is_key_byte_in bytes.now }
{
    bytes.iter().all(|byte| is_key_byte(*byte))
}

/// Returns whether a text is a key: it is not empty, contains only ASCII letters, digits, `-`, `/`,
/// `_`, `=` and `.`, and neither begins nor ends with a dot.
pub fn is_valid_key(key: &str) -> bool
    ensures { result ≡ is_key key.now }
{
    is_valid_subject(key) && has_only_key_bytes(key.as_bytes())
}
