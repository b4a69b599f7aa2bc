//! The names that a bucket may have.
ghost use Rattle.std.specs.Prelude.{◌≡◌};
ghost use Rattle.std.specs.List.{list_all};
ghost use Rattle.js_store.specs.Name.{is_bucket_name, is_bucket_byte as is_bucket_byte_in};

fn is_bucket_byte(byte: u8) -> bool
    ensures { result ≡ is_bucket_byte_in byte }
{
    byte.is_ascii_alphanumeric() || byte == b'_' || byte == b'-'
}

fn has_only_bucket_bytes(bytes: &[u8]) -> bool
    ensures { result ≡ list_all is_bucket_byte_in bytes.now }
{
    bytes.iter().all(|byte| is_bucket_byte(*byte))
}

/// Returns whether a bucket may have this name: it is not empty and has only ASCII letters, digits,
/// `_` and `-`.
pub fn is_valid_bucket_name(name: &str) -> bool
    ensures { result ≡ is_bucket_name name.now }
{
    !name.is_empty() && has_only_bucket_bytes(name.as_bytes())
}
