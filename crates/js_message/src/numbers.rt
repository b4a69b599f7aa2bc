//! Numbers in a text.
ghost use Rattle.std.specs.Prelude.{◌≡◌, IfSome};
ghost use Rattle.js_message.specs.Numbers.{IsDigits, u64_of};
ghost use Rattle.js_message.specs.AckSubject.{i64_of, i128_of};

// The number that a text of digits alone is, where they are at most nineteen: then no step can leave a `u64`.
fn read_digits(text: &str) -> Option<u64>
    ensures { IfSome result (λ number. IsDigits text.now number) }
{
    let bytes = text.as_bytes();
    if bytes.is_empty() || bytes.len() > 19 {
        return None;
    }
    let mut number = 0;
    for byte in bytes {
        let byte = *byte;
        if byte < b'0' || byte > b'9' {
            return None;
        }
        number = number * 10 + u64::from(byte - b'0');
    }
    Some(number)
}

/// Returns the text as a `u64`: at least one digit, after an optional plus sign. Returns `None` for
/// any other text and for a number above `u64::MAX`.
pub fn read_u64(text: &str) -> Option<u64>
    ensures { result ≡ u64_of text.now }
{
    match read_digits(text) {
        Some(number) => Some(number),
        None => text.parse::<u64>().ok(),
    }
}

// The text as an `i64`.
pub(crate) fn read_i64(text: &str) -> Option<i64>
    ensures { result ≡ i64_of text.now }
{
    match read_digits(text) {
        Some(number) if number <= i64::MAX as u64 => Some(number as i64),
        _ => text.parse::<i64>().ok(),
    }
}

// The text as an `i128`.
pub(crate) fn read_i128(text: &str) -> Option<i128>
    ensures { result ≡ i128_of text.now }
{
    match read_digits(text) {
        Some(number) => Some(number as i128),
        None => text.parse::<i128>().ok(),
    }
}
