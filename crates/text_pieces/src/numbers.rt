//! Decimal numbers.

ghost use Rattle.std.specs.Prelude.{◌≡◌, ◌^◌};
ghost use Rattle.std.specs.Char.{is_ascii_digit};
ghost use Rattle.std.specs.List.{list_all};
ghost use Rattle.text_pieces.specs.Numbers as spec;

fn are_digits(digits: &[u8]) -> bool
    ensures { result ≡ list_all is_ascii_digit digits.now }
{
    digits.iter().all(|byte| byte.is_ascii_digit())
}

/// Whether a text is one or more decimal digits without a zero before them, of any length.
pub fn is_plain(digits: &[u8]) -> bool
    ensures { result ≡ spec.is_plain digits.now }
{
    if digits.is_empty() {
        return false;
    }
    if !are_digits(digits) {
        return false;
    }
    digits[0] != b'0' || digits.len() == 1
}

/// The number below 2^64 that one or more decimal digits write. Leading zeros are allowed, and no sign.
pub fn number_u64(digits: &[u8]) -> Option<u64>
    ensures { result ≡ spec.number_below (2 ^ 64) digits.now }
{
    if digits.is_empty() || digits[0] == b'+' {
        return None;
    }
    match std::str::from_utf8(digits) {
        Ok(text) => text.parse::<u64>().ok(),
        Err(_) => None,
    }
}

/// The same of a number below 2^32.
pub fn number_u32(digits: &[u8]) -> Option<u32>
    ensures { result ≡ spec.number_below (2 ^ 32) digits.now }
{
    let number = number_u64(digits)?;
    u32::try_from(number).ok()
}

/// The number below 2^64 that one or more decimal digits write. Neither a zero nor a sign comes before it, so each number is
/// written in one way.
pub fn plain_number_u64(digits: &[u8]) -> Option<u64>
    ensures { result ≡ spec.plain_number_below (2 ^ 64) digits.now }
{
    if digits.len() > 1 && digits[0] == b'0' {
        return None;
    }
    number_u64(digits)
}

/// The same of a number below 2^32.
pub fn plain_number_u32(digits: &[u8]) -> Option<u32>
    ensures { result ≡ spec.plain_number_below (2 ^ 32) digits.now }
{
    let number = plain_number_u64(digits)?;
    u32::try_from(number).ok()
}
