//! Decimals: plain ones, and signed ones.

ghost use Rattle.std.specs.Prelude.{◌≡◌, ◌^◌, ◌<◌, ◌≤◌, IfSome, unsigned_abs};
ghost use Rattle.std.specs.Str.{all_ascii_digits};
ghost use Rattle.side_tables.specs.Numbers.{is_plain_decimal, number_of, signed_number_of};

/// Whether every byte is an ASCII digit.
fn has_only_digits(text: &[u8]) -> bool
    ensures { result ≡ all_ascii_digits text.now }
{
    for byte in text {
        if !byte.is_ascii_digit() {
            return false;
        }
    }
    true
}

/// Whether a text is a plain decimal: ASCII digits alone, with no leading zero unless it is `0`.
fn is_plain_decimal(text: &[u8]) -> bool
    ensures { result ≡ is_plain_decimal text.now }
{
    match text {
        [] => false,
        [b'0', _, ..] => false,
        _ => has_only_digits(text),
    }
}

/// The number of 32 bits that a plain decimal from `low` to `high` says.
pub fn number(text: &[u8], low: u32, high: u32) -> Option<u32>
    ensures number { result ≡ number_of low high text.now }
    ensures low { IfSome result (λ number. low ≤ number) }
    ensures high { IfSome result (λ number. number ≤ high) }
{
    let number = wide_number(text, u64::from(low), u64::from(high))?;
    Some(number as u32)
}

/// The number of 64 bits that a plain decimal from `low` to `high` says.
pub fn wide_number(text: &[u8], low: u64, high: u64) -> Option<u64>
    ensures number { result ≡ number_of low high text.now }
    ensures low { IfSome result (λ number. low ≤ number) }
    ensures high { IfSome result (λ number. number ≤ high) }
{
    match str::from_utf8(text) {
        Ok(text) => number_in_text(text, low, high),
        Err(_) => None,
    }
}

/// The number that a decimal says, from -9,223,372,036,854,775,808 to 18,446,744,073,709,551,615: a plain one, or `-` and
/// a plain one above 0.
pub fn signed_number(text: &[u8]) -> Option<i128>
    ensures number { result ≡ signed_number_of text.now }
    ensures bound { IfSome result (λ number. unsigned_abs number < 2 ^ 64) }
{
    if let [b'-', digits @ ..] = text {
        let below = wide_number(digits, 1, 9_223_372_036_854_775_808)?;
        return Some(-i128::from(below));
    }
    let number = wide_number(text, 0, u64::MAX)?;
    Some(i128::from(number))
}

/// The number that a plain decimal from `low` to `high` says.
fn number_in_text(text: &str, low: u64, high: u64) -> Option<u64>
    ensures number { result ≡ number_of low high text.now }
    ensures low { IfSome result (λ number. low ≤ number) }
    ensures high { IfSome result (λ number. number ≤ high) }
{
    if !is_plain_decimal(text.as_bytes()) {
        return None;
    }
    let value: u64 = text.parse().ok()?;
    (low <= value && value <= high).then_some(value)
}
