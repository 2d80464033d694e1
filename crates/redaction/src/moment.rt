//! How a moment is written (RFC 3339 section 5.6).
ghost use Rattle.std.specs.Prelude.{◌≡◌, ◌≤◌, length, option_map};
ghost use Rattle.redaction.specs.Moments as spec;

/// The pattern of a date and a time of day to the second: a digit for each `0`.
const DATE_AND_TIME: &[u8] = b"0000-00-00T00:00:00";

/// Returns whether a byte may be where the pattern has another.
fn fits(pattern: u8, byte: u8) -> bool
    ensures { result ≡ spec.fits pattern byte }
{
    match pattern {
        b'0' => byte.is_ascii_digit(),
        b'T' => byte == b'T' || byte == b't',
        _ => byte == pattern,
    }
}

/// Returns what is left of a text behind a byte, if it begins with one that fits the pattern.
fn behind_byte(pattern: u8, text: &[u8]) -> Option<&[u8]>
    ensures { option_map (λ r. r.now) result ≡ spec.behind_byte pattern text.now }
{
    let [byte, rest @ ..] = text else {
        return None;
    };
    if fits(pattern, *byte) {
        Some(rest)
    } else {
        None
    }
}

/// Returns what is left of a text behind a pattern, if it begins with what fits that.
fn behind<'a>(pattern: &[u8], text: &'a [u8]) -> Option<&'a [u8]>
    ensures { option_map (λ r. r.now) result ≡ spec.behind pattern.now text.now }
{
    let mut rest = text;
    for byte in pattern {
        let Some(others) = behind_byte(*byte, rest) else {
            return None;
        };
        rest = others;
    }
    Some(rest)
}

/// Returns what is left of a text behind a date and a time of day, if it begins with these.
fn behind_time(text: &[u8]) -> Option<&[u8]>
    ensures { option_map (λ r. r.now) result ≡ spec.behind_time text.now }
{
    behind(DATE_AND_TIME, text)
}

/// Returns how many digits a text begins with.
fn digit_count(text: &[u8]) -> usize
    ensures value { result ≡ spec.digit_count text.now }
    ensures within { result ≤ length text.now }
{
    let mut count = 0;
    for byte in text {
        if !byte.is_ascii_digit() {
            return count;
        }
        count += 1;
    }
    count
}

/// Returns what is left of a text behind the digits that it begins with.
fn behind_digits(text: &[u8]) -> &[u8]
    ensures { result.now ≡ spec.behind_digits text.now }
{
    &text[digit_count(text)..]
}

/// Returns what is left of a text behind a fraction of a second, if it begins with one.
fn behind_fraction(text: &[u8]) -> &[u8]
    ensures { result.now ≡ spec.behind_fraction text.now }
{
    match text {
        [b'.', digit, rest @ ..] if digit.is_ascii_digit() => behind_digits(rest),
        _ => text,
    }
}

/// Returns whether two bytes are the digits of an hour, 00 to 23.
fn is_hour(tens: u8, ones: u8) -> bool
    ensures { result ≡ spec.is_hour tens ones }
{
    tens.is_ascii_digit() && ones.is_ascii_digit() && (tens < b'2' || (tens == b'2' && ones < b'4'))
}

/// Returns whether two bytes are the digits of a minute, 00 to 59.
fn is_minute(tens: u8, ones: u8) -> bool
    ensures { result ≡ spec.is_minute tens ones }
{
    tens.is_ascii_digit() && ones.is_ascii_digit() && tens < b'6'
}

/// Returns whether a text is an offset from UTC.
fn is_offset(text: &[u8]) -> bool
    ensures { result ≡ spec.is_offset text.now }
{
    match text {
        [zulu] => *zulu == b'Z' || *zulu == b'z',
        [sign, a, b, colon, c, d] => {
            (*sign == b'+' || *sign == b'-')
                && is_hour(*a, *b)
                && *colon == b':'
                && is_minute(*c, *d)
        }
        _ => false,
    }
}

/// Returns whether a text is written as a date, a time of day and an offset from UTC (RFC 3339 section 5.6), as
/// `2026-06-01T00:00:00Z`. Its numbers may still be those of no moment.
#[tactic(auto, unfolding(crate::specs::Moments::is_written))]
pub fn is_written(text: &str) -> bool
    ensures { result ≡ spec.is_written text.now }
{
    match behind_time(text.as_bytes()) {
        Some(rest) => is_offset(behind_fraction(rest)),
        None => false,
    }
}
