//! The parts of a line, each read from the front of the bytes.
ghost use Rattle.std.specs.Prelude.{◌≡◌, ◌++◌, ◌∷◌, MatchOption, option_map};
ghost use Rattle.line_parts.specs.LineEnds.{HasNoFeed};
ghost use Rattle.line_parts.specs.Parts.{after, digits_after, number_at};

use memchr::memchr;

/// The bytes after a text, if the text is at the front.
///
/// For example, after `shape ` in `shape 1 3 1` comes `1 3 1`.
#[inline(always)]
pub fn after<'a>(bytes: &'a [u8], text: &str) -> Option<&'a [u8]>
    ensures { option_map (λ rest. rest.now) result ≡ after text.now bytes.now }
{
    bytes.strip_prefix(text.as_bytes())
}

/// The bytes before the first line feed, and those after it. `None` if there is no line feed.
///
/// For example, of two lines `ab` and `c` it returns `ab`, and `c` with its line feed.
#[inline(always)]
pub fn split_line(bytes: &[u8]) -> Option<(&[u8], &[u8])>
    ensures { MatchOption result (HasNoFeed bytes.now) (λ x. HasNoFeed x.0.now ×
        (bytes.now ≡ x.0.now ++ 10 ∷ x.1.now)) }
{
    let end = memchr(b'\n', bytes)?;
    Some((&bytes[..end], &bytes[end + 1..]))
}

/// The number in decimal at the front, and the bytes after its digits. `None` if no digit is at the front, or if the number
/// needs more than 64 bits. After a 0 no further digit is read, so each number has one form.
///
/// For example, at the front of `12.0` is 12, and at the front of `012` is 0.
#[tactic(auto, unfolding(crate::specs::Parts::number_at))]
pub fn number_at(bytes: &[u8]) -> Option<(u64, &[u8])>
    ensures { option_map (λ x. (x.0, x.1.now)) result ≡ number_at bytes.now }
{
    let (first, rest) = bytes.split_first()?;
    if !first.is_ascii_digit() {
        return None;
    }
    if *first == b'0' {
        return Some((0, rest));
    }
    digits_after(u64::from(*first - b'0'), rest)
}

// The number that continues with the digits at the front, if it fits 64 bits, and the bytes after them.
fn digits_after(begun: u64, bytes: &[u8]) -> Option<(u64, &[u8])>
    ensures { option_map (λ x. (x.0, x.1.now)) result ≡ digits_after begun bytes.now }
{
    let mut number = begun;
    for (i, digit) in bytes.iter().enumerate() {
        if !digit.is_ascii_digit() {
            return Some((number, &bytes[i..]));
        }
        number = number
            .checked_mul(10)?
            .checked_add(u64::from(*digit - b'0'))?;
    }
    Some((number, &[]))
}
