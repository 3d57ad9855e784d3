//! The numbers that fields write: decimal digits with no leading zero.
//!
//! `0` and `65535` have at most five digits; `007`, `+1` and the empty text are no numbers. Whether
//! a number is within the limit of its field is asked by the caller.

ghost use Rattle.std.specs.Prelude.{◌≡◌, ◌≤◌, length};
ghost use Rattle.sig_table.specs.Numbers.{digits_number, number_of, positive_of};

// The number of one to `most` digits, with no leading zero.
#[tactic(auto, unfolding(crate::specs::Numbers::number_of))]
pub(crate) fn read_number(text: &[u8], most: usize) -> Option<u32>
    requires { most ≤ 9 }
    ensures { result ≡ number_of most text.now }
{
    if text.is_empty() {
        return None;
    }
    if text.len() > most {
        return None;
    }
    if text[0] == b'0' && text.len() > 1 {
        return None;
    }
    value_of(text)
}

// The number of one to nine digits, the first not 0.
#[tactic(auto, unfolding(crate::specs::Numbers::positive_of))]
pub(crate) fn read_positive(text: &[u8]) -> Option<u32>
    ensures { result ≡ positive_of text.now }
{
    if !text.is_empty() && text[0] == b'0' {
        return None;
    }
    read_number(text, 9)
}

// The number that the digits write, where all are digits.
fn value_of(text: &[u8]) -> Option<u32>
    requires { length text.now ≤ 9 }
    ensures { result ≡ digits_number text.now }
{
    let mut value = 0;
    for b in text {
        if !b.is_ascii_digit() {
            return None;
        }
        value = value * 10 + u32::from(b - b'0');
    }
    Some(value)
}
