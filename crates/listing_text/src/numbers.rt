// Numbers as decimal text.
ghost use Rattle.std.specs.Prelude.{◌≡◌, ◌≤◌, decimal, length, IsTrue, IfSome};
ghost use Rattle.std.specs.List.{list_all};
ghost use Rattle.listing_text.specs.Numbers.{is_digit as is_digit_byte, is_decimal as is_decimal_text, number_of};

use std::str;

// How many digits a number has.
pub(crate) fn decimal_len(number: u64) -> usize
    ensures { result ≡ length (decimal number) }
{
    let mut len = 1;
    let mut rest = number;
    while rest >= 10 {
        rest /= 10;
        len += 1;
    }
    len
}

/// The number that a decimal text writes, where it is at most `most`. Only `0` begins with a zero.
#[tactic(auto, unfolding(crate::specs::Numbers::number_of))]
pub fn read_number(text: &[u8], most: u64) -> Option<u64>
    ensures number { result ≡ number_of most text.now }
    ensures bound { IfSome result (λ n. n ≤ most) }
{
    if !is_decimal(text) {
        return None;
    }
    match str::from_utf8(text) {
        Ok(digits) => parse_up_to(digits, most),
        Err(_) => None,
    }
}

// The number that digits write, where it is at most `most`.
fn parse_up_to(digits: &str, most: u64) -> Option<u64>
    requires { IsTrue (is_decimal_text digits.now) }
    ensures number { result ≡ number_of most digits.now }
    ensures bound { IfSome result (λ n. n ≤ most) }
{
    match digits.parse::<u64>() {
        Ok(number) => { if number <= most { Some(number) } else { None } }
        Err(_) => None,
    }
}

// Whether a text has one digit or more, the first of several no zero.
fn is_decimal(text: &[u8]) -> bool
    ensures { result ≡ is_decimal_text text.now }
{
    match text {
        [] => false,
        [first, rest @ ..] => { has_digits(text) && (*first != b'0' || rest.is_empty()) }
    }
}

fn has_digits(text: &[u8]) -> bool
    ensures { result ≡ list_all is_digit_byte text.now }
{
    text.iter().all(|b| is_digit(*b))
}

pub(crate) fn is_digit(b: u8) -> bool
    ensures { result ≡ is_digit_byte b }
{
    b'0' <= b && b <= b'9'
}
