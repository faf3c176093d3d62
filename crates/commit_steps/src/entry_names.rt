// The names of entries in the staging directory.
ghost use Rattle.std.specs.Prelude.{◌≡◌, ◌≤◌, IsTrue, length};
ghost use Rattle.std.specs.List.{list_all};
ghost use Rattle.std.specs.Str.Parse.{digits_value};
ghost use Rattle.commit_steps.specs.Numbers.{is_decimal as is_decimal_text, is_digit, is_number as is_number_text};
ghost use Rattle.commit_steps.specs.Tests.{is_entry_name as is_entry_text, is_letter as is_letter_byte};

// Whether a name is that of an entry that a commit moves: `tN`, `hN` or `fN`, N in decimal without a leading zero and
// of 32 bits.
pub(crate) fn is_entry_name(name: &str) -> bool
    ensures { result ≡ is_entry_text name.now }
{
    match name.as_bytes() {
        [] => false,
        [letter, digits @ ..] => is_letter(*letter) && is_number(digits),
    }
}

fn is_letter(b: u8) -> bool
    ensures { result ≡ is_letter_byte b }
{
    b == b't' || b == b'h' || b == b'f'
}

// Whether these bytes are a number of 32 bits in decimal, without a leading zero.
fn is_number(digits: &[u8]) -> bool
    ensures { result ≡ is_number_text digits.now }
{
    is_decimal(digits) && value_of(digits) <= u64::from(u32::MAX)
}

// Whether these bytes are 1 to 10 digits, the first of several no zero.
fn is_decimal(bytes: &[u8]) -> bool
    ensures { result ≡ is_decimal_text bytes.now }
{
    if bytes.is_empty() || bytes.len() > 10 {
        return false;
    }
    (bytes[0] != b'0' || bytes.len() == 1) && has_digits(bytes)
}

fn has_digits(bytes: &[u8]) -> bool
    ensures { result ≡ list_all is_digit bytes.now }
{
    bytes.iter().all(|b| 48 <= *b && *b <= 57)
}

fn value_of(digits: &[u8]) -> u64
    requires { IsTrue (is_decimal_text digits.now) }
    ensures { result ≡ digits_value 10 digits.now }
{
    let mut value = 0;
    for digit in digits {
        value = value * 10 + u64::from(*digit - b'0');
    }
    value
}
