// Numbers in decimal.
ghost use Rattle.std.specs.Prelude.{◌≡◌, ◌-◌, ◌^◌, IsTrue, min};
ghost use Rattle.std.specs.List.{list_all};
ghost use Rattle.std.specs.Str.Parse.{digits_value};
ghost use Rattle.commit_steps.specs.Numbers.{is_digit};
ghost use Rattle.staging_names.specs.Numbers.{is_decimal as is_decimal_text, number_read};

// The number that these bytes are in decimal without a leading zero, if they are one. A greater one than 2^64 - 1 is read as that.
pub(crate) fn number_in(digits: &[u8]) -> Option<u64>
    ensures { result ≡ number_read digits.now }
{
    if !is_decimal(digits) {
        return None;
    }
    Some(value_of(digits))
}

// Whether these bytes are digits, one or more, the first of several no zero.
fn is_decimal(bytes: &[u8]) -> bool
    ensures { result ≡ is_decimal_text bytes.now }
{
    if bytes.is_empty() {
        return false;
    }
    (bytes[0] != b'0' || bytes.len() == 1) && has_digits(bytes)
}

fn has_digits(bytes: &[u8]) -> bool
    ensures { result ≡ list_all is_digit bytes.now }
{
    bytes.iter().all(|b| 48 <= *b && *b <= 57)
}

fn value_of(digits: &[u8]) -> u64
    requires { IsTrue (list_all is_digit digits.now) }
    ensures { result ≡ min (digits_value 10 digits.now) (2 ^ 64 - 1) }
{
    let mut value: u64 = 0;
    for digit in digits {
        value = value
            .saturating_mul(10)
            .saturating_add(u64::from(*digit - b'0'));
    }
    value
}
