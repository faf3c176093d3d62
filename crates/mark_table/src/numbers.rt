// The number that the name of a backup ends with.
ghost use Rattle.std.specs.Prelude.{◌≡◌, ◌≤◌, IfSome, IsTrue, length, take};
ghost use Rattle.std.specs.List.{list_all};
ghost use Rattle.std.specs.Option.{option_map};
ghost use Rattle.std.specs.Str.Parse.{digits_value};
ghost use Rattle.mark_table.specs.Versions.{is_digit, is_number as is_number_text, number_in as number_in_text, version_in};

fn has_digits(bytes: &[u8]) -> bool
    ensures { result ≡ list_all is_digit bytes.now }
{
    bytes.iter().all(|b| 48 <= *b && *b <= 57)
}

// Whether these bytes are a number from 1 on in decimal, without a leading zero and of at most 18 digits.
fn is_number(bytes: &[u8]) -> bool
    ensures { result ≡ is_number_text bytes.now }
{
    if bytes.is_empty() || bytes.len() > 18 || bytes[0] == b'0' {
        return false;
    }
    has_digits(bytes)
}

fn value_of(digits: &[u8]) -> u64
    requires digits { IsTrue (list_all is_digit digits.now) }
    requires short { length digits.now ≤ 18 }
    ensures { result ≡ digits_value 10 digits.now }
{
    let mut value = 0;
    for digit in digits {
        value = value * 10 + u64::from(*digit - b'0');
    }
    value
}

// N, where the text is `.~N~`.
fn number_in(text: &[u8]) -> Option<u64>
    ensures { result ≡ number_in_text text.now }
{
    let len = text.len();
    if len < 4 || text[0] != b'.' || text[1] != b'~' || text[len - 1] != b'~' {
        return None;
    }
    let digits = &text[2..len - 1];
    if !is_number(digits) {
        return None;
    }
    Some(value_of(digits))
}

/// How many bytes stand before `.~N~`, and N, where the text ends so.
pub fn version_at(text: &[u8]) -> Option<(usize, u64)>
    ensures value { option_map (λ v. (take v.0 text.now, v.1)) result ≡ version_in text.now }
    ensures within { IfSome result (λ v. v.0 ≤ length text.now) }
{
    for at in 0..text.len() {
        if let Some(number) = number_in(&text[at..]) {
            return Some((at, number));
        }
    }
    None
}
