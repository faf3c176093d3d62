// Modes as text.
ghost use Rattle.std.specs.Prelude.{◌≡◌, ◌≤◌, ℕ, ◌+◌, ◌*◌, IfSome};
ghost use Rattle.dired_text.specs.Modes.{letter as letter_of, third_letter as third_letter_of, mode_letters, letter_bit as letter_bit_of, third_bits as third_bits_of, class_bits, read_letters};

// The bits that only one class of users has: its execute bit (of which the write and read bits are two and four
// times), the special bit shown at its third letter, and that letter with the execute bit and without it.
struct Class {
    execute: u16,
    special: u16,
    small: u8,
    capital: u8,
}

const USER: Class = Class {
    execute: 0o100,
    special: 0o4000,
    small: b's',
    capital: b'S',
};

const GROUP: Class = Class {
    execute: 0o10,
    special: 0o2000,
    small: b's',
    capital: b'S',
};

const OTHERS: Class = Class {
    execute: 0o1,
    special: 0o1000,
    small: b't',
    capital: b'T',
};

/// The nine letters of a mode, as `ls -l` shows them: `rwx` for the user, the group and the others, `-` where a bit is
/// off. The third letters show set-user, set-group and sticky as well.
pub fn mode_text(mode: u16) -> [u8; 9]
    requires { mode ≤ 0o7777 }
    ensures { result ≡ mode_letters mode }
{
    [
        letter(mode, 0o400, b'r'),
        letter(mode, 0o200, b'w'),
        third_letter(mode, &USER),
        letter(mode, 0o40, b'r'),
        letter(mode, 0o20, b'w'),
        third_letter(mode, &GROUP),
        letter(mode, 0o4, b'r'),
        letter(mode, 0o2, b'w'),
        third_letter(mode, &OTHERS),
    ]
}

// A letter, or `-` where its bit is off.
fn letter(mode: u16, bit: u16, shown: u8) -> u8
    ensures { result ≡ letter_of mode bit shown }
{
    if mode & bit != 0 { shown } else { b'-' }
}

// The third letter of a class.
fn third_letter(mode: u16, class: &Class) -> u8
    ensures { result ≡ third_letter_of mode class.now.execute class.now.special class.now.small
        class.now.capital }
{
    if mode & class.special == 0 {
        letter(mode, class.execute, b'x')
    } else if mode & class.execute != 0 {
        class.small
    } else {
        class.capital
    }
}

/// The mode that nine letters show, or None where the text is no mode.
pub fn read_mode(text: &[u8]) -> Option<u16>
    ensures letters { result ≡ read_letters text.now }
    ensures mode { IfSome result (λ m. (m ≤ 0o7777) × (mode_letters m ≡ text.now)) }
    ensures complete { (m : ℕ) → m ≤ 0o7777 → text.now ≡ mode_letters m → result ≡ Some m }
{
    match text {
        [ur, uw, ux, gr, gw, gx, or, ow, ox] => {
            let user = read_class(&USER, *ur, *uw, *ux)?;
            let group = read_class(&GROUP, *gr, *gw, *gx)?;
            let others = read_class(&OTHERS, *or, *ow, *ox)?;
            Some(user + group + others)
        }
        _ => None,
    }
}

// The bits that the three letters of a class show.
fn read_class(class: &Class, read: u8, write: u8, execute: u8) -> Option<u16>
    requires { class.now.execute + class.now.special ≤ 0o4100 }
    ensures bits { result ≡ class_bits class.now.execute class.now.special class.now.small
        class.now.capital read write execute }
    ensures bound { IfSome result (λ bits. bits ≤ 7 * class.now.execute + class.now.special) }
{
    let read_bit = letter_bit(4 * class.execute, b'r', read)?;
    let write_bit = letter_bit(2 * class.execute, b'w', write)?;
    let third = third_bits(class, execute)?;
    Some(read_bit + write_bit + third)
}

// The bit that a letter sets, if it is one of this place.
fn letter_bit(bit: u16, shown: u8, letter: u8) -> Option<u16>
    ensures bits { result ≡ letter_bit_of bit shown letter }
    ensures bound { IfSome result (λ bits. bits ≤ bit) }
{
    if letter == shown {
        Some(bit)
    } else if letter == b'-' {
        Some(0)
    } else {
        None
    }
}

// The bits that the third letter of a class sets.
fn third_bits(class: &Class, letter: u8) -> Option<u16>
    requires { class.now.execute + class.now.special ≤ 0o4100 }
    ensures bits { result ≡ third_bits_of class.now.execute class.now.special class.now.small
        class.now.capital letter }
    ensures bound { IfSome result (λ bits. bits ≤ class.now.execute + class.now.special) }
{
    if letter == class.small {
        Some(class.execute + class.special)
    } else if letter == class.capital {
        Some(class.special)
    } else {
        letter_bit(class.execute, b'x', letter)
    }
}
