// The number of a frame's name, and what stands around it.
ghost use Rattle.std.specs.Prelude.{◌≡◌, ◌≤◌, length, false, IfNone, IfSome};
ghost use Rattle.std.specs.List.{suffix_len, AllPass};
ghost use Rattle.sequence_scan.specs.Numbers.{is_digit, number_from, is_numbered};
ghost use Rattle.sequence_scan.specs.Scanning.{is_tail, IsParted};

// The most digits of a number that counts.
const MOST_DIGITS: usize = 18;

// The bytes of the ending, as `.dpx`.
const ENDING_BYTES: usize = 4;

/// What the names of one numbered sequence have in common: the bytes before and after the number, and its count of digits.
#[derive(Clone, Copy, PartialEq, Eq, Hash)]
pub(crate) struct Sequence<'a> {
    before: &'a [u8],
    digits: usize,
    after: &'a [u8],
}

/// A name with a number of 1 to 18 digits.
#[derive(Clone, Copy)]
pub(crate) struct NumberedName<'a> {
    pub(crate) sequence: Sequence<'a>,
    pub(crate) number: u64,
}

// How many bytes at the end are neither a digit nor a slash.
fn tail_len(bytes: &[u8]) -> usize
    ensures { result ≡ suffix_len is_tail bytes.now }
{
    bytes
        .iter()
        .rev()
        .take_while(|byte| **byte != b'/' && !byte.is_ascii_digit())
        .count()
}

// How many bytes at the end are digits.
fn digits_len(bytes: &[u8]) -> usize
    ensures { result ≡ suffix_len is_digit bytes.now }
{
    bytes
        .iter()
        .rev()
        .take_while(|byte| byte.is_ascii_digit())
        .count()
}

// The number that at most 18 digits spell.
fn read_number(digits: &[u8]) -> u64
    requires few { length digits.now ≤ 18 }
    requires all { AllPass is_digit digits.now }
    ensures { result ≡ number_from digits.now }
{
    let mut number = 0;
    for digit in digits {
        number = number * 10 + u64::from(*digit - b'0');
    }
    number
}

/// The parts of a frame's name, where it has a number of 1 to 18 digits. It takes no memory.
pub(crate) fn numbered(name: &str) -> Option<NumberedName<'_>>
    requires { 4 ≤ length name.now }
    ensures none { IfNone result (is_numbered name.now ≡ false) }
    ensures some { IfSome result (λ parted. IsParted name.now parted) }
{
    let bytes = name.as_bytes();
    let base_end = bytes.len() - ENDING_BYTES;
    let end = base_end - tail_len(&bytes[..base_end]);
    let digits = digits_len(&bytes[..end]);
    if digits == 0 || digits > MOST_DIGITS {
        return None;
    }
    let start = end - digits;
    let sequence = Sequence {
        before: &bytes[..start],
        digits,
        after: &bytes[end..],
    };
    let number = read_number(&bytes[start..end]);
    Some(NumberedName { sequence, number })
}
