//! Decimal numbers up to a limit.
ghost use Rattle.std.specs.Prelude.{◌≡◌, ◌+◌, ◌*◌, ◌≤◌, IsTrue, SomeIff};
ghost use Rattle.std.specs.List.{list_all};
ghost use Rattle.std.specs.Char.{digit_value};
ghost use Rattle.k42_kinds.specs.Words.{is_digit};
ghost use Rattle.script_text.specs.Numbers as spelling;

fn all_digits(bytes: &[u8]) -> bool
    ensures { result ≡ list_all is_digit bytes.now }
{
    bytes.iter().all(|&byte| byte.is_ascii_digit())
}

/// Whether the bytes are decimal digits without a leading zero, or `0`.
fn is_number(bytes: &[u8]) -> bool
    ensures { result ≡ spelling.is_number bytes.now }
{
    match bytes {
        [] => false,
        [_] => all_digits(bytes),
        [first, ..] => *first != b'0' && all_digits(bytes),
    }
}

/// The number with a digit more at its end, where it is no more than `most`.
fn with_digit(number: u64, digit: u8, most: u64) -> Option<u64>
    requires { IsTrue (is_digit digit) }
    ensures { let next = number * 10 + digit_value digit in SomeIff result (next ≤ most) next }
{
    let next = number
        .checked_mul(10)?
        .checked_add(u64::from(digit - b'0'))?;
    if next > most { None } else { Some(next) }
}

/// The number that the bytes spell in decimal, where it is no more than `most`.
pub fn number_up_to(bytes: &[u8], most: u64) -> Option<u64>
    ensures { result ≡ spelling.number_within 0 most bytes.now }
{
    if !is_number(bytes) {
        return None;
    }
    let mut number = 0u64;
    for &digit in bytes {
        let Some(next) = with_digit(number, digit, most) else {
            return None;
        };
        number = next;
    }
    Some(number)
}
