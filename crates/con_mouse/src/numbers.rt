// Decimal numbers in a sequence.
ghost use Rattle.std.specs.Prelude.{◌≡◌, ℕ, ◌+◌, ◌-◌, ◌*◌, ◌<◌, ◌≤◌, true, List, [], ◌∷◌, ◌++◌, length, take, drop, Option, Some, None, option_map, IfSome};
ghost use Rattle.std.specs.List.{list_all};
ghost use Rattle.con_mouse.specs.Reports as spec;

/// A number, and how many bytes it took.
#[derive(Clone, Copy, PartialEq, Eq)]
pub(crate) struct Front {
    pub value: u16,
    pub len: usize,
}

pub(crate) fn is_digit(byte: u8) -> bool
    ensures { result ≡ spec.is_digit byte }
{
    0x30 <= byte && byte <= 0x39
}

// How many decimal digits stand in front.
pub(crate) fn count_digits(bytes: &[u8]) -> usize
    ensures within { result ≤ length bytes.now }
    ensures front { take result bytes.now ≡ spec.digits bytes.now }
    ensures rest { drop result bytes.now ≡ spec.past_digits bytes.now }
{
    let mut n = 0;
    while n < bytes.len() && is_digit(bytes[n]) {
        n += 1;
    }
    n
}

// What at most five digits spell.
pub(crate) fn value_of(digits: &[u8]) -> u32
    requires few { length digits.now ≤ 5 }
    requires digits { list_all spec.is_digit digits.now ≡ true }
    ensures { result ≡ spec.value 0 digits.now }
{
    let mut n: u32 = 0;
    for digit in digits {
        n = n * 10 + (*digit as u32 - 0x30);
    }
    n
}

// The number of one to five digits in front, of at most 32,767.
pub(crate) fn number(bytes: &[u8]) -> Option<Front>
    ensures is { option_map (λ n. record { value = n.value; rest = drop n.len bytes.now }) result ≡ spec.number bytes.now }
    ensures within { IfSome result (λ n. n.len ≤ length bytes.now) }
    ensures small { IfSome result (λ n. n.value ≤ 32767) }
{
    let len = count_digits(bytes);
    if len == 0 || len > 5 {
        return None;
    }
    let value = value_of(&bytes[..len]);
    if value > 32767 {
        return None;
    }
    Some(Front {
        value: value as u16,
        len,
    })
}

// The number in front, with the `;` behind it.
pub(crate) fn field(bytes: &[u8]) -> Option<Front>
    ensures is { option_map (λ n. record { value = n.value; rest = drop n.len bytes.now }) result ≡ spec.field bytes.now }
    ensures within { IfSome result (λ n. n.len ≤ length bytes.now) }
    ensures small { IfSome result (λ n. n.value ≤ 32767) }
{
    let n = number(bytes)?;
    if n.len < bytes.len() && bytes[n.len] == 0x3B {
        Some(Front {
            value: n.value,
            len: n.len + 1,
        })
    } else {
        None
    }
}
