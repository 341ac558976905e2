// Decimal digits: written into lent memory, and read one by one.
#![tactic(auto)]

ghost use Rattle.std.specs.Prelude.{true, ◌≡◌, ◌+◌, ◌^◌, ◌≤◌, ◌<◌, length};
ghost use Rattle.decimal.specs.Decimal.{digits, is_digit, with_digit};
ghost use Rattle.stores.specs.Written.{Written};

// Writes the decimal digits of x from at on, where there is room for just these, and answers the place behind.
fn put_digits(out: &mut [u8], at: usize, x: u32) -> usize
    requires { at + length (digits x) ≤ length out.old }
    ensures { Written out.old at (digits x) out.new result }
{
    if x < 10 {
        return stores::put(out, at, (48 + x) as u8);
    }
    let last = put_digits(out, at, x / 10);
    stores::put(out, last, (48 + x % 10) as u8)
}

// Writes the decimal digits of x from at on, and answers the place behind.
pub fn put_decimal(out: &mut [u8], at: usize, x: u32) -> usize
    requires { at + 10 ≤ length out.old }
    ensures { Written out.old at (digits x) out.new result }
{
    put_digits(out, at, x)
}

pub fn is_digit(b: u8) -> bool
    ensures { result ≡ is_digit b }
{
    if b < b'0' {
        return false;
    }
    b <= b'9'
}

// The number v with the digit b behind it.
pub fn with_digit(v: u64, b: u8) -> u64
    requires { (v < 2 ^ 32) × (is_digit b ≡ true) }
    ensures { result ≡ with_digit v b }
{
    v * 10 + (b - b'0') as u64
}
