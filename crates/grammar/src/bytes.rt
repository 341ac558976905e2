// The bytes of the grammar: space, letters, and what a name is made of.
ghost use Rattle.std.specs.Prelude.{cond, ◌≡◌, leb};
ghost use Rattle.grammar.specs.Bytes.{is_space, is_letter, is_name_byte};

// Blank, tab, CR or LF.
pub fn is_space(b: u8) -> bool
    ensures { result ≡ is_space b }
{
    if b == b' ' {
        return true;
    }
    if b == b'\t' {
        return true;
    }
    if b == b'\r' {
        return true;
    }
    b == b'\n'
}

// An ASCII letter.
pub fn is_letter(b: u8) -> bool
    ensures { result ≡ is_letter b }
{
    if b < b'A' {
        return false;
    }
    if b <= b'Z' {
        return true;
    }
    if b < b'a' {
        return false;
    }
    b <= b'z'
}

// The 64 bytes among which b is, the first or the second of ASCII, as bits: those of letters, digits and `_` are 1.
fn name_bits(b: u8) -> u64
    ensures { result ≡ cond (leb b 63) 287948901175001088 576460745995190270 }
{
    if b <= 63 {
        return 0x03ff000000000000;
    }
    0x07fffffe87fffffe
}

// A letter, a digit or `_`, without a branch by which of these it is.
pub fn is_name_byte(b: u8) -> bool
    ensures { result ≡ is_name_byte b }
{
    if 127 < b {
        return false;
    }
    (name_bits(b) >> (b % 64)) % 2 == 1
}
