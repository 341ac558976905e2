// The bytes of a line, written into lent memory. Each function answers the place behind what it wrote.
ghost use Rattle.std.specs.Prelude.{[], ◌∷◌, ◌++◌, ◌+◌, ◌≤◌, length};
ghost use Rattle.decimal.specs.Decimal.{digits};
ghost use Rattle.stores.specs.Written.{Written};
ghost use Rattle.verdict_line.specs.Line.{differ_line, line_size};
ghost use Rattle.verdict_line.specs.inner.Code.{verdict_line, Short};
ghost use Rattle.equality.specs.Equality.{word_size};

use equality::Verdict;

// A line of a word with a blank behind it and a number.
fn put_numbered(out: &mut [u8], word: &[u8], n: u32) -> usize
    requires { (line_size ≤ length out.old) × (length word.now ≤ 8) }
    ensures { Written out.old 0 (word.now ++ (digits n ++ 10 ∷ [])) out.new result × (result ≤ line_size) }
{
    let first = stores::put_all(out, 0, word);
    let behind = decimal::put_decimal(out, first, n);
    stores::put(out, behind, b'\n')
}

// A blank and a symbol.
fn put_symbol(out: &mut [u8], at: usize, x: u32) -> usize
    requires { at + 11 ≤ length out.old }
    ensures { Written out.old at (32 ∷ digits x) out.new result × (result ≤ at + 11) }
{
    let first = stores::put(out, at, b' ');
    decimal::put_decimal(out, first, x)
}

// `differ` and each symbol of the word.
fn put_differ(out: &mut [u8], word: &[u32]) -> usize
    requires { (line_size ≤ length out.old) × (length word.now ≤ word_size) }
    ensures { Written out.old 0 (differ_line word.now) out.new result × (result ≤ line_size) }
{
    let mut at = stores::put_all(out, 0, b"differ");
    for x in word {
        at = put_symbol(out, at, *x);
    }
    stores::put(out, at, b'\n')
}

// The line of a verdict, whose word stands at the front of word.
pub fn put_verdict(out: &mut [u8], v: Verdict, word: &[u32]) -> usize
    requires { (line_size ≤ length out.old) × Short v word.now }
    ensures { Written out.old 0 (verdict_line v word.now) out.new result × (result ≤ line_size) }
{
    match v {
        Verdict::Same(joins) => put_numbered(out, b"same ", joins as u32),
        Verdict::Different(n) => put_differ(out, &word[0..n]),
        Verdict::Refused(r) => put_numbered(out, b"refused ", refusal::number(r)),
    }
}
