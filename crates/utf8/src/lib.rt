// UTF-8 after RFC 3629: what stands at a place of a text, and whether a text is wellformed.
#![tactic(auto)]

ghost use Rattle.std.specs.Prelude.{◌≡◌, ◌+◌, ◌*◌, ◌%◌, ◌^◌, ◌<◌, length, get_or, drop};
ghost use Rattle.utf8.specs.Utf8.{sequence_length, is_continuation, is_improper, least_value, scalar_of, sequence};
ghost use Rattle.utf8.specs.inner.Steps.{placed, step_at, wellformed};

#[derive(Drop)]
pub enum Step {
    // A code point, and the place behind its sequence.
    Point(u32, usize),
    // The text has no byte at the place or behind it.
    End,
    // No sequence stands at the place.
    Malformed,
}

// The length of the sequence that b begins: its ones, counted from the top, where none means 1. 0 where none begins.
fn sequence_length(b: u8) -> u32
    ensures { result ≡ sequence_length b }
{
    let ones = u8::leading_zeros(!b);
    match ones {
        0 => 1,
        2 => 2,
        3 => 3,
        4 => 4,
        _ => 0,
    }
}

// Whether b is a byte 10xxxxxx.
fn is_continuation(b: u8) -> bool
    ensures { result ≡ is_continuation b }
{
    if b < 0x80 {
        return false;
    }
    b <= 0xbf
}

// Whether x is overlong where the least value is least, over the last code point, or a surrogate.
fn is_improper(least: u32, x: u32) -> bool
    ensures { result ≡ is_improper least x }
{
    if x < least {
        return true;
    }
    if 0x10_ffff < x {
        return true;
    }
    if x < 0xd800 {
        return false;
    }
    x <= 0xdfff
}

// The least value that a sequence of n bytes may have.
fn least_value(n: u32) -> u32
    ensures { result ≡ least_value n }
{
    match n {
        2 => 0x80,
        3 => 0x800,
        4 => 0x1_0000,
        _ => 0,
    }
}

// The bits x, and behind them the last six of b.
fn with_six(x: u32, b: u8) -> u32
    requires { x < 2 ^ 26 }
    ensures { result ≡ x * 64 + b % 64 }
{
    x * 64 + (b % 64) as u32
}

// What a sequence of n bytes with the value x stands for, where it stands at the place at.
fn scalar(n: u32, x: u32, at: usize) -> Step
    requires { at + n < 2 ^ 64 }
    ensures { result ≡ placed at (scalar_of n x) }
{
    if is_improper(least_value(n), x) {
        return Step::Malformed;
    }
    Step::Point(x, at + n as usize)
}

// What the sequence of two bytes at the place at stands for.
fn two(text: &[u8], at: usize) -> Step
    requires { at < length text.now }
    ensures { result ≡ placed at (sequence 2 (get_or text.now at 0) (drop (at + 1) text.now)) }
{
    if text.len() - at < 2 {
        return Step::Malformed;
    }
    let b = text[at + 1];
    if !is_continuation(b) {
        return Step::Malformed;
    }
    scalar(2, with_six(u32::from(text[at] % 32), b), at)
}

// What the sequence of three bytes at the place at stands for.
fn three(text: &[u8], at: usize) -> Step
    requires { at < length text.now }
    ensures { result ≡ placed at (sequence 3 (get_or text.now at 0) (drop (at + 1) text.now)) }
{
    if text.len() - at < 3 {
        return Step::Malformed;
    }
    let b = text[at + 1];
    if !is_continuation(b) {
        return Step::Malformed;
    }
    let c = text[at + 2];
    if !is_continuation(c) {
        return Step::Malformed;
    }
    scalar(3, with_six(with_six(u32::from(text[at] % 16), b), c), at)
}

// What the sequence of four bytes at the place at stands for.
fn four(text: &[u8], at: usize) -> Step
    requires { at < length text.now }
    ensures { result ≡ placed at (sequence 4 (get_or text.now at 0) (drop (at + 1) text.now)) }
{
    if text.len() - at < 4 {
        return Step::Malformed;
    }
    let b = text[at + 1];
    if !is_continuation(b) {
        return Step::Malformed;
    }
    let c = text[at + 2];
    if !is_continuation(c) {
        return Step::Malformed;
    }
    let d = text[at + 3];
    if !is_continuation(d) {
        return Step::Malformed;
    }
    scalar(
        4,
        with_six(with_six(with_six(u32::from(text[at] % 8), b), c), d),
        at,
    )
}

// What stands at the place at of a text.
pub fn next(text: &[u8], at: usize) -> Step
    ensures { result ≡ step_at text.now at }
{
    if text.len() <= at {
        return Step::End;
    }
    let a = text[at];
    let n = sequence_length(a);
    match n {
        1 => Step::Point(u32::from(a), at + 1),
        2 => two(text, at),
        3 => three(text, at),
        4 => four(text, at),
        _ => Step::Malformed,
    }
}

// Whether a text is UTF-8 from its first byte to its last.
pub fn is_wellformed(text: &[u8]) -> bool
    ensures { result ≡ wellformed text.now }
{
    let mut at: usize = 0;
    loop {
        let s = next(text, at);
        match s {
            Step::Point(_, to) => {
                at = to;
            }
            Step::End => {
                return true;
            }
            Step::Malformed => {
                return false;
            }
        }
    }
}
