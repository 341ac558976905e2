// Numbers and ranges of symbols.
ghost use Rattle.std.specs.Prelude.{◌≡◌, cond, ◌^◌, ◌<◌, eqb};
ghost use Rattle.grammar.specs.Grammar.{nothing, found, space, number, ends, range};
ghost use Rattle.grammar.specs.inner.Pieces.{number_piece_of, range_of};

use crate::tokens::Cursor;

// The number v of the digits from start to at, of which there has to be one.
fn digits_read(start: usize, at: usize, v: u64) -> Option<(u32, Cursor)>
    requires { v < 2 ^ 32 }
    ensures { number_piece_of result ≡ cond (eqb at start) nothing (found v at) }
{
    if at == start {
        return None;
    }
    Some((v as u32, Cursor { at }))
}

// Digits, leading zeros allowed, that fit u32.
fn number(text: &[u8], c: Cursor) -> Option<(u32, Cursor)>
    ensures { number_piece_of result ≡ number text.now c.at }
{
    let start = c.at;
    let mut v: u64 = 0;
    for at in start..text.len() {
        let b = text[at];
        if !decimal::is_digit(b) {
            return digits_read(start, at, v);
        }
        v = decimal::with_digit(v, b);
        let too_large = 4294967295 < v;
        if too_large {
            return None;
        }
    }
    digits_read(start, start.max(text.len()), v)
}

// A number behind optional space.
fn spaced_number(text: &[u8], c: Cursor) -> Option<(u32, Cursor)>
    ensures { number_piece_of result ≡ number text.now (space text.now c.at) }
{
    number(text, crate::tokens::space(text, c))
}

// `first, last`, where first is at most last.
#[tactic(auto, unfolding(crate::specs::Grammar::ends, crate::specs::Grammar::follow))]
fn ends(text: &[u8], c: Cursor) -> Option<(u32, u32, Cursor)>
    ensures { range_of result ≡ ends text.now c.at }
{
    let Some((first, c)) = spaced_number(text, c) else {
        return None;
    };
    let Some(c) = crate::tokens::spaced_token(text, c, b",") else {
        return None;
    };
    let Some((last, c)) = spaced_number(text, c) else {
        return None;
    };
    if first <= last {
        return Some((first, last, c));
    }
    None
}

// `[first, last];`
#[tactic(auto, unfolding(crate::specs::Grammar::range, crate::specs::Grammar::follow))]
pub fn range(text: &[u8], c: Cursor) -> Option<(u32, u32, Cursor)>
    ensures { range_of result ≡ range text.now c.at }
{
    let Some(c) = crate::tokens::spaced_token(text, c, b"[") else {
        return None;
    };
    let Some((first, last, c)) = ends(text, c) else {
        return None;
    };
    let Some(c) = crate::tokens::token(text, c, b"]") else {
        return None;
    };
    let Some(c) = crate::tokens::token(text, c, b";") else {
        return None;
    };
    Some((first, last, c))
}
