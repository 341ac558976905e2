// Space, words and names at a cursor. A piece answers the cursor behind it, or nothing.
ghost use Rattle.std.specs.Prelude.{◌≡◌, ◌+◌, drop};
ghost use Rattle.grammar.specs.Bytes.{is_name_byte};
ghost use Rattle.grammar.specs.Grammar.{run, space, needed_space, token, name};
ghost use Rattle.grammar.specs.inner.Pieces.{piece_of, name_of};

// A place in a text.
#[derive(Clone, Copy)]
pub struct Cursor {
    pub at: usize,
}

// The bytes of a text from start to end.
#[derive(Clone, Copy)]
pub struct TextSpan {
    pub start: usize,
    pub end: usize,
}

// Optional space.
pub fn space(text: &[u8], c: Cursor) -> Cursor
    ensures { result.at ≡ space text.now c.at }
{
    if text.len() <= c.at {
        return c;
    }
    for at in c.at..text.len() {
        if !crate::bytes::is_space(text[at]) {
            return Cursor { at };
        }
    }
    Cursor { at: text.len() }
}

// Space, one or more.
#[tactic(auto, unfolding(crate::specs::Grammar::needed_space))]
pub fn needed_space(text: &[u8], c: Cursor) -> Option<Cursor>
    ensures { piece_of result ≡ needed_space text.now c.at }
{
    let next = space(text, c);
    if c.at < next.at {
        return Some(next);
    }
    None
}

// The bytes of a word.
#[tactic(auto, using(crate::proofs::Comparing::token_laws))]
pub fn token(text: &[u8], c: Cursor, word: &[u8]) -> Option<Cursor>
    ensures { piece_of result ≡ token word.now text.now c.at }
{
    let mut at = c.at;
    for b in word {
        if text.len() <= at {
            return None;
        }
        if text[at] != *b {
            return None;
        }
        at += 1;
    }
    Some(Cursor { at })
}

// The place behind the letters, digits and `_` from at on.
fn name_end(text: &[u8], at: usize) -> usize
    ensures { result ≡ at + run is_name_byte (drop at text.now) }
{
    for end in at..text.len() {
        if !crate::bytes::is_name_byte(text[end]) {
            return end;
        }
    }
    at.max(text.len())
}

// A letter, then letters, digits, `_`; at most 64 bytes.
#[tactic(auto, using(crate::proofs::Spelling::name_piece_laws))]
pub fn name(text: &[u8], c: Cursor) -> Option<(TextSpan, Cursor)>
    ensures { name_of result ≡ name text.now c.at }
{
    let at = c.at;
    if text.len() <= at {
        return None;
    }
    if !crate::bytes::is_letter(text[at]) {
        return None;
    }
    let end = name_end(text, at);
    if 64 < end - at {
        return None;
    }
    Some((TextSpan { start: at, end }, Cursor { at: end }))
}

// A word behind optional space.
pub fn spaced_token(text: &[u8], c: Cursor, word: &[u8]) -> Option<Cursor>
    ensures { piece_of result ≡ token word.now text.now (space text.now c.at) }
{
    token(text, space(text, c), word)
}

// A name behind optional space.
pub fn spaced_name(text: &[u8], c: Cursor) -> Option<(TextSpan, Cursor)>
    ensures { name_of result ≡ name text.now (space text.now c.at) }
{
    name(text, space(text, c))
}
