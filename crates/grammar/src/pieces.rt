// The initial state, the transitions and what accepts.
ghost use Rattle.std.specs.Prelude.{◌≡◌};
ghost use Rattle.grammar.specs.Grammar.{space, token, target, transition, initial, next_name, transitions, next_names, accepting};
ghost use Rattle.grammar.specs.inner.Pieces.{piece_of, name_of, arrow_of, accepting_of};
ghost use Rattle.grammar.specs.Words.{semicolon};

use crate::tokens::{Cursor, TextSpan};

// A transition as the text tells it: the names of its states, and its range.
#[derive(Drop)]
pub struct Arrow {
    pub from: TextSpan,
    pub to: TextSpan,
    pub first: u32,
    pub last: u32,
}

// `-> b`
#[tactic(auto, unfolding(crate::specs::Grammar::target, crate::specs::Grammar::follow))]
fn target(text: &[u8], c: Cursor) -> Option<(TextSpan, Cursor)>
    ensures { name_of result ≡ target text.now c.at }
{
    let Some(c) = crate::tokens::spaced_token(text, c, b"->") else {
        return None;
    };
    crate::tokens::spaced_name(text, c)
}

// `a -> b [first, last];`
#[tactic(auto, unfolding(crate::specs::Grammar::transition, crate::specs::Grammar::follow))]
fn transition(text: &[u8], c: Cursor) -> Option<(Arrow, Cursor)>
    ensures { arrow_of result ≡ transition text.now c.at }
{
    let Some((from, c)) = crate::tokens::name(text, c) else {
        return None;
    };
    let Some((to, c)) = target(text, c) else {
        return None;
    };
    let Some((first, last, c)) = crate::ranges::range(text, c) else {
        return None;
    };
    Some((
        Arrow {
            from,
            to,
            first,
            last,
        },
        c,
    ))
}

// A transition behind optional space.
pub fn spaced_transition(text: &[u8], c: Cursor) -> Option<(Arrow, Cursor)>
    ensures { arrow_of result ≡ transition text.now (space text.now c.at) }
{
    transition(text, crate::tokens::space(text, c))
}

// The transitions from a cursor on, as long as a whole one can be read.
#[tactic(auto, using(crate::proofs::Many::arrows_behind))]
pub fn transitions(text: &[u8], c: Cursor) -> Cursor
    ensures { result.at ≡ (transitions text.now c.at).behind }
{
    let mut at = c.at;
    loop {
        let Some((_, next)) = spaced_transition(text, Cursor { at }) else {
            return Cursor { at };
        };
        at = next.at;
    }
}

// `init a;`
#[tactic(auto, unfolding(crate::specs::Grammar::initial, crate::specs::Grammar::follow))]
fn initial(text: &[u8], c: Cursor) -> Option<(TextSpan, Cursor)>
    ensures { name_of result ≡ initial text.now c.at }
{
    let Some(c) = crate::tokens::token(text, c, b"init") else {
        return None;
    };
    let Some(c) = crate::tokens::needed_space(text, c) else {
        return None;
    };
    let Some((s, c)) = crate::tokens::name(text, c) else {
        return None;
    };
    let Some(c) = crate::tokens::token(text, c, b";") else {
        return None;
    };
    Some((s, c))
}

// `init a;` behind optional space.
pub fn spaced_initial(text: &[u8], c: Cursor) -> Option<(TextSpan, Cursor)>
    ensures { name_of result ≡ initial text.now (space text.now c.at) }
{
    initial(text, crate::tokens::space(text, c))
}

// A comma and a name.
#[tactic(auto, unfolding(crate::specs::Grammar::next_name, crate::specs::Grammar::follow))]
pub fn next_name(text: &[u8], c: Cursor) -> Option<(TextSpan, Cursor)>
    ensures { name_of result ≡ next_name text.now c.at }
{
    let Some(c) = crate::tokens::spaced_token(text, c, b",") else {
        return None;
    };
    crate::tokens::spaced_name(text, c)
}

// The names from a cursor on, each behind a comma.
#[tactic(auto, using(crate::proofs::Many::names_behind))]
fn next_names(text: &[u8], c: Cursor) -> Cursor
    ensures { result.at ≡ (next_names text.now c.at).behind }
{
    let mut at = c.at;
    loop {
        let Some((_, next)) = next_name(text, Cursor { at }) else {
            return Cursor { at };
        };
        at = next.at;
    }
}

// The names behind the first, and `;`
fn other_names(text: &[u8], c: Cursor) -> Option<Cursor>
    ensures { piece_of result ≡ token semicolon text.now (next_names text.now c.at).behind }
{
    crate::tokens::token(text, next_names(text, c), b";")
}

// `accepting a, b;`: the first name, the cursor behind it from which the others go on, and the cursor behind the piece.
#[tactic(auto, unfolding(crate::specs::Grammar::accepting, crate::specs::Grammar::follow))]
pub fn accepting(text: &[u8], c: Cursor) -> Option<(TextSpan, Cursor, Cursor)>
    ensures { accepting_of text.now result ≡ accepting text.now c.at }
{
    let Some(c) = crate::tokens::token(text, c, b"accepting") else {
        return None;
    };
    let Some(c) = crate::tokens::needed_space(text, c) else {
        return None;
    };
    let Some((s, more)) = crate::tokens::name(text, c) else {
        return None;
    };
    let Some(c) = other_names(text, more) else {
        return None;
    };
    Some((s, more, c))
}
