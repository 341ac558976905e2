// A whole text: its pieces in order, and where they stand.
ghost use Rattle.std.specs.Prelude.{◌≡◌};
ghost use Rattle.grammar.specs.Grammar.{space, heading, ending, accepting, whole_text};
ghost use Rattle.grammar.specs.Pieces.{text_of};
ghost use Rattle.grammar.specs.inner.Parts.{opening, closing};
ghost use Rattle.grammar.specs.inner.Pieces.{piece_of, name_of, accepting_of};

use crate::tokens::{Cursor, TextSpan};

// Where the parts of a text stand: the name of the initial state, the cursors from which the transitions and the accepting
// names behind the first one go on, and the first accepting name.
#[derive(Drop)]
pub struct Layout {
    pub initial: TextSpan,
    pub arrows: Cursor,
    pub first: TextSpan,
    pub more: Cursor,
}

// `automaton A {`
#[tactic(auto, unfolding(crate::specs::Grammar::heading, crate::specs::Grammar::follow))]
fn heading(text: &[u8], c: Cursor) -> Option<Cursor>
    ensures { piece_of result ≡ heading text.now c.at }
{
    let Some(c) = crate::tokens::token(text, c, b"automaton") else {
        return None;
    };
    let Some(c) = crate::tokens::needed_space(text, c) else {
        return None;
    };
    let Some((_, c)) = crate::tokens::name(text, c) else {
        return None;
    };
    crate::tokens::spaced_token(text, c, b"{")
}

// `automaton A {` and `init a;`
#[tactic(auto, unfolding(crate::specs::inner::Parts::opening, crate::specs::Grammar::follow))]
pub fn opening(text: &[u8]) -> Option<(TextSpan, Cursor)>
    ensures { name_of result ≡ opening text.now }
{
    let Some(c) = heading(text, Cursor { at: 0 }) else {
        return None;
    };
    crate::pieces::spaced_initial(text, c)
}

// What accepts, behind optional space.
fn spaced_accepting(text: &[u8], c: Cursor) -> Option<(TextSpan, Cursor, Cursor)>
    ensures { accepting_of text.now result ≡ accepting text.now (space text.now c.at) }
{
    crate::pieces::accepting(text, crate::tokens::space(text, c))
}

// `}` and directly `;`
#[tactic(auto, unfolding(crate::specs::Grammar::ending, crate::specs::Grammar::follow))]
fn ending(text: &[u8], c: Cursor) -> Option<Cursor>
    ensures { piece_of result ≡ ending text.now c.at }
{
    let Some(c) = crate::tokens::spaced_token(text, c, b"}") else {
        return None;
    };
    crate::tokens::token(text, c, b";")
}

// What accepts and the end, behind the transitions.
#[tactic(auto, unfolding(crate::specs::inner::Parts::closing, crate::specs::Grammar::follow))]
pub fn closing(text: &[u8], c: Cursor) -> Option<(TextSpan, Cursor, Cursor)>
    ensures { accepting_of text.now result ≡ closing text.now c.at }
{
    let Some((first, more, c)) = spaced_accepting(text, c) else {
        return None;
    };
    let Some(c) = ending(text, c) else {
        return None;
    };
    Some((first, more, c))
}

// A whole text.
#[tactic(auto, unfolding(crate::specs::Grammar::whole_text, crate::specs::inner::Parts::opening, crate::specs::inner::Parts::closing, crate::specs::Grammar::follow))]
pub fn whole_text(text: &[u8]) -> Option<(Layout, Cursor)>
    ensures { text_of text.now result ≡ whole_text text.now }
{
    let Some((initial, arrows)) = opening(text) else {
        return None;
    };
    let behind = crate::pieces::transitions(text, arrows);
    let Some((first, more, c)) = closing(text, behind) else {
        return None;
    };
    Some((
        Layout {
            initial,
            arrows,
            first,
            more,
        },
        c,
    ))
}
