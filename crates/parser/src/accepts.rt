// The accept words of the states, and whether every accepting name is a state.
ghost use Rattle.std.specs.Prelude.{◌&&◌, [], ◌∷◌, map, ◌≡◌, ◌<◌, eqb, length};
ghost use Rattle.grammar.specs.Grammar.{next_names};
ghost use Rattle.grammar.specs.Places.{spelled};
ghost use Rattle.grammar.specs.inner.Places.{Spelt};
ghost use Rattle.lists.specs.Lists.{all};
ghost use Rattle.parser.specs.Pattern.{is_among};
ghost use Rattle.parser.specs.inner.Accepts.{mark_one, mark_all, names_from, spans_from};
ghost use Rattle.parser.specs.inner.Arrows.{all_names};
ghost use Rattle.parser.specs.inner.Names.{SpeltTable, names_in};

use grammar::{Cursor, TextSpan};

// The word of the name x of a table becomes 1; whether the table has it.
fn mark(text: &[u8], t: &[usize], n: usize, x: TextSpan, words: &mut [u32]) -> bool
    requires { SpeltTable text.now t.now n × Spelt text.now x × (length words.old ≡ 256) }
    ensures { (result ≡ is_among (names_in text.now t.now n) (spelled text.now x)) × (words.new ≡ mark_one text.now (names_in text.now t.now n) words.old x) }
{
    let i = crate::names::number_of(text, t, n, x) as usize;
    if n <= i {
        return false;
    }
    words[i] = 1;
    true
}

// The same for the names from a cursor on, each behind a comma; whether the table has all.
fn mark_next(text: &[u8], c: Cursor, t: &[usize], n: usize, words: &mut [u32]) -> bool
    requires { SpeltTable text.now t.now n × (length words.old ≡ 256) }
    ensures { (result ≡ all (is_among (names_in text.now t.now n)) (names_from text.now c.at)) × (words.new ≡ mark_all text.now (names_in text.now t.now n) words.old (next_names text.now c.at).items) }
{
    let mut at = c.at;
    let mut known = true;
    loop {
        let Some((x, next)) = grammar::next_name(text, Cursor { at }) else {
            return known;
        };
        let found = mark(text, t, n, x, words);
        known = known && found;
        at = next.at;
    }
}

// The same for the first accepting name and those from a cursor on.
pub fn mark_names(
    text: &[u8],
    first: TextSpan,
    more: Cursor,
    t: &[usize],
    n: usize,
    words: &mut [u32],
) -> bool
    requires { SpeltTable text.now t.now n × Spelt text.now first × (length words.old ≡ 256) }
    ensures { (result ≡ all (is_among (names_in text.now t.now n)) (map (spelled text.now) (first ∷ (next_names text.now more.at).items))) × (words.new ≡ mark_all text.now (names_in text.now t.now n) words.old (first ∷ (next_names text.now more.at).items)) }
{
    let found = mark(text, t, n, first, words);
    let others = mark_next(text, more, t, n, words);
    found && others
}

// The same for the names of the states in the transitions from a cursor on.
fn mark_states(text: &[u8], c: Cursor, t: &[usize], n: usize, words: &mut [u32])
    requires { SpeltTable text.now t.now n × (length words.old ≡ 256) }
    ensures { words.new ≡ mark_all text.now (names_in text.now t.now n) words.old (spans_from text.now c.at) }
{
    let mut at = c.at;
    loop {
        let Some((e, next)) = grammar::spaced_transition(text, Cursor { at }) else {
            return;
        };
        mark(text, t, n, e.from, words);
        mark(text, t, n, e.to, words);
        at = next.at;
    }
}

// Whether all words are 1.
fn are_ones(words: &[u32]) -> bool
    ensures { result ≡ all (λ w. eqb w 1) words.now }
{
    words.iter().all(|w| *w == 1)
}

// Whether the names of a table are all states: the initial one is x, and the transitions go on from a cursor. Each name of a state marks its word.
fn table_are_states(text: &[u8], x: TextSpan, arrows: Cursor, t: &[usize], n: usize) -> bool
    requires { SpeltTable text.now t.now n × Spelt text.now x }
    ensures { result ≡ all (is_among (all_names text.now arrows.at (spelled text.now x ∷ []))) (names_in text.now t.now n) }
{
    let mut words = [0u32; 256];
    mark(text, t, n, x, &mut words);
    mark_states(text, arrows, t, n, &mut words);
    are_ones(&words[..n])
}

// Whether the names of a table and those from a cursor on, each behind a comma, are all states. Whenever the table is full, its names are looked for
// in the transitions.
fn rest_are_states(
    text: &[u8],
    x: TextSpan,
    arrows: Cursor,
    c: Cursor,
    t: &mut [usize],
    n: usize,
) -> bool
    requires { SpeltTable text.now t.old n × (n < 256) × Spelt text.now x }
    ensures { result ≡ (all (is_among (all_names text.now arrows.at (spelled text.now x ∷ []))) (names_in text.now t.old n) && all (is_among (all_names text.now arrows.at (spelled text.now x ∷ []))) (names_from text.now c.at)) }
{
    let mut at = c.at;
    let mut k = n;
    loop {
        let Some((y, next)) = grammar::next_name(text, Cursor { at }) else {
            return table_are_states(text, x, arrows, t, k);
        };
        let Some(m) = crate::names::add_name(text, t, k, y) else {
            return false;
        };
        k = m;
        at = next.at;
        if 256 <= k {
            if !table_are_states(text, x, arrows, t, k) {
                return false;
            }
            k = 0;
        }
    }
}

// Whether all accepting names are states, of a text with too many states for a table: tables of up to 256 accepting names are made, one after the other.
pub fn are_states(text: &[u8], x: TextSpan, arrows: Cursor, first: TextSpan, more: Cursor) -> bool
    requires { Spelt text.now x × Spelt text.now first }
    ensures { result ≡ all (is_among (all_names text.now arrows.at (spelled text.now x ∷ []))) (map (spelled text.now) (first ∷ (next_names text.now more.at).items)) }
{
    let mut t = [0usize; 1024];
    let Some(n) = crate::names::add_name(text, &mut t, 0, first) else {
        return false;
    };
    rest_are_states(text, x, arrows, more, &mut t, n)
}
