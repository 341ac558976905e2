// The transitions of a text, read once: the names of their states go into the table, and their records, between the numbers that the names have there,
// into lent memory. A name keeps its number when others are added behind it. The memory is small as long as it is enough.
ghost use Rattle.std.specs.Prelude.{[], ◌∷◌, ◌≡◌, length};
ghost use Rattle.grammar.specs.Places.{spelled};
ghost use Rattle.grammar.specs.inner.Places.{Spelt, Drawn};
ghost use Rattle.output.specs.inner.Gathering.{Memory, Held};
ghost use Rattle.syntax.specs.Spelled.{spell_move};
ghost use Rattle.parser.specs.inner.Arrows.{Entering, Noting, ArrowNoting, Beginning, Continuing};
ghost use Rattle.parser.specs.inner.Names.{SpeltTable, names_in};

use grammar::{Arrow, Cursor, TextSpan};
use output::Filled;

// A name that was entered: its number, and how many names the table has.
#[derive(Drop)]
pub struct Entry {
    pub number: u32,
    pub count: usize,
}

// A transition that was noted: how many names the table has, and how far the memory is filled.
#[derive(Drop)]
pub struct Noted {
    pub count: usize,
    pub filled: Filled,
}

// The transitions that were read: the cursor behind them, how many names their states have, unless these are over 256, and how far the memory is filled
// with their records.
#[derive(Drop)]
pub struct Arrows {
    pub behind: Cursor,
    pub added: Option<usize>,
    pub filled: Filled,
}

// Where the reading of the transitions stopped: the cursor, how many names the table has, and how far the memory is filled.
#[derive(Drop)]
pub struct Stop {
    pub cursor: Cursor,
    pub count: usize,
    pub filled: Filled,
}

// The answer of reading transitions with a small memory: all were read, or it is filled but for the ninth part for those that come.
#[derive(Drop)]
pub enum Begun {
    Ended(Arrows),
    Stopped(Stop),
}

// The name that stands in the text goes behind the others unless it is one of them. Nothing is answered where there would be over 256.
fn enter(text: &[u8], t: &mut [usize], n: usize, x: TextSpan) -> Option<Entry>
    requires { SpeltTable text.now t.old n × Spelt text.now x }
    ensures { Entering text.now (spelled text.now x) (names_in text.now t.old n) t.new result }
{
    let i = crate::names::number_of(text, t, n, x);
    if (i as usize) < n {
        return Some(Entry {
            number: i,
            count: n,
        });
    }
    let m = crate::names::add_name(text, t, n, x)?;
    Some(Entry {
        number: i,
        count: m,
    })
}

// One record more, unless there are too many.
fn note(buf: &mut [u32], f: Filled, from: u32, first: u32, last: u32, to: u32) -> Filled
    requires { Held buf.old f.sorted f.end }
    ensures { Noting buf.old f (record { from = from; kind = 1; first = first; last = last; to = to }) buf.new result }
{
    if buf.len() <= f.end {
        return f;
    }
    output::gather_record(buf, f, from, 1, first, last, to)
}

// The names and the record of a transition, or nothing where the names would be over 256.
fn note_arrow(
    text: &[u8],
    e: Arrow,
    t: &mut [usize],
    n: usize,
    buf: &mut [u32],
    f: Filled,
) -> Option<Noted>
    requires { SpeltTable text.now t.old n × Drawn text.now e × Held buf.old f.sorted f.end }
    ensures { ArrowNoting text.now (spell_move text.now e) (names_in text.now t.old n) t.new buf.old f buf.new result }
{
    let from = enter(text, t, n, e.from)?;
    let to = enter(text, t, from.count, e.to)?;
    let filled = note(buf, f, from.number, e.first, e.last, to.number);
    Some(Noted {
        count: to.count,
        filled,
    })
}

// The names and the records of the transitions from a cursor on, until all of the memory but the ninth part for those that come is filled. Where the names are too many the others are only
// read.
fn read_first(text: &[u8], c: Cursor, t: &mut [usize], n: usize, buf: &mut [u32]) -> Begun
    requires { SpeltTable text.now t.old n × Memory buf.old }
    ensures { Beginning text.now c.at (names_in text.now t.old n) t.new buf.new result }
{
    let mut at = c.at;
    let mut count = n;
    let mut filled = Filled { sorted: 0, end: 0 };
    while filled.end < buf.len() / 9 * 8 {
        let Some((e, next)) = grammar::spaced_transition(text, Cursor { at }) else {
            return Begun::Ended(Arrows {
                behind: Cursor { at },
                added: Some(count),
                filled,
            });
        };
        let Some(noted) = note_arrow(text, e, t, count, buf, filled) else {
            let behind = grammar::transitions(text, next);
            return Begun::Ended(Arrows {
                behind,
                added: None,
                filled,
            });
        };
        count = noted.count;
        filled = noted.filled;
        at = next.at;
    }
    Begun::Stopped(Stop {
        cursor: Cursor { at },
        count,
        filled,
    })
}

// The same behind the name of the initial state, which comes first.
pub fn read_states(text: &[u8], x: TextSpan, c: Cursor, t: &mut [usize], buf: &mut [u32]) -> Begun
    requires { Spelt text.now x × (length t.old ≡ 1024) × Memory buf.old }
    ensures { Beginning text.now c.at (spelled text.now x ∷ []) t.new buf.new result }
{
    let Some(n) = crate::names::add_name(text, t, 0, x) else {
        return Begun::Ended(Arrows {
            behind: c,
            added: None,
            filled: Filled { sorted: 0, end: 0 },
        });
    };
    read_first(text, c, t, n, buf)
}

// The names and the records of the other transitions with the largest memory.
pub fn read_rest(
    text: &[u8],
    c: Cursor,
    t: &mut [usize],
    n: usize,
    buf: &mut [u32],
    f: Filled,
) -> Arrows
    requires { SpeltTable text.now t.old n × Held buf.old f.sorted f.end × (length buf.old ≡ 11520) }
    ensures { Continuing text.now t.old buf.old c.at n f t.new buf.new result }
{
    let mut at = c.at;
    let mut count = n;
    let mut filled = f;
    loop {
        let Some((e, next)) = grammar::spaced_transition(text, Cursor { at }) else {
            return Arrows {
                behind: Cursor { at },
                added: Some(count),
                filled,
            };
        };
        let Some(noted) = note_arrow(text, e, t, count, buf, filled) else {
            let behind = grammar::transitions(text, next);
            return Arrows {
                behind,
                added: None,
                filled,
            };
        };
        count = noted.count;
        filled = noted.filled;
        at = next.at;
    }
}
