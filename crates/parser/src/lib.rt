// Reading a pattern from its text: its parts in order, with the states and the transitions on the way, and only then the outputs.
#![tactic(auto)]

ghost use Rattle.std.specs.Prelude.{cond, [], ◌∷◌, ◌++◌, map, ◌≡◌, ◌+◌, ◌/◌, ◌≤◌, ◌<◌, length};
ghost use Rattle.grammar.specs.Places.{spelled};
ghost use Rattle.grammar.specs.inner.Parts.{told_from};
ghost use Rattle.grammar.specs.inner.Places.{Spelt, Laid};
ghost use Rattle.labels.specs.Labels.{entry, write_labels};
ghost use Rattle.stores.specs.Written.{Written};
ghost use Rattle.output.specs.inner.Gathering.{Memory, Gathered};
ghost use Rattle.lists.specs.Lists.{all};
ghost use Rattle.refusal.specs.Answer.{given};
ghost use Rattle.refusal.specs.Number.{number_of};
ghost use Rattle.parser.specs.inner.Arrows.{Fitting, ArrowsRead, StoppedAt};
ghost use Rattle.parser.specs.inner.Memory.{Zeros};
ghost use Rattle.parser.specs.inner.Names.{span_at, names_in, SpeltTable};
ghost use Rattle.parser.specs.inner.Records.{Recorded};
ghost use Rattle.parser.specs.Parsed.{parsed_of, parsed};
ghost use Rattle.parser.specs.Pattern.{states_of, transition_of_move, accept_word, few_transitions, is_among, accepts_first, meaning, parse_answer};
ghost use Rattle.parser.specs.inner.Places.{said_at, moves_at, transitions_at, pattern_at};
ghost use Rattle.output.specs.Output.{labels_size, sheet_size};

use arrows::{Arrows, Begun, Stop};
use grammar::{Cursor, Layout, TextSpan};
use output::Filled;
use refusal::{InputRefusal, Refusal, StateRefusal};

mod accepts;
mod arrows;
mod names;

// How many bytes of the text were read, how many words the sheet takes and how many bytes the labels.
#[derive(Clone, Copy)]
pub struct Parsed {
    pub read: usize,
    pub words: usize,
    pub bytes: usize,
}

// The sheet with the start 0, these accept words and these records.
fn write_sheet(out: &mut [u32], accepts: &[u32], records: &[u32]) -> usize
    requires { (sheet_size ≤ length out.old) × (length accepts.now ≤ 256) × (length records.now ≤ 10240) }
    ensures { Written out.old 0 (1 ∷ 0 ∷ length accepts.now ∷ (accepts.now ++ length records.now / 5 ∷ records.now)) out.new result }
{
    let first = output::put_start(out, 0, accepts.len() as u32);
    let count = stores::put_all(out, first, accepts);
    let behind = stores::put(out, count, (records.len() / 5) as u32);
    stores::put_all(out, behind, records)
}

// Name j of a table after its length.
fn put_name(names: &mut [u8], at: usize, text: &[u8], t: &[usize], j: usize) -> usize
    requires { (length t.now ≡ 1024) × (j < 256) × Spelt text.now (span_at t.now j) × (at + 65 ≤ length names.old) }
    ensures { Written names.old at (entry (spelled text.now (span_at t.now j))) names.new result }
{
    let first = t[512 + j];
    let last = t[768 + j];
    labels::put_copy(names, at, &text[first..last])
}

// The label list with the names of a table.
fn write_labels(names: &mut [u8], text: &[u8], t: &[usize], n: usize) -> usize
    requires { SpeltTable text.now t.now n × (labels_size ≤ length names.old) }
    ensures { Written names.old 0 (write_labels (names_in text.now t.now n)) names.new result }
{
    let mut at = labels::put_count(names, n);
    for j in 0..n {
        at = put_name(names, at, text, t, j);
    }
    at
}

// The outputs of a text whose names, records and accept words are known.
fn write_pattern(
    text: &[u8],
    l: Layout,
    c: Cursor,
    t: &[usize],
    n: usize,
    records: &[u32],
    words: &[u32],
    out: &mut [u32],
    names: &mut [u8],
) -> Result<Parsed, Refusal>
    requires spelt_table { SpeltTable text.now t.now n }
    requires recorded { Recorded records.now (transitions_at text.now l (names_in text.now t.now n)) × (words.now ≡ map (accept_word (said_at text.now l).accepts) (names_in text.now t.now n)) }
    requires sheet_size_in_bounds { (sheet_size ≤ length out.old) × (labels_size ≤ length names.old) }
    ensures { parsed_of result out.new names.new ≡ parsed out.old names.old (given (record { pattern = pattern_at text.now l (names_in text.now t.now n); read = c.at })) }
{
    let w = write_sheet(out, words, records);
    let k = write_labels(names, text, t, n);
    Ok(Parsed {
        read: c.at,
        words: w,
        bytes: k,
    })
}

// The outputs of a text whose names are known and whose records are gathered, or 33 or 22.
fn with_names(
    text: &[u8],
    l: Layout,
    c: Cursor,
    t: &[usize],
    n: usize,
    buf: &mut [u32],
    f: Filled,
    words: &mut [u32],
    out: &mut [u32],
    names: &mut [u8],
) -> Result<Parsed, Refusal>
    requires spelt_table { SpeltTable text.now t.now n × Laid text.now l }
    requires fitting { Fitting buf.old f }
    requires gathered { Gathered buf.old f.sorted f.end (map (transition_of_move (names_in text.now t.now n)) (moves_at text.now l.arrows.at)) × Zeros 256 words.old }
    requires sheet_size_in_bounds { (sheet_size ≤ length out.old) × (labels_size ≤ length names.old) }
    ensures { parsed_of result out.new names.new ≡ parsed out.old names.old (accepts_first (said_at text.now l).accepts (names_in text.now t.now n) (few_transitions (pattern_at text.now l (names_in text.now t.now n)) c.at)) }
{
    if !accepts::mark_names(text, l.first, l.more, t, n, words) {
        return Err(Refusal::Input(InputRefusal::AcceptingName));
    }
    let last = output::collect_records(buf, f);
    if buf.len() / 9 * 8 < last {
        return Err(Refusal::State(StateRefusal::Transitions));
    }
    write_pattern(text, l, c, t, n, &buf[0..last], &words[..n], out, names)
}

// The refusal of a text with over 256 states: 33 or 21.
fn over_states(text: &[u8], l: Layout) -> Refusal
    requires { Laid text.now l }
    ensures { number_of result ≡ cond (all (is_among (states_of (said_at text.now l))) (said_at text.now l).accepts) 21 33 }
{
    if accepts::are_states(text, l.initial, l.arrows, l.first, l.more) {
        return Refusal::State(StateRefusal::States);
    }
    Refusal::Input(InputRefusal::AcceptingName)
}

// The outputs of a text whose initial state is x and whose transitions, from the cursor arrows on, were read, or 8, 33, 21 or 22: the text is read to its
// end before it is said that an accepting name is no state, or that there are too many states or transitions.
fn with_read(
    text: &[u8],
    x: TextSpan,
    arrows: Cursor,
    read: Arrows,
    t: &[usize],
    buf: &mut [u32],
    words: &mut [u32],
    out: &mut [u32],
    names: &mut [u8],
) -> Result<Parsed, Refusal>
    requires spelt { Spelt text.now x × ArrowsRead text.now arrows.at (spelled text.now x ∷ []) t.now buf.old read × Zeros 256 words.old }
    requires sheet_size_in_bounds { (sheet_size ≤ length out.old) × (labels_size ≤ length names.old) }
    ensures { parsed_of result out.new names.new ≡ parsed out.old names.old (meaning text.now (told_from text.now x arrows.at)) }
{
    let Some((first, more, c)) = grammar::closing(text, read.behind) else {
        return Err(Refusal::Input(InputRefusal::Grammar));
    };
    let l = Layout {
        initial: x,
        arrows,
        first,
        more,
    };
    let Some(n) = read.added else {
        return Err(over_states(text, l));
    };
    with_names(text, l, c, t, n, buf, read.filled, words, out, names)
}

// The same of a text whose transitions were read up to a stop: the records move to the largest memory, and the others follow.
fn with_more(
    text: &[u8],
    x: TextSpan,
    arrows: Cursor,
    s: Stop,
    t: &mut [usize],
    small: &[u32],
    words: &mut [u32],
    out: &mut [u32],
    names: &mut [u8],
) -> Result<Parsed, Refusal>
    requires spelt { Spelt text.now x × StoppedAt text.now arrows.at (spelled text.now x ∷ []) t.old small.now s × Zeros 256 words.old }
    requires sheet_size_in_bounds { (sheet_size ≤ length out.old) × (labels_size ≤ length names.old) }
    ensures { parsed_of result out.new names.new ≡ parsed out.old names.old (meaning text.now (told_from text.now x arrows.at)) }
{
    let mut buf = [0u32; 11520];
    let end = s.filled.end;
    stores::put_all(&mut buf, 0, &small[0..end]);
    let read = arrows::read_rest(
        text,
        s.cursor,
        t,
        s.count,
        &mut buf,
        Filled { sorted: 0, end },
    );
    with_read(text, x, arrows, read, t, &mut buf, words, out, names)
}

// The same of a text whose transitions are not read yet, by tables that are lent.
fn with_tables(
    text: &[u8],
    x: TextSpan,
    arrows: Cursor,
    t: &mut [usize],
    buf: &mut [u32],
    words: &mut [u32],
    out: &mut [u32],
    names: &mut [u8],
) -> Result<Parsed, Refusal>
    requires spelt { Spelt text.now x × (length t.old ≡ 1024) × Memory buf.old × Zeros 256 words.old }
    requires sheet_size_in_bounds { (sheet_size ≤ length out.old) × (labels_size ≤ length names.old) }
    ensures { parsed_of result out.new names.new ≡ parsed out.old names.old (meaning text.now (told_from text.now x arrows.at)) }
{
    let begun = arrows::read_states(text, x, arrows, t, buf);
    match begun {
        Begun::Ended(read) => with_read(text, x, arrows, read, t, buf, words, out, names),
        Begun::Stopped(s) => with_more(text, x, arrows, s, t, buf, words, out, names),
    }
}

// The same by tables of its own.
fn from_start(
    text: &[u8],
    x: TextSpan,
    arrows: Cursor,
    out: &mut [u32],
    names: &mut [u8],
) -> Result<Parsed, Refusal>
    requires spelt { Spelt text.now x }
    requires sheet_size_in_bounds { (sheet_size ≤ length out.old) × (labels_size ≤ length names.old) }
    ensures { parsed_of result out.new names.new ≡ parsed out.old names.old (meaning text.now (told_from text.now x arrows.at)) }
{
    let mut t = [0usize; 1024];
    let mut buf = [0u32; 720];
    let mut words = [0u32; 256];
    with_tables(text, x, arrows, &mut t, &mut buf, &mut words, out, names)
}

// The pattern at the front of a text: its sheet and its labels into the lent outputs, and how many bytes were read.
pub fn parse_automaton(text: &[u8], out: &mut [u32], names: &mut [u8]) -> Result<Parsed, Refusal>
    ensures { parsed_of result out.new names.new ≡ parsed out.old names.old (parse_answer text.now out.old names.old) }
{
    if output::lacks_room(out, names) {
        return Err(Refusal::State(StateRefusal::OutputLength));
    }
    let Some((x, arrows)) = grammar::opening(text) else {
        return Err(Refusal::Input(InputRefusal::Grammar));
    };
    from_start(text, x, arrows, out, names)
}
