// Closures, steps and acceptance: the states that a word leads to are kept as a set of bits, and each symbol leads to the
// union of the closures of all targets whose range holds it. Closures are made once; a symbol costs at most the records of
// the sheet.
#![tactic(auto)]

ghost use Rattle.std.specs.Prelude.{true, ◌≡◌, [], ◌∷◌, ◌+◌, ◌*◌, ◌≤◌, ◌<◌, length, get_or};
ghost use Rattle.automata.specs.Automaton.{ranges_of};
ghost use Rattle.automata.specs.Records.{read_records};
ghost use Rattle.automata.specs.inner.Records.{record_at};
ghost use Rattle.ranges.specs.Cuts.{next_cut};
ghost use Rattle.ranges.specs.Missing.{SortedRanges};
ghost use Rattle.sets.specs.inner.BitSet.{set_at, entries};
ghost use Rattle.sets.specs.inner.Members.{Canon};
ghost use Rattle.sets.specs.inner.Words.{union_at};
ghost use Rattle.sheets.specs.Sheet.{state_count, read};
ghost use Rattle.words.specs.inner.Gather.{gathered, RowsFor, Tables};
ghost use Rattle.words.specs.Simulation.{closures, outgoing, step, start_set, simulate, least, kind_of, kind};
ghost use Rattle.words.specs.inner.Epsilons.{Fresh, SelvesAdded, EpsilonsAdded};
ghost use Rattle.sheets.specs.inner.Accepted.{Accepted};
ghost use Rattle.sheets.specs.inner.Runs.{Named};
ghost use Rattle.utf8.specs.Utf8.{decode};
ghost use Rattle.utf8.specs.inner.Steps.{wellformed};
ghost use Rattle.words.specs.Acceptance.{accepts_words_answer, accepts_text_answer, acceptance_of};
ghost use Rattle.words.specs.inner.Acceptance.{points_of};
ghost use Rattle.words.specs.inner.Input.{symbols_of, IsWellformed};

use refusal::InputRefusal;

// Each of the first n rows gets its own number.
fn add_selves(rows: &mut [u64], n: usize)
    requires { (n ≤ 256) × (4 * n ≤ length rows.old) }
    ensures { SelvesAdded rows.old rows.new n }
{
    for p in 0..n {
        sets::insert(rows, p, p);
    }
}

// The row of the state that the record r leaves gets its target, if it is an epsilon.
fn add_epsilon(r: &[u32; 5], rows: &mut [u64])
    requires { (4 * get_or r.now 0 0 + 4 ≤ length rows.old) × (get_or r.now 4 0 < 256) }
    ensures { EpsilonsAdded rows.old rows.new (record_at r.now 0 ∷ []) }
{
    if r[1] != 0 {
        return;
    }
    sets::insert(rows, r[0] as usize, r[4] as usize);
}

// Each row gets the targets of the epsilons that leave its state.
fn add_epsilons(records: &[u32], rows: &mut [u64])
    requires { Named 256 (read_records records.now) × RowsFor (length rows.old) (read_records records.now) }
    ensures { EpsilonsAdded rows.old rows.new (read_records records.now) }
{
    let (records, _) = records.as_chunks::<5>();
    for r in records {
        add_epsilon(r, rows);
    }
}

// For each state the states that any number of epsilons reaches, itself included, as row after row of a zeroed table.
pub fn state_closures(s: &[u32], rows: &mut [u64])
    requires { Accepted s.now × Fresh (state_count s.now) rows.old }
    ensures { (4 * state_count s.now ≤ length rows.new) × (entries rows.new (state_count s.now) ≡ closures (read s.now)) }
{
    let n = s[2] as usize;
    add_selves(rows, n);
    add_epsilons(&s[n + 4..], rows);
    sets::warshall(rows, n);
}

// next takes in the closure of a state.
fn take_closure(next: &mut [u64], closures: &[u64], state: u32)
    requires { (4 ≤ length next.old) × (4 * state + 4 ≤ length closures.now) }
    ensures { next.new ≡ union_at next.old 0 closures.now (4 * state) }
{
    sets::union_from(next, closures, state as usize);
}

// next takes in the closures of the targets of the run whose range holds the symbol. Answers the least of top and the cuts above the symbol, which are
// every first and every last plus 1. A record that ends below the symbol, of whatever kind, is passed by one comparison. Behind a range that starts above the
// symbol no range holds it or is cut below that start.
fn follow(run: &[u32], symbol: u32, closures: &[u64], next: &mut [u64], top: u64) -> u64
    requires { RowsFor (length closures.now) (read_records run.now) × SortedRanges (ranges_of (read_records run.now)) × (4 ≤ length next.old) }
    ensures cut { result ≡ next_cut symbol top (ranges_of (read_records run.now)) }
    ensures reached { set_at next.new 0 ≡ gathered next.old closures.now symbol (read_records run.now) }
{
    let mut found = top;
    let (records, _) = run.as_chunks::<5>();
    for r in records {
        if symbol <= r[3] {
            if r[1] == 1 {
                if symbol < r[2] {
                    return ranges::until(r[2], found);
                }
                take_closure(next, closures, r[4]);
                found = ranges::through(r[3], found);
            }
        }
    }
    found
}

// The states that the symbol leads to from those of current, in next. Answers the least of top and the cuts above the symbol: every symbol from
// this one up to the cut leads there.
pub fn step(
    s: &[u32],
    starts: &[u32],
    closures: &[u64],
    current: &[u64],
    symbol: u32,
    next: &mut [u64],
    top: u64,
) -> u64
    requires { Tables s.now starts.now closures.now × Canon (state_count s.now) (set_at current.now 0) × (4 ≤ length current.now) × (4 ≤ length next.old) }
    ensures cut { result ≡ next_cut symbol top (outgoing (read s.now) (set_at current.now 0)) }
    ensures reached { set_at next.new 0 ≡ step (read s.now) (set_at current.now 0) symbol }
{
    sets::clear(next);
    let mut found = top;
    let mut q = sets::next_member(current, 0);
    while q < 256 {
        found = follow(
            sheets::run(s, starts, q as u32),
            symbol,
            closures,
            next,
            found,
        );
        q = sets::next_member(current, q + 1);
    }
    found
}

// The smaller of two accept words that is not 0, or 0.
fn least(a: u32, b: u32) -> u32
    ensures { result ≡ least a b }
{
    if a == 0 {
        return b;
    }
    if b == 0 {
        return a;
    }
    if a <= b {
        return a;
    }
    b
}

// The least nonzero accept word among the states of a set, or 0.
pub fn kind_of(s: &[u32], set: &[u64]) -> u32
    requires { Accepted s.now × Canon (state_count s.now) (set_at set.now 0) × (4 ≤ length set.now) }
    ensures { result ≡ kind_of (read s.now) (set_at set.now 0) }
{
    let mut kind: u32 = 0;
    let mut q = sets::next_member(set, 0);
    while q < 256 {
        kind = least(kind, s[q + 3]);
        q = sets::next_member(set, q + 1);
    }
    kind
}

// The states that the symbol leads to from those of current, in its place.
fn advance(s: &[u32], starts: &[u32], closures: &[u64], current: &mut [u64], symbol: u32)
    requires { Tables s.now starts.now closures.now × Canon (state_count s.now) (set_at current.old 0) × (4 ≤ length current.old) }
    ensures { set_at current.new 0 ≡ step (read s.now) (set_at current.old 0) symbol }
{
    let mut next = [0u64; 4];
    step(s, starts, closures, current, symbol, &mut next, 0);
    sets::copy_row(current, &next, 0);
}

// The states at the end of the word that is read from those of current, in its place.
fn read_word(s: &[u32], starts: &[u32], closures: &[u64], word: &[u32], current: &mut [u64])
    requires { Tables s.now starts.now closures.now × Canon (state_count s.now) (set_at current.old 0) × (4 ≤ length current.old) }
    ensures { set_at current.new 0 ≡ simulate (read s.now) (set_at current.old 0) word.now }
{
    for symbol in word {
        if sets::is_empty(current) {
            return;
        }
        advance(s, starts, closures, current, *symbol);
    }
}

// The tables of a sheet: where its runs begin, and its closures; and the states that the empty word leads to.
pub fn begin(s: &[u32], starts: &mut [u32], closures: &mut [u64], current: &mut [u64])
    requires { Accepted s.now × (state_count s.now < length starts.old) × Fresh (state_count s.now) closures.old × (4 ≤ length current.old) }
    ensures { Tables s.now starts.new closures.new × (set_at current.new 0 ≡ start_set (read s.now)) }
{
    sheets::run_starts(s, starts);
    state_closures(s, closures);
    sets::copy_row(current, closures, s[1] as usize);
}

// The states at the end of the text that is read from those of current, in its place.
fn read_text(s: &[u32], starts: &[u32], closures: &[u64], text: &[u8], current: &mut [u64])
    requires { Tables s.now starts.now closures.now × Canon (state_count s.now) (set_at current.old 0) × (4 ≤ length current.old) × (wellformed text.now ≡ true) }
    ensures { set_at current.new 0 ≡ simulate (read s.now) (set_at current.old 0) (points_of (decode text.now)) }
{
    let mut at: usize = 0;
    while at < text.len() {
        if sets::is_empty(current) {
            return;
        }
        match utf8::next(text, at) {
            utf8::Step::Point(symbol, to) => {
                advance(s, starts, closures, current, symbol);
                at = to;
            }
            utf8::Step::End => return,
            utf8::Step::Malformed => return,
        }
    }
}

// What is read: a word of u32 symbols, or a text in UTF-8, as the word of its code points.
#[derive(Clone, Copy)]
enum Input<'a> {
    Word(&'a [u32]),
    Text(&'a [u8]),
}

// The states at the end of what is read from those of current, in its place.
fn read_input(s: &[u32], starts: &[u32], closures: &[u64], input: Input<'_>, current: &mut [u64])
    requires { Tables s.now starts.now closures.now × Canon (state_count s.now) (set_at current.old 0) × (4 ≤ length current.old) × IsWellformed input }
    ensures { set_at current.new 0 ≡ simulate (read s.now) (set_at current.old 0) (symbols_of input.entry) }
{
    match input {
        Input::Word(word) => read_word(s, starts, closures, word, current),
        Input::Text(text) => read_text(s, starts, closures, text, current),
    }
}

// The accept word of what is read in an accepted sheet, with a table of N words for its closures. It stays a function of its own, so that a small
// table does not pay for a large one.
#[inline(never)]
fn input_kind_within<const N: usize>(s: &[u32], input: Input<'_>) -> u32
    requires { Accepted s.now × (4 * state_count s.now ≤ N) × (N ≤ 1024) × IsWellformed input }
    ensures { result ≡ kind (read s.now) (symbols_of input.entry) }
{
    let mut closures = [0u64; N];
    let mut starts = [0u32; 257];
    let mut current = [0u64; 4];
    begin(s, &mut starts, &mut closures, &mut current);
    read_input(s, &starts, &closures, input, &mut current);
    kind_of(s, &current)
}

// The same with a table for 32 states where they are enough, and else for as many as a sheet may have.
fn input_kind(s: &[u32], input: Input<'_>) -> u32
    requires { Accepted s.now × IsWellformed input }
    ensures { result ≡ kind (read s.now) (symbols_of input.entry) }
{
    if 32 < s[2] {
        return input_kind_within::<1024>(s, input);
    }
    input_kind_within::<128>(s, input)
}

// The accept word that the states at the end of a word of u32 symbols give, 0 where a sheet does not accept it.
#[tactic(auto, using(crate::proofs::Answers::answer_laws))]
pub fn accepts_words(s: &[u32], word: &[u32]) -> Result<u32, InputRefusal>
    ensures { acceptance_of result ≡ accepts_words_answer s.now word.now }
{
    sheets::check(s)?;
    Ok(input_kind(s, Input::Word(word)))
}

// The same for a text in UTF-8, as the word of its code points.
#[tactic(auto, using(crate::proofs::Answers::answer_laws))]
pub fn accepts_text(s: &[u32], text: &[u8]) -> Result<u32, InputRefusal>
    ensures { acceptance_of result ≡ accepts_text_answer s.now text.now }
{
    sheets::check(s)?;
    if utf8::is_wellformed(text) {
        return Ok(input_kind(s, Input::Text(text)));
    }
    Err(InputRefusal::Utf8)
}
