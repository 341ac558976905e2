// Writes the totalized sheet: the records and holes of a state in one pass over both, with acceptance flipped or not.
ghost use Rattle.std.specs.Prelude.{map, ◌≡◌, ◌+◌, ◌*◌, ◌≤◌, ◌<◌, length, drop};
ghost use Rattle.stores.specs.Written.{Written};
ghost use Rattle.automata.specs.Automaton.{states};
ghost use Rattle.automata.specs.Records.{read_records, write_records};
ghost use Rattle.nondeterminism.specs.inner.Holes.{HolesInputs};
ghost use Rattle.sheets.specs.inner.Accepted.{Accepted};
ghost use Rattle.sheets.specs.Sheet.{state_count, read, write};
ghost use Rattle.totality.specs.Totality.{filled, filled_in, totalized};
ghost use Rattle.totality.specs.inner.Merging.{read_spans, leading, Mergeable, merged, WholeRecords, Fillable, flipped_word_if, flipped_if, head_words, front_words, TotalizedRoom};
ghost use Rattle.output.specs.Output.{sheet_size};

// The place behind the records from i on that come before a hole that begins at `first`.
fn records_before(run: &[u32], i: usize, first: u32) -> usize
    requires { i ≤ length run.now }
    ensures { (result ≡ i + 5 * leading first (read_records (drop i run.now))) × (result ≤ length run.now) }
{
    let (records, _) = run[i..].as_chunks::<5>();
    i + 5 * records.iter().take_while(|r| r[2] <= first).count()
}

// Writes the records of the run and the holes of its state q, led to the sink, in order: the records before each hole, and then the hole.
// Like the functions below it answers the place behind what it wrote.
fn put_merged(run: &[u32], holes: &[u32], q: u32, sink: u32, out: &mut [u32], at: usize) -> usize
    requires mergeable { Mergeable sink q (read_records run.now) (read_spans holes.now) × WholeRecords run.now }
    requires holes_in_bounds { at + length (write_records (merged sink q run.now holes.now)) ≤ length out.old }
    ensures { Written out.old at (write_records (merged sink q run.now holes.now)) out.new result }
{
    let (spans, _) = holes.as_chunks::<2>();
    let mut end = at;
    let mut i: usize = 0;
    for hole in spans {
        let k = records_before(run, i, hole[0]);
        end = stores::put_all(out, end, &run[i..k]);
        end = output::put_record(out, end, q, 1, hole[0], hole[1], sink);
        i = k;
    }
    stores::put_all(out, end, &run[i..])
}

// Writes the records of the run of the state q with its holes from lower to upper.
fn put_filled(
    run: &[u32],
    q: u32,
    sink: u32,
    lower: u32,
    upper: u32,
    holes: &mut [u32],
    out: &mut [u32],
    at: usize,
) -> usize
    requires fillable { Fillable lower upper sink q run.now holes.old }
    requires run_in_bounds { at + length (write_records (filled lower upper sink q (read_records run.now))) ≤ length out.old }
    ensures { Written out.old at (write_records (filled lower upper sink q (read_records run.now))) out.new result }
{
    let k = ranges::missing_ranges(run, lower, upper, holes);
    put_merged(run, &holes[..2 * k], q, sink, out, at)
}

// Writes the records of every state with its holes from lower to upper, led to the sink, which is the number of states.
fn put_rows(
    s: &[u32],
    starts: &[u32],
    lower: u32,
    upper: u32,
    holes: &mut [u32],
    out: &mut [u32],
    at: usize,
) -> usize
    requires holes_inputs { HolesInputs s.now starts.now holes.old }
    requires s_in_bounds { at + length (write_records (filled_in lower upper (read s.now) (states (state_count s.now)))) ≤ length out.old }
    ensures { Written out.old at (write_records (filled_in lower upper (read s.now) (states (state_count s.now)))) out.new result }
{
    let n = s[2];
    let mut end = at;
    for q in 0..n {
        let run = sheets::run(s, starts, q);
        end = put_filled(run, q, n, lower, upper, holes, out, end);
    }
    end
}

// The accept word that is written for x: 1 for 0 and 0 for others where acceptance is flipped.
fn flipped_word_if(flip: bool, x: u32) -> u32
    ensures { result ≡ flipped_word_if flip x }
{
    if flip {
        if x == 0 {
            return 1;
        }
        return 0;
    }
    x
}

// Writes accept words, flipped or not.
fn put_accepts(words: &[u32], flip: bool, out: &mut [u32], at: usize) -> usize
    requires { at + length words.now ≤ length out.old }
    ensures { Written out.old at (map (flipped_word_if flip) words.now) out.new result }
{
    let mut end = at;
    for word in words {
        out[end] = flipped_word_if(flip, *word);
        end += 1;
    }
    end
}

// Writes the front of a sheet of that many states up to the accept words of s, flipped or not.
pub fn put_head(s: &[u32], flip: bool, states: u32, out: &mut [u32]) -> usize
    requires { Accepted s.now × (sheet_size ≤ length out.old) }
    ensures { Written out.old 0 (head_words flip s.now states) out.new result }
{
    let n = s[2] as usize;
    let at = output::put_start(out, s[1], states);
    put_accepts(&s[3..n + 3], flip, out, at)
}

// Writes the front of the totalized sheet, which has count transitions, up to that count.
fn put_front(s: &[u32], flip: bool, count: u32, out: &mut [u32]) -> usize
    requires { Accepted s.now × (state_count s.now < 256) × (sheet_size ≤ length out.old) }
    ensures { Written out.old 0 (front_words flip s.now count) out.new result }
{
    let sink = put_head(s, flip, s[2] + 1, out);
    let at = stores::put(out, sink, flipped_word_if(flip, 0));
    stores::put(out, at, count)
}

// Writes the totalized sheet, which has count transitions, with its acceptance flipped or not.
pub fn put_total(
    s: &[u32],
    starts: &[u32],
    flip: bool,
    count: u32,
    lower: u32,
    upper: u32,
    holes: &mut [u32],
    out: &mut [u32],
) -> usize
    requires { HolesInputs s.now starts.now holes.old × TotalizedRoom lower upper s.now out.old count }
    ensures { Written out.old 0 (write (flipped_if flip (totalized lower upper (read s.now)))) out.new result }
{
    let n = s[2];
    let rows = put_front(s, flip, count, out);
    let end = put_rows(s, starts, lower, upper, holes, out, rows);
    output::put_record(out, end, n, 1, lower, upper, n)
}
