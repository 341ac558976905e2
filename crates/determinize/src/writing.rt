// The second pass: the sheet of the finished table, from the notes of its transitions.
ghost use Rattle.std.specs.Prelude.{◌≡◌, ◌+◌, ◌*◌, ◌<◌, ◌≤◌, [], ◌∷◌, ◌++◌, map, length};
ghost use Rattle.stores.specs.Written.{Written};
ghost use Rattle.automata.specs.Records.{read_records, write_records};
ghost use Rattle.automata.specs.inner.Records.{record_at};
ghost use Rattle.sets.specs.inner.BitSet.{set_at, entries};
ghost use Rattle.sheets.specs.inner.Accepted.{Accepted};
ghost use Rattle.sheets.specs.Sheet.{state_count, read, write};
ghost use Rattle.words.specs.Simulation.{kind_of};
ghost use Rattle.determinize.specs.inner.Notes.{noted_transition, Canonical};
ghost use Rattle.determinize.specs.inner.Sheets.{noted_automaton};
ghost use Rattle.output.specs.Output.{sheet_size};

// The accept word of the set in row j of the table.
fn accept_word(s: &[u32], table: &[u64], n: usize, j: usize) -> u32
    requires { Accepted s.now × Canonical (state_count s.now) (entries table.now n) × (j < n) × (n < 256) × (length table.now ≡ 1024) }
    ensures { result ≡ kind_of (read s.now) (set_at table.now (4 * j)) }
{
    let mut set = [0u64; 4];
    sets::copy_row(&mut set, table, j);
    words::kind_of(s, &set)
}

// The accept words of the n sets of the table, and that of the sink, which rejects.
fn put_accept_words(s: &[u32], table: &[u64], n: usize, out: &mut [u32], at: usize) -> usize
    requires { Accepted s.now × Canonical (state_count s.now) (entries table.now n) × (n < 256) × (length table.now ≡ 1024) × (at + n + 1 ≤ length out.old) }
    ensures { Written out.old at (map (kind_of (read s.now)) (entries table.now n) ++ 0 ∷ []) out.new result }
{
    let mut end = at;
    for j in 0..n {
        end = stores::put(out, end, accept_word(s, table, n, j));
    }
    stores::put(out, end, 0)
}

// The record that a note stands for.
fn put_note(note: &[u32; 5], sink: u32, out: &mut [u32], at: usize) -> usize
    requires { at + 5 ≤ length out.old }
    ensures { Written out.old at (write_records (noted_transition sink (record_at note.now 0) ∷ [])) out.new result }
{
    let to = note[4];
    if to == 256 {
        return output::put_record(out, at, note[0], note[1], note[2], note[3], sink);
    }
    output::put_record(out, at, note[0], note[1], note[2], note[3], to)
}

// The records that the notes stand for.
fn put_notes(notes: &[u32], sink: u32, out: &mut [u32], at: usize) -> usize
    requires { at + length notes.now ≤ length out.old }
    ensures { Written out.old at (write_records (map (noted_transition sink) (read_records notes.now))) out.new result }
{
    let (records, _) = notes.as_chunks::<5>();
    let mut end = at;
    for note in records {
        end = put_note(note, sink, out, end);
    }
    end
}

// The sheet of a table of n sets and the notes of its transitions.
pub fn write_sheet(s: &[u32], table: &[u64], n: usize, notes: &[u32], out: &mut [u32]) -> usize
    requires { Accepted s.now × Canonical (state_count s.now) (entries table.now n) × (n < 256) × (length table.now ≡ 1024) × (length notes.now ≤ 10240) × (sheet_size ≤ length out.old) }
    ensures { Written out.old 0 (write (noted_automaton (read s.now) (entries table.now n) (read_records notes.now))) out.new result }
{
    let start = output::put_start(out, 0, n as u32 + 1);
    let accepts = put_accept_words(s, table, n, out, start);
    let records = stores::put(out, accepts, (notes.len() / 5) as u32);
    put_notes(notes, n as u32, out, records)
}
