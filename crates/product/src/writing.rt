// The outputs from the finished table of pairs; nothing is written before the number of transitions is known.
ghost use Rattle.std.specs.Prelude.{cond, map, ◌≡◌, ◌+◌, ◌*◌, ◌≤◌, ◌<◌, eqb, length};
ghost use Rattle.automata.specs.Records.{write_records};
ghost use Rattle.sheets.specs.inner.Accepted.{Accepted};
ghost use Rattle.sheets.specs.Sheet.{state_count, read};
ghost use Rattle.stores.specs.Written.{Written};
ghost use Rattle.labels.specs.Labels.{write_labels};
ghost use Rattle.output.specs.Made.{output_of};
ghost use Rattle.output.specs.Output.{outputs, labels_size, sheet_size};
ghost use Rattle.product.specs.Product.{pair_accept, product_automaton, pair_label_of, product};
ghost use Rattle.sheets.specs.inner.Runs.{IndexedSheet};
ghost use Rattle.product.specs.inner.Tables.{pair_of, table_of, Queued, PairsBelow, sheet_words, Whole};

use output::Made;
use refusal::{Refusal, StateRefusal};

// The accept word of a pair from those of its states.
fn both_accept(x: u32, y: u32) -> u32
    ensures { result ≡ cond (eqb y 0) 0 x }
{
    if y == 0 {
        return 0;
    }
    x
}

// The accept word of the pair of the word c.
#[tactic(auto, using(crate::proofs::Sections::accept_pair))]
fn accept_word(a: &[u32], b: &[u32], c: u32) -> u32
    requires { Accepted a.now × Accepted b.now × ((pair_of c).left < state_count a.now) × ((pair_of c).right < state_count b.now) }
    ensures { result ≡ pair_accept (read a.now) (read b.now) (pair_of c) }
{
    let p = (c / 256) as usize;
    let q = (c % 256) as usize;
    both_accept(a[p + 3], b[q + 3])
}

// The accept words of the first n pairs of the queue at a place; the place behind them.
fn put_accept_words(
    a: &[u32],
    b: &[u32],
    queue: &[u32],
    n: usize,
    out: &mut [u32],
    at: usize,
) -> usize
    requires { Accepted a.now × Accepted b.now × (n ≤ length queue.now) × PairsBelow (state_count a.now) (state_count b.now) (table_of queue.now n) × (at + n ≤ length out.old) }
    ensures { Written out.old at (map (pair_accept (read a.now) (read b.now)) (table_of queue.now n)) out.new result }
{
    let mut end = at;
    for i in 0..n {
        out[end] = accept_word(a, b, queue[i]);
        end += 1;
    }
    end
}

// The sheet of the product from its pairs and the records of its transitions; its length.
fn write_sheet(
    a: &[u32],
    b: &[u32],
    queue: &[u32],
    n: usize,
    records: &[u32],
    out: &mut [u32],
) -> usize
    requires { Accepted a.now × Accepted b.now × (n ≤ length queue.now) × (n ≤ 256) × PairsBelow (state_count a.now) (state_count b.now) (table_of queue.now n) × (length records.now ≤ 10240) × (sheet_size ≤ length out.old) }
    ensures { Written out.old 0 (sheet_words (map (pair_accept (read a.now) (read b.now)) (table_of queue.now n)) n records.now) out.new result }
{
    let states = output::put_start(out, 0, n as u32);
    let counts = put_accept_words(a, b, queue, n, out, states);
    let first = stores::put(out, counts, (records.len() / 5) as u32);
    stores::put_all(out, first, records)
}

// The labels of the first n pairs of the queue; how many bytes they take.
fn write_labels(queue: &[u32], n: usize, names: &mut [u8]) -> usize
    requires { (n ≤ length queue.now) × (n ≤ 256) × PairsBelow 256 256 (table_of queue.now n) × (labels_size ≤ length names.old) }
    ensures { Written names.old 0 (write_labels (map pair_label_of (table_of queue.now n))) names.new result }
{
    let mut at = labels::put_count(names, n);
    for i in 0..n {
        let c = queue[i];
        at = labels::put_pair(names, at, c / 256, c % 256);
    }
    at
}

// The outputs from the finished table, the first n pairs of the queue, among which none is blocked, and the records of its transitions.
fn write_outputs(
    a: &[u32],
    b: &[u32],
    queue: &[u32],
    n: usize,
    records: &[u32],
    out: &mut [u32],
    names: &mut [u8],
) -> Result<Made, Refusal>
    requires { Accepted a.now × Accepted b.now × (n ≤ length queue.now) × (n ≤ 256) × PairsBelow (state_count a.now) (state_count b.now) (table_of queue.now n) × Whole (read a.now) (read b.now) (table_of queue.now n) × (records.now ≡ write_records (product_automaton (read a.now) (read b.now) (table_of queue.now n)).transitions) × (length records.now ≤ 10240) × (sheet_size ≤ length out.old) × (labels_size ≤ length names.old) }
    ensures { output_of result out.new names.new ≡ outputs out.old names.old (product (read a.now) (read b.now)) }
{
    let words = write_sheet(a, b, queue, n, records, out);
    let bytes = write_labels(queue, n, names);
    Ok(Made { words, bytes })
}

// The outputs from the finished table, with a memory for as many transitions as a sheet may have.
fn write_large(
    a: &[u32],
    aruns: &[u32],
    b: &[u32],
    bruns: &[u32],
    queue: &[u32],
    t: &[u8],
    n: usize,
    out: &mut [u32],
    names: &mut [u8],
) -> Result<Made, Refusal>
    requires { IndexedSheet a.now aruns.now × IndexedSheet b.now bruns.now × (256 * state_count a.now ≤ length t.now) × Queued queue.now t.now n × (n ≤ 256) × PairsBelow (state_count a.now) (state_count b.now) (table_of queue.now n) × Whole (read a.now) (read b.now) (table_of queue.now n) × (sheet_size ≤ length out.old) × (labels_size ≤ length names.old) }
    ensures { output_of result out.new names.new ≡ outputs out.old names.old (product (read a.now) (read b.now)) }
{
    let mut buf = [0u32; 11520];
    let behind = crate::collecting::collect_pairs(a, aruns, b, bruns, queue, t, n, &mut buf);
    if 10240 < behind {
        return Err(Refusal::State(StateRefusal::Transitions));
    }
    write_outputs(a, b, queue, n, &buf[..behind], out, names)
}

// The same, with a memory for 128 transitions where the sheets are short and that is enough.
pub fn write_product(
    a: &[u32],
    aruns: &[u32],
    b: &[u32],
    bruns: &[u32],
    queue: &[u32],
    t: &[u8],
    n: usize,
    out: &mut [u32],
    names: &mut [u8],
) -> Result<Made, Refusal>
    requires { IndexedSheet a.now aruns.now × IndexedSheet b.now bruns.now × (256 * state_count a.now ≤ length t.now) × Queued queue.now t.now n × (n ≤ 256) × PairsBelow (state_count a.now) (state_count b.now) (table_of queue.now n) × Whole (read a.now) (read b.now) (table_of queue.now n) × (sheet_size ≤ length out.old) × (labels_size ≤ length names.old) }
    ensures { output_of result out.new names.new ≡ outputs out.old names.old (product (read a.now) (read b.now)) }
{
    if 160 < a.len() + b.len() {
        return write_large(a, aruns, b, bruns, queue, t, n, out, names);
    }
    let mut buf = [0u32; 720];
    let behind = crate::collecting::collect_pairs(a, aruns, b, bruns, queue, t, n, &mut buf);
    if 640 < behind {
        return write_large(a, aruns, b, bruns, queue, t, n, out, names);
    }
    write_outputs(a, b, queue, n, &buf[..behind], out, names)
}
