// Passing over the records at the front of a run that give nothing with ranges that start at a symbol or behind it.
ghost use Rattle.std.specs.Prelude.{◌≡◌, ◌≤◌, length, drop};
ghost use Rattle.automata.specs.Records.{read_records};
ghost use Rattle.automata.specs.inner.Records.{record_at};
ghost use Rattle.product.specs.inner.Tables.{ends_before, not_ended};

// Whether the record is no range or ends before the symbol a.
#[tactic(auto, unfolding(crate::specs::inner::Tables::ends_before))]
fn is_ended(e: &[u32; 5], a: u32) -> bool
    ensures { result ≡ ends_before a (record_at e.now 0) }
{
    e[1] != 1 || e[3] < a
}

// The place of the first record at or behind a place of the run that is a range and does not end before the symbol a.
pub fn pass_ended(run: &[u32], from: usize, a: u32) -> usize
    requires { from ≤ length run.now }
    ensures { (result ≤ length run.now) × (read_records (drop result run.now) ≡ not_ended a (read_records (drop from run.now))) }
{
    let (records, _) = run[from..].as_chunks::<5>();
    from + 5 * records.iter().take_while(|e| is_ended(e, a)).count()
}
