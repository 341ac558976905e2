// Determinizing (document 01, "Determinizing"), in two passes: the table of the sets that words reach, with a note of each transition; then,
// once every refusal is ruled out, the sheet.
#![tactic(auto)]

ghost use Rattle.std.specs.Prelude.{◌≡◌, ◌≤◌, length};
ghost use Rattle.sheets.specs.inner.Accepted.{Accepted};
ghost use Rattle.sheets.specs.Sheet.{read};
ghost use Rattle.output.specs.Made.{output_of};
ghost use Rattle.output.specs.Output.{outputs, sheet_size};
ghost use Rattle.determinize.specs.Determinize.{determinize};
ghost use Rattle.determinize.specs.Sheets.{determinize_answer};
ghost use Rattle.determinize.specs.inner.Memory.{StartTable};
ghost use Rattle.determinize.specs.inner.Attempts.{TableResultWithRoom};
ghost use Rattle.determinize.specs.inner.Sheets.{determinized_of, sheet_output};

use crate::exploring::SetCounts;
use output::Made;
use ranges::Ends;
use refusal::{Refusal, StateRefusal};

mod exploring;
mod sweeping;
mod writing;

// A result has at most 256 states, one of which is the sink, and at most 2,048 transitions.
const MOST_STATES: usize = 256;

const MOST_TRANSITIONS: usize = 2048;

// The sheet that determinizing an accepted sheet has put into the output: how many words it takes and how many states it has.
#[derive(Clone, Copy)]
pub struct Determinized {
    pub words: usize,
    pub states: usize,
}

// The first pass gave up, because a set is long or the memory for notes is too short.
#[derive(Drop)]
pub struct Unfinished;

// The answer of determinizing, from what the first pass came to.
fn finish(
    s: &[u32],
    symbols: Ends,
    table: &[u64],
    notes: &[u32],
    progress: Option<SetCounts>,
    out: &mut [u32],
) -> Result<Determinized, StateRefusal>
    requires { Accepted s.now × TableResultWithRoom symbols.lower symbols.upper (read s.now) table.now notes.now progress × (length table.now ≡ 1024) × (sheet_size ≤ length out.old) }
    ensures { determinized_of result out.new ≡ sheet_output out.old (determinize symbols.lower symbols.upper (read s.now)) }
{
    let Some(counts) = progress else {
        return Err(StateRefusal::States);
    };
    let n = counts.sets;
    let count = counts.notes;
    if MOST_TRANSITIONS < count {
        return Err(StateRefusal::Transitions);
    }
    let words = writing::write_sheet(s, table, n, &notes[..5 * count], out);
    Ok(Determinized {
        words,
        states: n + 1,
    })
}

// Determinizes with room for 2,048 notes.
fn determinize_large(
    s: &[u32],
    starts: &[u32],
    closures: &[u64],
    symbols: Ends,
    table: &mut [u64],
    out: &mut [u32],
    compared: &mut u64,
) -> Result<Determinized, StateRefusal>
    requires { StartTable s.now starts.now closures.now table.old × (sheet_size ≤ length out.old) }
    ensures { determinized_of result out.new ≡ sheet_output out.old (determinize symbols.lower symbols.upper (read s.now)) }
{
    let mut notes = [0u32; 10240];
    match exploring::explore(s, starts, closures, symbols, table, &mut notes, compared) {
        Ok(progress) => finish(s, symbols, table, &notes, progress, out),
        Err(Unfinished) => {
            let progress = sweeping::explore_by_events(
                s, starts, closures, symbols, table, &mut notes, compared,
            );
            finish(s, symbols, table, &notes, progress, out)
        }
    }
}

// Determinizes a short sheet with room for 128 notes, or else with more.
fn determinize_small(
    s: &[u32],
    starts: &[u32],
    closures: &[u64],
    symbols: Ends,
    table: &mut [u64],
    out: &mut [u32],
    compared: &mut u64,
) -> Result<Determinized, StateRefusal>
    requires { StartTable s.now starts.now closures.now table.old × (sheet_size ≤ length out.old) }
    ensures { determinized_of result out.new ≡ sheet_output out.old (determinize symbols.lower symbols.upper (read s.now)) }
{
    let mut notes = [0u32; 640];
    match exploring::explore(s, starts, closures, symbols, table, &mut notes, compared) {
        Ok(progress) => finish(s, symbols, table, &notes, progress, out),
        Err(Unfinished) => determinize_large(s, starts, closures, symbols, table, out, compared),
    }
}

// Determinizes an accepted sheet over the symbols from lower to upper, without labels. How many sets were compared is added to `compared`.
pub fn determinize_counted(
    s: &[u32],
    lower: u32,
    upper: u32,
    out: &mut [u32],
    compared: &mut u64,
) -> Result<Determinized, StateRefusal>
    requires { Accepted s.now × (sheet_size ≤ length out.old) }
    ensures { determinized_of result out.new ≡ sheet_output out.old (determinize lower upper (read s.now)) }
{
    let mut starts = [0u32; 257];
    let mut closures = [0u64; 1024];
    let mut table = [0u64; 1024];
    words::begin(s, &mut starts, &mut closures, &mut table);
    let symbols = Ends { lower, upper };
    if 40 < s.len() {
        return determinize_large(s, &starts, &closures, symbols, &mut table, out, compared);
    }
    determinize_small(s, &starts, &closures, symbols, &mut table, out, compared)
}

// Determinizes an accepted sheet like `determinize_counted`, and lets the count go.
pub fn determinize_accepted(
    s: &[u32],
    lower: u32,
    upper: u32,
    out: &mut [u32],
) -> Result<Determinized, StateRefusal>
    requires { Accepted s.now × (sheet_size ≤ length out.old) }
    ensures { determinized_of result out.new ≡ sheet_output out.old (determinize lower upper (read s.now)) }
{
    let mut compared: u64 = 0;
    determinize_counted(s, lower, upper, out, &mut compared)
}

// Determinizes a sheet: the result at the front of out, its labels D0, D1 and so on at the front of names.
#[tactic(auto, using(crate::proofs::Made::made_laws))]
pub fn determinize(s: &[u32], out: &mut [u32], names: &mut [u8]) -> Result<Made, Refusal>
    ensures { output_of result out.new names.new ≡ outputs out.old names.old (determinize_answer s.now out.old names.old) }
{
    if output::lacks_room(out, names) {
        return Err(Refusal::State(StateRefusal::OutputLength));
    }
    sheets::check(s)?;
    let sheet = determinize_accepted(s, 0, 4294967295, out)?;
    let bytes = labels::write_numbered(names, sheet.states);
    Ok(Made {
        words: sheet.words,
        bytes,
    })
}
