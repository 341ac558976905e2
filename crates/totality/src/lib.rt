// `totalize` and `complement`: the checks, the limits and the answers. `total` writes the totalized sheet.
#![tactic(auto)]

ghost use Rattle.std.specs.Prelude.{◌≡◌, ◌+◌, ◌≤◌, ◌<◌, length};
ghost use Rattle.labels.specs.Checked.{checked_number};
ghost use Rattle.labels.specs.Labels.{labels_fault, read_labels};
ghost use Rattle.nondeterminism.specs.inner.Holes.{HolesInputs};
ghost use Rattle.output.specs.Made.{output_of};
ghost use Rattle.output.specs.Output.{outputs, labels_size, sheet_size};
ghost use Rattle.refusal.specs.Answer.{given};
ghost use Rattle.sheets.specs.inner.Accepted.{Accepted};
ghost use Rattle.sheets.specs.Sheet.{state_count, read};
ghost use Rattle.totality.specs.Answers.{limited, complement_pattern, totalize_answer, complement_answer};
ghost use Rattle.totality.specs.inner.Answers.{inputs_first, inputs_of, passed, total_pattern_flipped_if, flipped_pattern};
ghost use Rattle.automata.specs.WellFormed.{last_symbol};

use output::Made;
use refusal::{InputRefusal, Refusal, StateRefusal};

mod total;

// The totalized sheet, with its acceptance flipped or not, and its labels, unless it is too large.
fn make_total_with_tables(
    s: &[u32],
    labels: &[u8],
    starts: &[u32],
    flip: bool,
    lower: u32,
    upper: u32,
    holes: &mut [u32],
    out: &mut [u32],
    names: &mut [u8],
) -> Result<Made, Refusal>
    requires holes_inputs { HolesInputs s.now starts.now holes.old }
    requires labels_value { (labels_fault (state_count s.now) labels.now ≡ 0) × (sheet_size ≤ length out.old) × (labels_size ≤ length names.old) }
    ensures { output_of result out.new names.new ≡ outputs out.old names.old (limited (total_pattern_flipped_if flip lower upper (read s.now) (read_labels labels.now))) }
{
    let n = s[2] as usize;
    if 255 < n {
        return Err(Refusal::State(StateRefusal::States));
    }
    let count = s[n + 3] as usize + nondeterminism::count_holes(s, starts, lower, upper, holes) + 1;
    if 2048 < count {
        return Err(Refusal::State(StateRefusal::Transitions));
    }
    let words = total::put_total(s, starts, flip, count as u32, lower, upper, holes, out);
    let bytes = labels::copy_with_sink(names, labels, n);
    Ok(Made { words, bytes })
}

// The same, with the tables that it needs.
fn make_total(
    s: &[u32],
    labels: &[u8],
    flip: bool,
    lower: u32,
    upper: u32,
    out: &mut [u32],
    names: &mut [u8],
) -> Result<Made, Refusal>
    requires { Accepted s.now × (labels_fault (state_count s.now) labels.now ≡ 0) × (sheet_size ≤ length out.old) × (labels_size ≤ length names.old) }
    ensures { output_of result out.new names.new ≡ outputs out.old names.old (limited (total_pattern_flipped_if flip lower upper (read s.now) (read_labels labels.now))) }
{
    let mut starts = [0u32; 257];
    let mut holes = [0u32; 4098];
    sheets::run_starts(s, &mut starts);
    make_total_with_tables(
        s, labels, &starts, flip, lower, upper, &mut holes, out, names,
    )
}

// The sheet with its acceptance flipped, and its labels.
fn make_flipped(
    s: &[u32],
    labels: &[u8],
    out: &mut [u32],
    names: &mut [u8],
) -> Result<Made, Refusal>
    requires { Accepted s.now × (labels_fault (state_count s.now) labels.now ≡ 0) × (sheet_size ≤ length out.old) × (labels_size ≤ length names.old) }
    ensures { output_of result out.new names.new ≡ outputs out.old names.old (given (flipped_pattern (read s.now) (read_labels labels.now))) }
{
    let n = s[2];
    let counted = total::put_head(s, true, n, out);
    let words = stores::put_all(out, counted, &s[n as usize + 3..]);
    let bytes = labels::copy_all(names, labels);
    Ok(Made { words, bytes })
}

// The fault of the labels of an accepted sheet.
fn check_labels(s: &[u32], b: &[u8]) -> Result<(), InputRefusal>
    requires { Accepted s.now }
    ensures { checked_number result ≡ labels_fault (state_count s.now) b.now }
{
    labels::check(s[2] as usize, b)
}

// The first refusal of inputs and outputs: an output too short, the sheet's fault, the labels' fault.
#[tactic(auto, using(crate::proofs::Passing::check_laws))]
fn check_inputs(s: &[u32], b: &[u8], out: &[u32], names: &[u8]) -> Result<(), Refusal>
    ensures { inputs_of result ≡ inputs_first s.now b.now out.now names.now passed }
{
    if output::lacks_room(out, names) {
        return Err(Refusal::State(StateRefusal::OutputLength));
    }
    sheets::check(s)?;
    check_labels(s, b)?;
    Ok(())
}

// The complement and its labels, unless it is too large.
fn make_complement(
    s: &[u32],
    labels: &[u8],
    lower: u32,
    upper: u32,
    out: &mut [u32],
    names: &mut [u8],
) -> Result<Made, Refusal>
    requires { Accepted s.now × (labels_fault (state_count s.now) labels.now ≡ 0) × (sheet_size ≤ length out.old) × (labels_size ≤ length names.old) }
    ensures { output_of result out.new names.new ≡ outputs out.old names.old (limited (complement_pattern lower upper (read s.now) (read_labels labels.now))) }
{
    if nondeterminism::is_nfa_between(s, lower, upper) {
        return make_total(s, labels, true, lower, upper, out, names);
    }
    make_flipped(s, labels, out, names)
}

// Adds the sink and sends each state's holes there.
#[tactic(auto, using(crate::proofs::Answers::totalize_laws))]
pub fn totalize(
    s: &[u32],
    labels: &[u8],
    out: &mut [u32],
    names: &mut [u8],
) -> Result<Made, Refusal>
    ensures { output_of result out.new names.new ≡ outputs out.old names.old (totalize_answer 0 last_symbol s.now labels.now out.old names.old) }
{
    check_inputs(s, labels, out, names)?;
    make_total(s, labels, false, 0, 4294967295, out, names)
}

// Flips acceptance, after totalizing where the sheet has an epsilon, an overlap or a hole.
#[tactic(auto, using(crate::proofs::Answers::complemented_laws))]
pub fn complement(
    s: &[u32],
    labels: &[u8],
    out: &mut [u32],
    names: &mut [u8],
) -> Result<Made, Refusal>
    ensures { output_of result out.new names.new ≡ outputs out.old names.old (complement_answer 0 last_symbol s.now labels.now out.old names.old) }
{
    check_inputs(s, labels, out, names)?;
    make_complement(s, labels, 0, 4294967295, out, names)
}
