// The determinizations of two sheets, one after the other: the first's refusals come before the second's.
#![tactic(auto)]

ghost use Rattle.std.specs.Prelude.{◌≤◌, length};
ghost use Rattle.sheets.specs.inner.Accepted.{Accepted};
ghost use Rattle.sheets.specs.Sheet.{read};
ghost use Rattle.determinizations.specs.inner.Sheets.{BothDeterminized};

use refusal::StateRefusal;

// Determinizes two accepted sheets over the symbols from lower to upper, without labels; how many words the sheet of each result takes. After a refusal of the second the first output is written all the same.
pub fn determinize_both(
    a: &[u32],
    b: &[u32],
    lower: u32,
    upper: u32,
    out_a: &mut [u32],
    out_b: &mut [u32],
) -> Result<(usize, usize), StateRefusal>
    requires { Accepted a.now × Accepted b.now × (10500 ≤ length out_a.old) × (10500 ≤ length out_b.old) }
    ensures { BothDeterminized lower upper (read a.now) (read b.now) out_a.new out_b.new result }
{
    let first = determinize::determinize_accepted(a, lower, upper, out_a)?;
    let second = determinize::determinize_accepted(b, lower, upper, out_b)?;
    Ok((first.words, second.words))
}
