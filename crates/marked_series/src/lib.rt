// A ring series with an outer mark (document 02, M-103): 0 says that its last ring is whole, 1 that it is unfinished, as in a tree felled in summer. An
// unfinished ring is no measurement and is left off before the series is matched. Nothing is copied: the whole rings are a part of the slice.
#![tactic(auto)]

ghost use Rattle.std.specs.Prelude.{◌≡◌};
ghost use Rattle.words.specs.Acceptance.{acceptance_of};
ghost use Rattle.marked_series.specs.Series.{whole_rings, accepts_series_answer};

use refusal::InputRefusal;

// The whole rings of a series: with the mark 1 all but the last, and of an empty series none.
fn whole_rings(series: &[u32], mark: u32) -> &[u32]
    ensures { result.now ≡ whole_rings mark series.now }
{
    let rings = series.len();
    if mark == 0 {
        return series;
    }
    if rings == 0 {
        return series;
    }
    let whole = rings - 1;
    &series[0..whole]
}

// Whether a sheet accepts the whole rings of a series. A mark over 1 is refused where the sheet is not.
#[tactic(auto, using(crate::proofs::Answers::series_laws))]
pub fn accepts_series(s: &[u32], series: &[u32], mark: u32) -> Result<u32, InputRefusal>
    ensures { acceptance_of result ≡ accepts_series_answer s.now series.now mark }
{
    if mark <= 1 {
        return words::accepts_words(s, whole_rings(series, mark));
    }
    sheets::check(s)?;
    Err(InputRefusal::OuterMark)
}
