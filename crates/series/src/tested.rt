// The answer for the bytes of a sheet and a series.
ghost use Rattle.std.specs.Prelude.{◌≡◌};
ghost use Rattle.series.specs.Series.{tested_of, with_series, series_of};
ghost use Rattle.series.specs.declared.tested.TestFault.TheVariants.{Refused};

use refusal::InputRefusal;
use replay::Numbers;

// Why a series was not matched.
#[derive(Clone, Copy, PartialEq, Eq)]
pub enum TestFault {
    Unreadable,
    Refused(InputRefusal),
}

impl From<InputRefusal> for TestFault {
    ghost from_gives = { λ r f. f ≡ Refused r };

    fn from(r: InputRefusal) -> TestFault {
        TestFault::Refused(r)
    }
}

// The answer for the sheet and the series on the line at the place at, which is the last. So many bytes have no more than 32,768 numbers.
#[tactic(auto, using(crate::proofs::Series::series_laws))]
fn test_series(text: &[u8], at: usize, sheet: &[u32]) -> Result<u32, TestFault>
    ensures { tested_of result ≡ with_series text.now at sheet.now }
{
    let mut series = [0u32; 32768];
    let Ok(Numbers { count: n, to }) = replay::read_line(text, at, &mut series) else {
        return Err(TestFault::Unreadable);
    };
    if to != text.len() {
        return Err(TestFault::Unreadable);
    }
    Ok(words::accepts_words(sheet, &series[0..n])?)
}

// The answer for a text of two lines.
#[tactic(auto, using(crate::proofs::Series::sheet_laws))]
pub fn test(text: &[u8]) -> Result<u32, TestFault>
    ensures { tested_of result ≡ series_of text.now }
{
    if 65536 < text.len() {
        return Err(TestFault::Unreadable);
    }
    let mut sheet = [0u32; 10500];
    let Ok(Numbers { count: n, to }) = replay::read_line(text, 0, &mut sheet) else {
        return Err(TestFault::Unreadable);
    };
    if text.len() <= to {
        return Err(TestFault::Unreadable);
    }
    test_series(text, to, &sheet[0..n])
}
