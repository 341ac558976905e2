// Cases of sheets and of label lists: the number of the fault.
ghost use Rattle.std.specs.Prelude.{◌≡◌};
ghost use Rattle.replay_all.specs.Decided.{sheet_case, labels_case};

// The words as a list, then the fault's number or 0.
pub fn sheet(case: &[u32]) -> bool
    ensures { result ≡ sheet_case case.now }
{
    let words = replay::list(case, 0);
    let end = 1 + words.len();
    match sheets::check(words) {
        Ok(()) => replay::is_last(case, end, 0),
        Err(r) => replay::is_last(case, end, refusal::input_number(r)),
    }
}

// The number of states, the bytes as a list, then the fault's number or 0.
pub fn label_list(case: &[u32]) -> bool
    ensures { result ≡ labels_case case.now }
{
    if case.len() == 0 {
        return false;
    }
    let n = case[0] as usize;
    let list = replay::list(case, 1);
    let mut bytes = [0u8; 1024];
    let k = replay::bytes(list, &mut bytes);
    if k != list.len() {
        return false;
    }
    let end = 2 + list.len();
    match labels::check(n, &bytes[..k]) {
        Ok(()) => replay::is_last(case, end, 0),
        Err(r) => replay::is_last(case, end, refusal::input_number(r)),
    }
}
