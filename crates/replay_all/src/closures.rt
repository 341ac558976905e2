// Cases of closures: a sheet, then the closure of each state as a list.
ghost use Rattle.std.specs.Prelude.{◌*◌, ◌+◌, ◌≤◌, length, ◌≡◌};
ghost use Rattle.labels.specs.Labels.{same_label};
ghost use Rattle.sets.specs.inner.BitSet.{set_at, entries};
ghost use Rattle.sheets.specs.inner.Accepted.{Accepted};
ghost use Rattle.sheets.specs.Sheet.{read};
ghost use Rattle.words.specs.Simulation.{closures};
ghost use Rattle.replay_all.specs.Rows.{are_rows, closures_case};

// Whether row p of the table has the listed members and no others.
fn is_row(rows: &[u64], p: usize, members: &[u32]) -> bool
    requires { 4 * p + 4 ≤ length rows.now }
    ensures { result ≡ same_label members.now (set_at rows.now (4 * p)) }
{
    let mut i: usize = 0;
    for q in 0..256 {
        if sets::has(rows, p, q) {
            if members.len() <= i {
                return false;
            }
            if members[i] as usize != q {
                return false;
            }
            i += 1;
        }
    }
    i == members.len()
}

// Whether the lists of the case from the place at on are the first n rows, and nothing stands behind them.
fn are_rows(rows: &[u64], n: usize, case: &[u32], at: usize) -> bool
    requires { 4 * n ≤ length rows.now }
    ensures { result ≡ are_rows (entries rows.now n) case.now at }
{
    let mut next = at;
    for p in 0..n {
        if case.len() <= next {
            return false;
        }
        let members = replay::list(case, next);
        if !is_row(rows, p, members) {
            return false;
        }
        next = next + 1 + members.len();
    }
    next == case.len()
}

// Whether the case has, behind the accepted sheet, the closures of its states.
fn closures_of(sheet: &[u32], case: &[u32]) -> bool
    requires { Accepted sheet.now }
    ensures { result ≡ are_rows (closures (read sheet.now)) case.now (1 + length sheet.now) }
{
    let mut rows = [0u64; 1024];
    words::state_closures(sheet, &mut rows);
    let n = sheet[2] as usize;
    are_rows(&rows, n, case, 1 + sheet.len())
}

// The sheet, then for each state its closure as a list.
pub fn of_sheet(case: &[u32]) -> bool
    ensures { result ≡ closures_case case.now }
{
    let sheet = replay::list(case, 0);
    match sheets::check(sheet) {
        Ok(()) => closures_of(sheet, case),
        Err(_) => false,
    }
}
