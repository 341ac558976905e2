// Prints document 01's sample on limits: the fault of sheets with the most states and transitions, and with one more.
#![tactic(auto)]

ghost use Rattle.std.specs.Prelude.{◌≡◌, ◌+◌, ◌*◌, ◌≤◌, ◌∷◌, length};
ghost use Rattle.std.proofs.lemmas.List.Edits.{sets};
ghost use Rattle.sheets.specs.Fault.{fault};
ghost use Rattle.limits.specs.Limits.{loops, loop_sheet};

// Standard output.
const STDOUT: i32 = 1;

// Stores the count m and m records from state 0 to state 0, whose ranges are (0, 0), (1, 1) and so on; answers the place behind.
fn put_records(sheet: &mut [u32], at: usize, m: u32) -> usize
    requires { at + 1 + 5 * m ≤ length sheet.old }
    ensures stored { sheet.new ≡ sets sheet.old at (m ∷ loops 0 m) }
    ensures behind { result ≡ at + 1 + 5 * m }
{
    let mut end = stores::put(sheet, at, m);
    for i in 0..m {
        end = output::put_record(sheet, end, 0, 1, i, i, 0);
    }
    end
}

// The number of the fault of a sheet with n states, none of which accepts, and m transitions, or 0.
fn fault(n: u32, m: u32) -> u32
    requires { (n ≤ 257) × (m ≤ 2049) }
    ensures { result ≡ fault (loop_sheet n m) }
{
    let mut sheet = [0u32; 10506];
    output::put_start(&mut sheet, 0, n);
    let end = put_records(&mut sheet, n as usize + 3, m);
    match sheets::check(&sheet[0..end]) {
        Ok(()) => 0,
        Err(r) => refusal::input_number(r),
    }
}

fn say(count: u32, what: &[u8], fault: u32) {
    io::print_decimal(STDOUT, count as u64);
    io::write_all(STDOUT, what);
    io::print_decimal(STDOUT, fault as u64);
    io::write_all(STDOUT, b"\n");
}

fn main() {
    say(256, b" states: ", fault(256, 0));
    say(257, b" states: ", fault(257, 0));
    say(2048, b" transitions: ", fault(1, 2048));
    say(2049, b" transitions: ", fault(1, 2049));
}
