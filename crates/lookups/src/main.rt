// Prints how many sets determinizing compares in its look-ups: on the chain of 255 states, where they are at most 4,096, and on a pattern with 255 sets that all start at the same place.
// What counts is the code of every determinization.
#![tactic(auto)]

ghost use Rattle.std.specs.Prelude.{◌≡◌, ◌+◌, ◌*◌, ◌≤◌, [], ◌∷◌, ◌++◌, length, take};
ghost use Rattle.stores.specs.Written.{Written};
ghost use Rattle.lookups.specs.Lookups.{links, chain, number, to_state, to_set, to_sets, colliding};

// Standard output.
const STDOUT: i32 = 1;

// Writes what a sheet has ahead of its records: the start 0, the number n of states, their accept words and the number m of records; answers the place behind.
fn put_front(sheet: &mut [u32], n: u32, accepts: &[u32], m: u32) -> usize
    requires { 4 + length accepts.now ≤ length sheet.old }
    ensures { Written sheet.old 0 (1 ∷ 0 ∷ n ∷ accepts.now ++ m ∷ []) sheet.new result }
{
    let mut end = output::put_start(sheet, 0, n);
    end = stores::put_all(sheet, end, accepts);
    stores::put(sheet, end, m)
}

// Stores m records, of which each leads a state to the next by the range (0, 0), from state 0 on; answers the place behind.
fn put_links(sheet: &mut [u32], at: usize, m: u32) -> usize
    requires { at + 5 * m ≤ length sheet.old }
    ensures { Written sheet.old at (links 0 m) sheet.new result }
{
    let mut end = at;
    for i in 0..m {
        end = output::put_record(sheet, end, i, 1, 0, 0, i + 1);
    }
    end
}

// Writes the sheet of the chain of 255 states; answers its length.
fn chain(sheet: &mut [u32]) -> usize
    requires { 1529 ≤ length sheet.old }
    ensures made { take result sheet.new ≡ chain 254 }
    ensures long { result ≡ 1529 }
{
    let accepts = [0u32; 255];
    let end = put_front(sheet, 255, &accepts, 254);
    put_links(sheet, end, 254)
}

// The number of set k.
fn number(k: u8) -> u64
    ensures { result ≡ number k }
{
    let power = 1u64 << (14 + k / 8);
    1018 * (power / 1018 + (k % 8) as u64) + 1528
}

// Stores the record that leads state 0 to state q by the range (k, k) where the digit is 1; answers the place behind.
fn put_state(sheet: &mut [u32], at: usize, k: u32, q: u32, digit: u64) -> usize
    requires { at + length (to_state k q digit) ≤ length sheet.old }
    ensures { Written sheet.old at (to_state k q digit) sheet.new result }
{
    if digit == 1 {
        return output::put_record(sheet, at, 0, 1, k, k, q);
    }
    at
}

// Stores the records that lead state 0 to the states of set k; answers the place behind.
fn put_set(sheet: &mut [u32], at: usize, k: u8) -> usize
    requires { at + length (to_set k) ≤ length sheet.old }
    ensures { Written sheet.old at (to_set k) sheet.new result }
{
    let symbol = k as u32;
    let mut left = number(k);
    let mut end = at;
    for q in 0..64 {
        end = put_state(sheet, end, symbol, q, left % 2);
        left /= 2;
    }
    end
}

// Stores the records that lead state 0 to the states of the sets 1, 2 and so on to 254; answers the place behind.
fn put_sets(sheet: &mut [u32], at: usize) -> usize
    requires { at + length (to_sets 1 254) ≤ length sheet.old }
    ensures { Written sheet.old at (to_sets 1 254) sheet.new result }
{
    let mut end = at;
    for k in 1..255 {
        end = put_set(sheet, end, k);
    }
    end
}

// Writes the sheet of the colliding sets; answers its length.
fn colliding(sheet: &mut [u32]) -> usize
    requires { 9078 ≤ length sheet.old }
    ensures made { take result sheet.new ≡ colliding }
    ensures long { result ≡ 9078 }
{
    let accepts = [0u32; 64];
    let end = put_front(sheet, 64, &accepts, 1802);
    put_sets(sheet, end)
}

// How many states a determinization has, 0 where it is refused, and how many sets were compared for it.
#[derive(Drop)]
struct Counted {
    states: usize,
    compared: u64,
}

// Determinizes a sheet over all symbols. Contracts leave the sum of the compared sets free.
fn count(sheet: &[u32]) -> Counted {
    let mut out = [0u32; 10500];
    let mut compared: u64 = 0;
    let Ok(()) = sheets::check(sheet) else {
        return Counted {
            states: 0,
            compared,
        };
    };
    let made = determinize::determinize_counted(sheet, 0, 4294967295, &mut out, &mut compared);
    let states = match made {
        Ok(sheet) => sheet.states,
        Err(_) => 0,
    };
    Counted { states, compared }
}

fn say(what: &[u8], count: Counted) {
    io::write_all(STDOUT, what);
    io::print_decimal(STDOUT, count.states as u64);
    io::write_all(STDOUT, b" states, ");
    io::print_decimal(STDOUT, count.compared);
    io::write_all(STDOUT, b" sets compared");
    if count.compared <= 4096 {
        io::write_all(STDOUT, b", at most 4096\n");
    } else {
        io::write_all(STDOUT, b", over 4096\n");
    }
}

fn main() {
    let mut sheet = [0u32; 10500];
    let linked = chain(&mut sheet);
    say(b"chain of 255 states: ", count(&sheet[0..linked]));
    let led = colliding(&mut sheet);
    say(b"255 sets that start at one place: ", count(&sheet[0..led]));
}
