// Test support: reads lines of decimal numbers, takes the lists of a case apart, and counts the cases that agreed.
#![tactic(auto)]

ghost use Rattle.std.specs.Prelude.{IfSome, true, [], ◌≡◌, ◌+◌, ◌^◌, ◌<◌, length, take};
ghost use Rattle.std.proofs.lemmas.List.Edits.{sets};
ghost use Rattle.io.specs.Counts.{IsPrefixLen};
ghost use Rattle.stores.specs.Written.{Written};
ghost use Rattle.replay.specs.Lines.{ended, told, answer, line_at};
ghost use Rattle.replay.specs.Cases.{list_at, is_last, bytes_before};
ghost use Rattle.replay.specs.Counting.{case_at, fresh_tally, begun, Bounded, tallied};

// Standard output.
const STDOUT: i32 = 1;

// Stores v behind n numbers, if digits say it and there is room; answers how many numbers there are then.
fn put(out: &mut [u32], n: usize, begun: bool, v: u32) -> usize
    requires { n + 1 < 2 ^ 64 }
    ensures count { result ≡ n + length (ended begun v []) }
    ensures stored { out.new ≡ sets out.old n (ended begun v []) }
{
    if begun {
        if out.len() <= n {
            return n + 1;
        }
        out[n] = v;
        return n + 1;
    }
    n
}

// How many numbers of a line were stored, and the place behind the line.
#[derive(Drop)]
pub struct Numbers {
    pub count: usize,
    pub to: usize,
}

// Why a line could not be read.
#[derive(Drop)]
pub enum LineFault {
    // There was no room for all of its numbers.
    TooMany,
    // A byte was no digit and no blank, or a number was over 4294967295.
    Malformed,
}

// The answer for a line of n numbers that ends before the place to.
fn tell(room: usize, n: usize, to: usize) -> Result<Numbers, LineFault>
    ensures { result ≡ told room n to }
{
    if room < n {
        return Err(LineFault::TooMany);
    }
    Ok(Numbers { count: n, to })
}

// Stores the numbers of the line at the place at, as many as there is room for.
pub fn read_line(text: &[u8], at: usize, out: &mut [u32]) -> Result<Numbers, LineFault>
    ensures answer { result ≡ answer (length out.old) at (line_at text.now at) }
    ensures stored { out.new ≡ sets out.old 0 (line_at text.now at).numbers }
{
    let mut n: usize = 0;
    let mut begun = false;
    let mut v: u32 = 0;
    for i in at..text.len() {
        let b = text[i];
        if b == 10 {
            let count = put(out, n, begun, v);
            return tell(out.len(), count, i + 1);
        }
        if b == 32 {
            n = put(out, n, begun, v);
            begun = false;
            v = 0;
        } else {
            if !decimal::is_digit(b) {
                return Err(LineFault::Malformed);
            }
            let w = decimal::with_digit(v as u64, b);
            if 4294967295 < w {
                return Err(LineFault::Malformed);
            }
            begun = true;
            v = w as u32;
        }
    }
    let count = put(out, n, begun, v);
    tell(out.len(), count, at.max(text.len()))
}

// Stores the numbers of the case at the place at; None where it can't be read.
#[tactic(auto, using(crate::proofs::Counting::case_read))]
pub fn read_case(text: &[u8], at: usize, out: &mut [u32]) -> Option<Numbers>
    ensures within { IfSome result (λ l. IsPrefixLen l.count out.new) }
    ensures case { result ≡ case_at (length out.old) text.now at }
    ensures stored { out.new ≡ sets out.old 0 (line_at text.now at).numbers }
{
    read_line(text, at, out).ok()
}

// The list at the place at of a case: its length stands there, and its elements behind. Empty where the case is too short.
pub fn list(case: &[u32], at: usize) -> &[u32]
    ensures { result.now ≡ list_at case.now at }
{
    if case.len() <= at {
        return &case[..0];
    }
    let n = case[at] as usize;
    let first = at + 1;
    if case.len() - first < n {
        return &case[..0];
    }
    &case[first..first + n]
}

// Whether x is the last number of a case and stands at the place at.
pub fn is_last(case: &[u32], at: usize, x: u32) -> bool
    ensures { result ≡ is_last case.now at x }
{
    if case.len() <= at {
        return false;
    }
    if at + 1 < case.len() {
        return false;
    }
    case[at] == x
}

// Whether two lists are the same.
pub fn same(a: &[u32], b: &[u32]) -> bool
    ensures { (result ≡ true → a.now ≡ b.now) × (a.now ≡ b.now → result ≡ true) }
{
    a == b
}

// Stores the elements of a list as bytes, up to the first that is over 255 or has no room; answers how many were stored.
pub fn bytes(list: &[u32], out: &mut [u8]) -> usize
    ensures within { IsPrefixLen result out.new }
    ensures stored { Written out.old 0 (take result list.now) out.new result }
    ensures count { result ≡ bytes_before (take (length out.old) list.now) }
{
    for (i, x) in list.iter().enumerate() {
        if out.len() <= i {
            return i;
        }
        if 255 < *x {
            return i;
        }
        out[i] = *x as u8;
    }
    list.len()
}

// How many cases are left, where the next one begins, and how many before it agreed and differed.
#[derive(Drop)]
pub struct Tally {
    pub left: u32,
    pub at: usize,
    pub agreed: u64,
    pub differed: u64,
}

impl Tally {
    // No case is counted yet.
    fn fresh(left: u32, at: usize) -> Tally
        ensures bounded { Bounded result }
        ensures fresh { result ≡ fresh_tally left at }
    {
        Tally {
            left,
            at,
            agreed: 0,
            differed: 0,
        }
    }

    // The cases that the first line of a list announces.
    pub fn begin(text: &[u8]) -> Tally
        ensures bounded { Bounded result }
        ensures begun { result ≡ begun text.now }
    {
        let mut cases = [0u32; 1];
        let to = match read_case(text, 0, &mut cases) {
            Some(first) => first.to,
            None => 0,
        };
        Tally::fresh(cases[0], to)
    }

    // One case more, before the place to; the number of one that differs is printed.
    pub fn counted(mut self, to: usize, agrees: bool) -> Tally
        requires { (0 < self.left) × Bounded self }
        ensures bounded { Bounded result }
        ensures counted { result ≡ tallied self to agrees }
    {
        self.left -= 1;
        self.at = to;
        if agrees {
            self.agreed += 1;
            return self;
        }
        self.differed += 1;
        io::write_all(STDOUT, b"case ");
        io::print_decimal(STDOUT, self.agreed + self.differed);
        io::write_all(STDOUT, b" differs\n");
        self
    }
}
