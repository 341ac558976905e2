// Replays lists of inputs with the answers of the original Rust, or of `compare` for writing, which the original has not, and prints for each list
// how many cases agreed.
//
// The lists stand in data/ under the names of their kinds, and were made by
// compare --emit sheets --seed 1 --count 200
// compare --emit labels --seed 1 --count 400
// compare --emit accepts --seed 1 --count 400
// compare --emit text --seed 1 --count 400
// compare --emit ranges --seed 1 --count 400
// compare --emit closures --seed 1 --count 400
// compare --emit determinize --seed 1 --count 200
// compare --emit product --seed 1 --count 200
// compare --emit totalize --seed 1 --count 200
// compare --emit complement --seed 1 --count 200
// compare --emit epsilon_eliminate --seed 1 --count 200
// compare --emit is_nfa --seed 1 --count 200
// compare --emit nonempty --seed 1 --count 200
// compare --emit is_equivalent --seed 1 --count 200
// compare --emit is_subautomaton --seed 1 --count 200
// compare --emit parse --seed 1 --count 200
// compare --emit write --seed 1 --count 200
// compare --emit equality --seed 1 --count 200
#![tactic(auto)]

ghost use Rattle.std.specs.Prelude.{◌≡◌, ◌<◌};
ghost use Rattle.io.specs.Counts.{IsPrefixLen};
ghost use Rattle.replay.specs.Counting.{Bounded};
ghost use Rattle.replay_all.specs.Agreement.{Agrees, Counted, Turned};

use replay::Tally;
use std::fs;
use std::io::Read;
use std::rt::Files;

mod acceptance;
mod closures;
mod inputs;
mod operations;
mod questions;
mod symbols;
mod texts;
mod verdicts;

// Standard output.
const STDOUT: i32 = 1;

#[derive(Clone, Copy)]
enum ListKind {
    Sheets,
    Labels,
    Accepts,
    Text,
    Ranges,
    Closures,
    Determinize,
    Product,
    Totalize,
    Complement,
    EpsilonEliminate,
    IsNfa,
    Nonempty,
    IsEquivalent,
    IsSubautomaton,
    Parse,
    Write,
    Equality,
}

// Whether the answer in a case is the one that the port gives.
fn agrees(kind: ListKind, case: &[u32]) -> bool
    ensures { Agrees kind case.now result }
{
    match kind {
        ListKind::Sheets => inputs::sheet(case),
        ListKind::Labels => inputs::label_list(case),
        ListKind::Accepts => acceptance::word(case),
        ListKind::Text => acceptance::text(case),
        ListKind::Ranges => symbols::ranges_of(case),
        ListKind::Closures => closures::of_sheet(case),
        ListKind::Determinize => operations::determinized(case),
        ListKind::Product => operations::intersected(case),
        ListKind::Totalize => operations::totalized(case),
        ListKind::Complement => operations::complemented(case),
        ListKind::EpsilonEliminate => operations::epsilon_eliminated(case),
        ListKind::IsNfa => questions::nfa(case),
        ListKind::Nonempty => questions::nonempty(case),
        ListKind::IsEquivalent => questions::equivalent(case),
        ListKind::IsSubautomaton => questions::subautomaton(case),
        ListKind::Parse => operations::parsed(case),
        ListKind::Write => texts::written(case),
        ListKind::Equality => verdicts::compared(case),
    }
}

// Replays the next case. One that can't be read has no numbers, and its place stays.
#[tactic(auto, using(crate::proofs::Cases::turn_laws))]
fn turn(kind: ListKind, text: &[u8], t: Tally) -> Tally
    requires { (0 < t.left) × Bounded t }
    ensures bounded { Bounded result }
    ensures turned { Turned kind text.now t result }
{
    let mut case = [0u32; 4096];
    let at = t.at;
    match replay::read_case(text, at, &mut case) {
        Some(read) => t.counted(read.to, agrees(kind, &case[..read.count])),
        None => t.counted(at, agrees(kind, &[])),
    }
}

// Replays as many cases as the list announces.
fn replay_list(kind: ListKind, text: &[u8]) -> Tally
    ensures { Counted kind text.now result × (result.left ≡ 0) }
{
    let mut t = Tally::begin(text);
    while 0 < t.left {
        t = turn(kind, text, t);
    }
    t
}

// Prints how many cases agreed and how many differed.
fn print_counts(t: Tally) {
    io::write_all(STDOUT, b"agreed ");
    io::print_decimal(STDOUT, t.agreed);
    io::write_all(STDOUT, b", differed ");
    io::print_decimal(STDOUT, t.differed);
    io::write_all(STDOUT, b"\n");
}

// Reads a file into the room for its bytes, until the room is full or the file ends; answers how many bytes stand there. A read that fails counts as
// the end.
fn read_text(file: &mut impl Read, text: &mut [u8]) -> usize
    ensures { IsPrefixLen result text.new }
{
    let mut got = 0;
    while got < text.len() {
        match file.read(&mut text[got..]) {
            Ok(n) => {
                if n == 0 {
                    return got;
                }
                got += n;
            }
            Err(_) => {
                return got;
            }
        }
    }
    got
}

// Replays the list in a file, and prints its name and the counts. Of a file that can't be opened it prints the name and the reason to standard error.
fn replay_file(rt: &(impl Files + Eprint), kind: ListKind, name: &str) {
    let mut text = io::large_buffer();
    let got = match fs::open(rt, name) {
        Ok(mut file) => read_text(&mut file, &mut text),
        Err(error) => {
            let _ = eprintln!(rt; "{name}: {error}");
            return;
        }
    };
    let t = replay_list(kind, &text[..got]);
    io::write_all(STDOUT, name.as_bytes());
    io::write_all(STDOUT, b": ");
    print_counts(t);
}

fn main(rt: HostRuntime) {
    replay_file(&rt, ListKind::Sheets, "sheets");
    replay_file(&rt, ListKind::Labels, "labels");
    replay_file(&rt, ListKind::Accepts, "accepts");
    replay_file(&rt, ListKind::Text, "text");
    replay_file(&rt, ListKind::Ranges, "ranges");
    replay_file(&rt, ListKind::Closures, "closures");
    replay_file(&rt, ListKind::Determinize, "determinize");
    replay_file(&rt, ListKind::Product, "product");
    replay_file(&rt, ListKind::Totalize, "totalize");
    replay_file(&rt, ListKind::Complement, "complement");
    replay_file(&rt, ListKind::EpsilonEliminate, "epsilon_eliminate");
    replay_file(&rt, ListKind::IsNfa, "is_nfa");
    replay_file(&rt, ListKind::Nonempty, "nonempty");
    replay_file(&rt, ListKind::IsEquivalent, "is_equivalent");
    replay_file(&rt, ListKind::IsSubautomaton, "is_subautomaton");
    replay_file(&rt, ListKind::Parse, "parse");
    replay_file(&rt, ListKind::Write, "write");
    replay_file(&rt, ListKind::Equality, "equality");
}
