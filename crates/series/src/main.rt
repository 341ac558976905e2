// Tests a ring series against a pattern: standard input has the words of a sheet on its first line and the symbols of the series on its
// second, as decimal numbers separated by blanks. Prints `accepted`, `not accepted`, `refused` and the refusal's number, or `unreadable`.
//
// Unreadable is input over 65,536 bytes or over 10,500 numbers on the first line, input with another byte than digits, blanks and the line
// feeds that end the two lines, and a number over 4294967295. The second line may be empty; where it is not, its line feed may be missing.
#![tactic(auto)]

mod tested;

use refusal::InputRefusal;
use tested::TestFault;

// Standard output.
const STDOUT: i32 = 1;

fn say_refusal(r: InputRefusal) {
    io::write_all(STDOUT, b"refused ");
    io::print_decimal(STDOUT, refusal::input_number(r) as u64);
    io::write_all(STDOUT, b"\n");
}

fn main() {
    let mut text = [0u8; 65537];
    let got = io::read_full(0, &mut text);
    match tested::test(&text[..got]) {
        Ok(0) => {
            io::write_all(STDOUT, b"not accepted\n");
        }
        Ok(_) => {
            io::write_all(STDOUT, b"accepted\n");
        }
        Err(TestFault::Refused(r)) => say_refusal(r),
        Err(TestFault::Unreadable) => {
            io::write_all(STDOUT, b"unreadable\n");
        }
    }
}
