// Whether two patterns accept the same series: standard input has their texts, with optional space between and after. Prints `same` and the
// joins, `differ` and the symbols of a word that exactly one accepts, or `refused` and the refusal's number (document 01, program `verdict`).
#![tactic(auto)]

fn main() {
    let mut input = [0u8; 65537];
    let got = io::read_full(0, &mut input);
    let mut out = [0u8; 5617];
    let n = verdict_line::line(&input[0..got], &mut out);
    io::write_all(1, &out[0..n]);
}
