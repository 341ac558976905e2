// Prints the lines of the program `verdict` for the two samples of document 01 and for inputs at the edges of its rules: the empty word, no
// space between the texts, space after the second, the refusals of what is not two texts, and those of an accepting name that is no state: in the
// second text, in the first, and before a second that is outside the grammar.
#![tactic(auto)]

fn say(input: &[u8]) {
    let mut out = [0u8; 5617];
    let n = verdict_line::line(input, &mut out);
    io::write_all(1, &out[0..n]);
}

fn main() {
    say(
        b"automaton A { init p; p -> q [0, 9]; accepting q; };\nautomaton B { init s; s -> t [0, 4]; s -> u [5, 9]; accepting t, u; };\n",
    );
    say(
        b"automaton A { init p; p -> q [0, 9]; accepting q; };\nautomaton C { init p; p -> q [0, 8]; accepting q; };\n",
    );
    say(
        b"automaton D { init p; accepting p; };automaton E { init p; p -> q [0, 9]; accepting q; };",
    );
    say(b"automaton D { init p; accepting p; }; automaton D { init p; accepting p; };\t\r\n ");
    say(b" automaton D { init p; accepting p; }; automaton D { init p; accepting p; };");
    say(b"automaton D { init p; accepting p; };");
    say(b"automaton D { init p; accepting p; }; automaton D { init p; accepting p; }; D");
    say(b"");
    say(
        b"automaton D { init p; accepting p; }; automaton M { init p; p -> q [0, 9]; accepting q, r; };",
    );
    say(b"automaton M { init p; accepting q; }; automaton D { init p; accepting p; };");
    say(b"automaton M { init p; accepting q; }; automaton D { init p; accepting p; } ;");
}
