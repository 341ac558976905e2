// The public face for other languages: one function for each public call, which the crate ringmatch_c gives to C. The result is 0, or
// the refusal's number, and then nothing else was written.
#![tactic(auto)]

ghost use Rattle.std.specs.Prelude.{◌≡◌, List, ℕ};
ghost use Rattle.output.specs.Made.{output_of};
ghost use Rattle.parser.specs.Parsed.{parsed_of};
ghost use Rattle.refusal.specs.Decision.{decision_of};
ghost use Rattle.refusal.specs.Reply.{reply};
ghost use Rattle.ringmatch.specs.Calls.{accepts_words_reply, accepts_text_reply, accepts_series_reply, is_nfa_reply, reachable_reply, equivalent_reply, subautomaton_reply};
ghost use Rattle.ringmatch.specs.Calls.{determinize_reply, totalize_reply, complement_reply, eliminate_reply, intersection_reply, parse_reply, write_reply, EqualityReply};
ghost use Rattle.ringmatch.specs.Reply.{number_reply, reply_to_number, reply_to_bool, outputs_reply, read_cells, reading_reply, text_reply, verdict_reply, reply_to_verdict};
ghost use Rattle.words.specs.Acceptance.{acceptance_of};
ghost use Rattle.writer.specs.Wrote.{wrote_of};

use equality::Verdict;
use output::Made;
use parser::Parsed;
use refusal::{InputRefusal, Refusal};

// The number of an acceptance's refusal, or 0 with the answer stored.
fn reply_acceptance(r: Result<u32, InputRefusal>, answer: &mut u32) -> u32
    ensures { number_reply result answer.new ≡ reply_to_number answer.old (acceptance_of r) }
{
    match r {
        Ok(k) => {
            *answer = k;
            0
        }
        Err(i) => refusal::input_number(i),
    }
}

// The number of an operation's refusal, or 0 with the lengths of its outputs stored.
fn reply_made(r: Result<Made, Refusal>, words: &mut u64, bytes: &mut u64) -> u32
    ensures { (o l : List ℕ) → outputs_reply result words.new bytes.new o l ≡ reply (record { words = words.old; bytes = bytes.old }) (output_of r o l) }
{
    match r {
        Ok(made) => {
            *words = made.words as u64;
            *bytes = made.bytes as u64;
            0
        }
        Err(i) => refusal::number(i),
    }
}

// The number of the refusal, or 0 with the answer stored: 1 for true, 0 for false.
fn reply_decision(r: Result<bool, InputRefusal>, answer: &mut u32) -> u32
    ensures { number_reply result answer.new ≡ reply_to_bool answer.old (decision_of r) }
{
    match r {
        Ok(b) => {
            *answer = b as u32;
            0
        }
        Err(i) => refusal::input_number(i),
    }
}

// The number of the refusal of a text, or 0 with the bytes read and the lengths of the outputs stored.
fn reply_parsed(
    r: Result<Parsed, Refusal>,
    bytes_read: &mut u64,
    words: &mut u64,
    bytes: &mut u64,
) -> u32
    ensures { (o l : List ℕ) → reading_reply result bytes_read.new words.new bytes.new o l ≡ reply (read_cells bytes_read.old words.old bytes.old) (parsed_of r o l) }
{
    match r {
        Ok(p) => {
            *bytes_read = p.read as u64;
            *words = p.words as u64;
            *bytes = p.bytes as u64;
            0
        }
        Err(i) => refusal::number(i),
    }
}

// The number of the refusal of writing, or 0 with the length of the text stored.
fn reply_wrote(r: Result<usize, Refusal>, bytes: &mut u64) -> u32
    ensures { (o : List ℕ) → text_reply result bytes.new o ≡ reply bytes.old (wrote_of r o) }
{
    match r {
        Ok(n) => {
            *bytes = n as u64;
            0
        }
        Err(i) => refusal::number(i),
    }
}

// The number of a verdict's refusal, or 0 with the verdict stored: same is 1 and number the joins, or same is 0 and number the
// length of the difference word.
fn reply_verdict(r: Verdict, same: &mut u32, number: &mut u64) -> u32
    ensures { (o : List ℕ) → verdict_reply result same.new number.new o ≡ reply_to_verdict same.old number.old r o }
{
    match r {
        Verdict::Same(joins) => {
            *same = 1;
            *number = joins as u64;
            0
        }
        Verdict::Different(n) => {
            *same = 0;
            *number = n as u64;
            0
        }
        Verdict::Refused(i) => refusal::number(i),
    }
}

// Whether a sheet accepts a word of u32 symbols: answer is 1 if so, else 0. Refusals: 1 to 6.
pub fn ringmatch_accepts_words(sheet: &[u32], word: &[u32], answer: &mut u32) -> u32
    ensures { number_reply result answer.new ≡ accepts_words_reply sheet.now word.now answer.old }
{
    reply_acceptance(words::accepts_words(sheet, word), answer)
}

// Whether a sheet accepts a text in UTF-8, as the word of its code points: answer is 1 if so, else 0. Refusals: 1 to 6, then 9.
pub fn ringmatch_accepts_text(sheet: &[u32], text: &[u8], answer: &mut u32) -> u32
    ensures { number_reply result answer.new ≡ accepts_text_reply sheet.now text.now answer.old }
{
    reply_acceptance(words::accepts_text(sheet, text), answer)
}

// Whether a sheet accepts a ring series with an outer mark, 0 for a whole last ring and 1 for an unfinished one, which is left off: answer is 1 if
// so, else 0. Refusals: 1 to 6, then 34.
pub fn ringmatch_accepts_series(sheet: &[u32], series: &[u32], mark: u32, answer: &mut u32) -> u32
    ensures { number_reply result answer.new ≡ accepts_series_reply sheet.now series.now mark answer.old }
{
    reply_acceptance(marked_series::accepts_series(sheet, series, mark), answer)
}

// The determinization of a sheet and its labels D0, D1 and so on: words is the number of words of the sheet, bytes that of the labels.
// Outputs of at least 10,500 words and 16,642 bytes. Refusals: 20, 1 to 6, 21, 22.
pub fn ringmatch_determinize(
    sheet: &[u32],
    out: &mut [u32],
    names: &mut [u8],
    words: &mut u64,
    bytes: &mut u64,
) -> u32
    ensures { outputs_reply result words.new bytes.new out.new names.new ≡ determinize_reply sheet.now out.old names.old words.old bytes.old }
{
    reply_made(determinize::determinize(sheet, out, names), words, bytes)
}

// A sheet with a sink to which each state's holes lead, and its labels with `sink` behind them. Outputs as for `ringmatch_determinize`.
// Refusals: 20, 1 to 6, 10, 21, 22.
pub fn ringmatch_totalize(
    sheet: &[u32],
    labels: &[u8],
    out: &mut [u32],
    names: &mut [u8],
    words: &mut u64,
    bytes: &mut u64,
) -> u32
    ensures { outputs_reply result words.new bytes.new out.new names.new ≡ totalize_reply sheet.now labels.now out.old names.old words.old bytes.old }
{
    reply_made(totality::totalize(sheet, labels, out, names), words, bytes)
}

// A sheet, totalized only if `ringmatch_is_nfa`, with acceptance flipped, and its labels. Outputs as for `ringmatch_determinize`.
// Refusals: 20, 1 to 6, 10, 21, 22.
pub fn ringmatch_complement(
    sheet: &[u32],
    labels: &[u8],
    out: &mut [u32],
    names: &mut [u8],
    words: &mut u64,
    bytes: &mut u64,
) -> u32
    ensures { outputs_reply result words.new bytes.new out.new names.new ≡ complement_reply sheet.now labels.now out.old names.old words.old bytes.old }
{
    reply_made(
        totality::complement(sheet, labels, out, names),
        words,
        bytes,
    )
}

// A sheet without epsilons that accepts the same words, and its labels. Outputs as for `ringmatch_determinize`. Refusals: 20, 1 to 6, 10, 22.
pub fn ringmatch_epsilon_eliminate(
    sheet: &[u32],
    labels: &[u8],
    out: &mut [u32],
    names: &mut [u8],
    words: &mut u64,
    bytes: &mut u64,
) -> u32
    ensures { outputs_reply result words.new bytes.new out.new names.new ≡ eliminate_reply sheet.now labels.now out.old names.old words.old bytes.old }
{
    reply_made(
        epsilon::epsilon_eliminate(sheet, labels, out, names),
        words,
        bytes,
    )
}

// Whether a sheet has an epsilon, an overlap or a hole: answer is 1 if so, else 0. Refusals: 1 to 6.
pub fn ringmatch_is_nfa(sheet: &[u32], answer: &mut u32) -> u32
    ensures { number_reply result answer.new ≡ is_nfa_reply sheet.now answer.old }
{
    reply_decision(nondeterminism::is_nfa(sheet), answer)
}

// Whether a state that accepts is reached from the start: answer is 1 if so, else 0, and then no word is accepted. Refusals: 1 to 6.
pub fn ringmatch_has_reachable_accepting_state(sheet: &[u32], answer: &mut u32) -> u32
    ensures { number_reply result answer.new ≡ reachable_reply sheet.now answer.old }
{
    reply_decision(emptiness::has_reachable_accepting_state(sheet), answer)
}

// Whether two sheets have the same accept words and the same triggers, and so have all pairs of states that equal triggers reach: answer is 1 if
// so, else 0. Without epsilons or overlaps 1 implies equal words. Refusals: 1 to 6 of a, then of b.
pub fn ringmatch_is_equivalent(a: &[u32], b: &[u32], answer: &mut u32) -> u32
    ensures { number_reply result answer.new ≡ equivalent_reply a.now b.now answer.old }
{
    reply_decision(equivalence::is_equivalent(a, b), answer)
}

// Whether the states, accepting states and start of a are those of b by their labels, and each transition of a is covered by one of b between
// equal labels: answer is 1 if so, else 0. Refusals: 1 to 6 of a, then of b, 10 of a_labels, then of b_labels.
pub fn ringmatch_is_subautomaton(
    a: &[u32],
    a_labels: &[u8],
    b: &[u32],
    b_labels: &[u8],
    answer: &mut u32,
) -> u32
    ensures { number_reply result answer.new ≡ subautomaton_reply a.now a_labels.now b.now b_labels.now answer.old }
{
    reply_decision(
        subautomaton::is_subautomaton(a, a_labels, b, b_labels),
        answer,
    )
}

// The product of two sheets and its labels `(0, 1)`. Outputs as for `ringmatch_determinize`. Refusals: 20, 1 to 6 of a, then of b, 21, 7, 22.
pub fn ringmatch_intersection(
    a: &[u32],
    b: &[u32],
    out: &mut [u32],
    names: &mut [u8],
    words: &mut u64,
    bytes: &mut u64,
) -> u32
    ensures { outputs_reply result words.new bytes.new out.new names.new ≡ intersection_reply a.now b.now out.old names.old words.old bytes.old }
{
    reply_made(product::intersection(a, b, out, names), words, bytes)
}

// The pattern at the front of a text: its sheet, its labels, and bytes_read. Outputs as for `ringmatch_determinize`.
// Refusals: 20, 8, 21, 22.
pub fn ringmatch_parse_automaton(
    text: &[u8],
    out: &mut [u32],
    names: &mut [u8],
    bytes_read: &mut u64,
    words: &mut u64,
    bytes: &mut u64,
) -> u32
    ensures { reading_reply result bytes_read.new words.new bytes.new out.new names.new ≡ parse_reply text.now out.old names.old bytes_read.old words.old bytes.old }
{
    reply_parsed(
        parser::parse_automaton(text, out, names),
        bytes_read,
        words,
        bytes,
    )
}

// The text of a sheet and its labels in the grammar of patterns, at the front of text_out, of at least 65,536 bytes: bytes is its length.
// Refusals: 20, 1 to 6, 10, 30, 31, 32.
pub fn ringmatch_write_automaton(
    sheet: &[u32],
    labels: &[u8],
    text_out: &mut [u8],
    bytes: &mut u64,
) -> u32
    ensures { text_reply result bytes.new text_out.new ≡ write_reply sheet.now labels.now text_out.old bytes.old }
{
    reply_wrote(writer::write_automaton(sheet, labels, text_out), bytes)
}

// Whether two sheets accept the same words: same is 1 and number the joins made, or same is 0 and number the length of a word that
// exactly one accepts, which then stands at the front of word, of at least 510 words. Refusals: 20, 1 to 6 of a, then of b, 21 and
// 22 of a, then of b.
pub fn ringmatch_equality(
    a: &[u32],
    b: &[u32],
    word: &mut [u32],
    same: &mut u32,
    number: &mut u64,
) -> u32
    ensures { EqualityReply a.now b.now word.old same.old number.old (verdict_reply result same.new number.new word.new) }
{
    reply_verdict(equality::equality(a, b, word), same, number)
}
