// The model: automata, words, runs and acceptance after Rabin and Scott 1959, and transitions as records of five words.
// The definitions stand in specs/ and their laws in proofs/.
#![tactic(auto)]
