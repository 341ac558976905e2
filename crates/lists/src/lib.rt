// Lists: the definitions and laws on tests and lists that the other crates share, in specs/ and proofs/.
#![tactic(auto)]
