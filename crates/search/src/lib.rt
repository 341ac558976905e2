// Search: what a start leads to, found by a queue, as far as it is not too much. The definitions stand in specs/ and their laws in proofs/.
#![tactic(auto)]
