// The starred samples of document 01: the definitions give them, as one conjunction in proofs/Starred.antt.
#![tactic(auto)]
