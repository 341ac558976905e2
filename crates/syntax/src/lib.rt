// The texts of patterns as rules, and that the reader of crate `grammar` takes exactly these. It has no code.
#![tactic(auto)]
