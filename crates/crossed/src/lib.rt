// Demand 3 whole, at the C functions of `ringmatch`: exact equality, and the products of each determinization with the other's complement. It has no code.
#![tactic(auto)]
