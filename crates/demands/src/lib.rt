// What the library owes, document 01's three demands, stated and proved over the promises of its functions: no function.

#![tactic(auto)]
