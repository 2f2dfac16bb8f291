// What a cut of a list into blocks is, and which cut is the best, for any cost of a block: definitions and laws, and no function.

#![tactic(auto)]
