// Rising lists, parts of lists, runs of stores and bytes: definitions and laws, and no function.

#![tactic(auto)]
