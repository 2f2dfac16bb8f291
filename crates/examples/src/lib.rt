// Document 01's worked examples, as one table and one statement: no function.

#![tactic(auto)]
