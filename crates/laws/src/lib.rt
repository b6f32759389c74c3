// Nothing runs here: the crate holds the theorems on the rules.

#![tactic(auto)]
