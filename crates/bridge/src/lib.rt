// Nothing runs here: the crate holds what the engine's proofs rest on, between an area's words and the rules' book.

#![tactic(auto)]
