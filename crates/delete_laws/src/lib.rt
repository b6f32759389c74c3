// Nothing runs here: the crate holds the theorem on what one delete can touch.

#![tactic(auto)]
