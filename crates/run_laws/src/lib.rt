// Nothing runs here: the crate holds what is proved of a run of calls, striking out and either order.

#![tactic(auto)]
