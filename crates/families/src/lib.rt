// Nothing runs here: the crate holds the theorem that calls on two families of tables may stand in either order.

#![tactic(auto)]
