// Nothing runs here: the crate holds how the orphans of each foreign key move by one row write, and how such movements add up.

#![tactic(auto)]
