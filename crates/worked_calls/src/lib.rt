// Nothing runs here: the worked examples of the rules are computed once more, from schema bytes and on an area's words.

#![tactic(auto)]
