// Lemmas on lists and on remainders that the other crates share. It has no code of its own.
#![tactic(auto)]
