// Members of lists: which elements a list has, and lists without repeats.
//
// This crate has definitions and lemmas alone, which the proofs of several crates speak of: specs/ says what a
// member is, proofs/ what follows for lists that are joined, mapped, filtered or counted. It knows no cell, no word
// and no triple.
#![tactic(auto)]
