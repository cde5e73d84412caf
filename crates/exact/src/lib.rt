// The exact numbers behind floats. This crate has no code of its own: specs/ defines the exact
// value of a float in whole multiples of the format's smallest value and rounding as a function
// on whole numbers, and proofs/ has their laws, which the crates above cite.
#![tactic(auto)]
