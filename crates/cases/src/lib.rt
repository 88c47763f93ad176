// The cases of the program `vectors`: what a case's bytes are, and a short number for what an answer is.
#![tactic(auto)]

pub mod digest; // digest.rt: a short number for a table, a buffer or a relation
pub mod input; // input.rt: tables, requests and lists out of a case's bytes
