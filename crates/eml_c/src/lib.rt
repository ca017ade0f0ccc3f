// The calls of the library for C and Rust: each exports the function of `eml` that has its name, with the same clauses.
#![tactic(auto)]

mod canonical;
mod deciding;
mod domains;
mod intervals;
mod mathematics;
mod narrowing;
mod normal_form;
mod points;
mod reading;
mod solving;
mod tuning;
