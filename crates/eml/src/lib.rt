// The calls of the static library, for C and Rust: plain numbers and slices only, and nothing asked of the caller. Each does what the
// function behind it is proved to do. A call that can refuse returns the refusal's number, or 0, and a refusal writes nothing.
#![tactic(auto)]

mod answers;
pub mod canonical;
pub mod deciding;
pub mod domains;
pub mod intervals;
pub mod mathematics;
pub mod narrowing;
pub mod normal_form;
pub mod points;
pub mod reading;
pub mod solving;
pub mod tuning;
