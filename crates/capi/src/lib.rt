// All of the routines for C and Rust, one archive: each calls the routine of its name, whose promises it repeats.
#![tactic(auto)]

pub mod domain;
pub mod many;
pub mod reports;
pub mod requests;
