#![tactic(auto)]

// What the tables of worked cases share: rows, and the memory that they are written in.
