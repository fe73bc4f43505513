#![tactic(auto)]

// What a lent buffer has room for, as the routines for C tell it.
