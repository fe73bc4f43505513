#![tactic(auto)]

// The cases of two windows (Req 05), proved of the definitions.
