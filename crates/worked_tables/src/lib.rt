#![tactic(auto)]

// The cases of files over tables (Req 06), proved of the definitions.
