#![tactic(auto)]

// The cases of supervisor requests and SUM (Req 02), proved of the definitions.
