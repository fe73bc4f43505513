#![tactic(auto)]

// The cases of the six schemes and their limits (Req 03), proved of the definitions.
