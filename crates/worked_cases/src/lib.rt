#![tactic(auto)]

// The worked cases of document 01 and the limits of its refusals, proved of the definitions.
