#![tactic(auto)]

// Demand 3: lists of calls, and the ledger that their history gives.
