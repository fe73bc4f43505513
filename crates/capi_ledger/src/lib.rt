#![tactic(auto)]

// Demand 3 of lists of C calls. No code: the claim is in `specs/CCalls.antt`, its proof in `proofs/Closing.antt`.
