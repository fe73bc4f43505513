#![tactic(auto)]

// The run claim of the domain's C functions. No code: the claim is in `specs/Runs.antt`, its proof in `proofs/Runs.antt`.
