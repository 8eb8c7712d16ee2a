#![tactic(auto)]

// Definitions and theorems alone: specs/ and proofs/.
