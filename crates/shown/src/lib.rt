#![tactic(auto)]

// Definitions and laws alone: specs/ and proofs/.
