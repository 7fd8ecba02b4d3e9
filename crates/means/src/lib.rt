#![tactic(auto)]

// What the rules' words mean: theory only, in proofs/.
