#![tactic(auto)]

// No code: laws that every layer cites. They stand in proofs/.
