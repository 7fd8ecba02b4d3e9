#![tactic(auto)]

// That the state as edges is a summary of the recording, and what it says is what the rules say: theory only, in proofs/.
