#![tactic(auto)]

// What the program prints is the rules' line: theory only, in proofs/.
