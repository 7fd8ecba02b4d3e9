#![tactic(auto)]

// However a recording is cut, the judge answers by the rules: theory only, in proofs/.
