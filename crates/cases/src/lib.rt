#![tactic(auto)]

// No code: 01's worked examples that are proved. The table stands in specs/, the one statement about it in proofs/.
