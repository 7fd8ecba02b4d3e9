#![tactic(auto)]

// No code: the 31 rules as definitions that look back over a recording. They stand in specs/.
