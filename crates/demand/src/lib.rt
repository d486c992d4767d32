#![tactic(auto)]
// Demand 3 on real memory: every list of calls of the firmware, what the demand says of it, and its proof. Laws in specs/. No function stands here.
