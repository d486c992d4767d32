#![tactic(auto)]
// Demand 1 and the refusals of every call: which a call can give, in which order, and what a refused call hands back. Laws in specs/. No function stands here.
