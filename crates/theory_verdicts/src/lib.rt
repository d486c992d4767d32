#![tactic(auto)]
// Demand 3 on the abstract machine of every accepted sheet. Laws in specs/. No function stands here.
