#![tactic(auto)]
// No firing on real memory computes on a wrong kind, and every result taken is of its kinds. Laws in specs/. No function stands here.
