#![tactic(auto)]
// The links of a formula's graph: each has one taker and one putter, and how many there are. Laws in specs/. No function stands here.
