#![tactic(auto)]
// Nothing runs here: which logs are accepted and refused, in terms of demand 3's lists of calls, on real memory. Laws in specs/.
