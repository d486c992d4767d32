#![tactic(auto)]
// Nothing runs here: verdicts of sets within tolerance lie no further apart than drift tells, over the calls' own bytes. Laws in specs/.
