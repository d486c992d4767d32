#![tactic(auto)]
// How far a formula's results can move within tolerances of its inputs: definitions and laws in specs/, no functions.
