#![tactic(auto)]
// The machine with tags over lists of calls: definitions and laws in specs/, no functions.
