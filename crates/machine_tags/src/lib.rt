#![tactic(auto)]
// The machine with tags: definitions and laws in specs/, no functions.
