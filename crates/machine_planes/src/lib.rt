#![tactic(auto)]
// The planes of a memory with tags: definitions and laws in specs/, no functions.
