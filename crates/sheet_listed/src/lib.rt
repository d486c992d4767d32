#![tactic(auto)]
// The list of all small sheets (document 02, Job 14): definitions and laws, no functions.
