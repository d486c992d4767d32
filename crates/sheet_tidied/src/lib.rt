#![tactic(auto)]
// A sheet without its dead rows (document 02, Job 8): definitions and laws, no functions.
