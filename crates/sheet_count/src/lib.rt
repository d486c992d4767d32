#![tactic(auto)]
// Test 10 of document 01, "over 1,024 operators".
pub mod count;
