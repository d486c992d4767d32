#![tactic(auto)]
// The example sheets of document 01, as text: specs/Sheets. No functions.
