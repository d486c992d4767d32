#![tactic(auto)]
// Nothing runs here: how often each operator has fired depends on the sheet and the sets alone, on real memory. Laws in specs/.
