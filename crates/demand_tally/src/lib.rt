#![tactic(auto)]
// Nothing runs here: what the record lent to the calls shows after any list of them, on real memory. Laws in specs/.
