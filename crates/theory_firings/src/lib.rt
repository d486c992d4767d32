#![tactic(auto)]
// Nothing runs here: how often each operator has fired depends on the sheet and the sets alone, on the abstract machine of every accepted sheet. Laws in specs/.
