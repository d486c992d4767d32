#![tactic(auto)]
// Nothing runs here: document 02, Job 7, on the abstract machine of every accepted sheet. Laws in specs/.
