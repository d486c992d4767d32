#![tactic(auto)]
// Push and take on the machine's memory are push and take on the links of the network. Laws in specs/. No function stands here.
