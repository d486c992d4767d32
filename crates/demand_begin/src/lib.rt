#![tactic(auto)]
// The machine that start leaves: the made graph is sound, a memory in which it stands is valid, and start's memory holds it empty. Laws in specs/. No function stands here.
