#![tactic(auto)]
// Nothing runs here: where a formula has no for, nothing can fire and every pushed set is taken, every link of its graph is empty, on the abstract machine. Laws in specs/.
