#![tactic(auto)]
// Nothing runs here: after how many rounds the oldest verdict is ready, on real memory. Laws in specs/.
