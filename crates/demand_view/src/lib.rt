#![tactic(auto)]
// The machine's memory and the network: what a memory holds, and that firing on bytes is firing on links. Laws in specs/. No function stands here.
