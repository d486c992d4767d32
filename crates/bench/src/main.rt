#![tactic(auto)]
// The bench program (document 01, "Program and readings"): formula.txt, kinds.txt and sets.txt of the working directory.
fn main(rt: HostRuntime) {
    session_run::run(&rt, b"formula.txt", b"kinds.txt", b"sets.txt");
}
