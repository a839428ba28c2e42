//! The office program on no input.
#![tactic(auto)]

fn main(rt: HostRuntime) {
    report::office::run(&rt);
}
