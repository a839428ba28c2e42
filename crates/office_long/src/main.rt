//! The office program on one byte too many.
#![tactic(auto)]

fn main(rt: HostRuntime) {
    report::office::run(&rt);
}
