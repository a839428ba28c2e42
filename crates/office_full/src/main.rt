//! The office program on an image of exactly 65,536 bytes.
#![tactic(auto)]

fn main(rt: HostRuntime) {
    report::office::run(&rt);
}
