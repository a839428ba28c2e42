//! The office program on an image with an illegal event.
#![tactic(auto)]

fn main(rt: HostRuntime) {
    report::office::run(&rt);
}
