//! The office program on an image that ends with a negative ACC.
#![tactic(auto)]

fn main(rt: HostRuntime) {
    report::office::run(&rt);
}
