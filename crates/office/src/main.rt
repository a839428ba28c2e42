//! The office program: the line of the image on standard input. Its stored input is document 01's example.
#![tactic(auto)]

fn main(rt: HostRuntime) {
    report::office::run(&rt);
}
