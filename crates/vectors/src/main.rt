//! Runs outside values through the library and prints what it found. The bytes beside a value were worked out by hand from the
//! definitions of little endian and two's complement; `ok` says that writing gives them, that nothing beside them changed, and that
//! reading gives the value back. A load's `ok` says that the rule broken first is that of documents 01 and 02; a sample's, that ACC and DIR
//! are those worked out by hand from document 02's words.
#![tactic(auto)]

mod loads;
mod samples;
mod words;

// What standard output does not take is lost, and what comes after it is tried all the same.
fn main(rt: HostRuntime) {
    words::run(&rt);
    loads::run(&rt);
    samples::run(&rt);
}
