//! Crate `counter`: the rows of document 01's bench table that are run, and not proved, and those of document 02, request 6. Settings by
//! what a row names, the rest good.
use super::words::verdict;
use counter::flag::Flag;
use counter::rules::Rule;
use counter::state::{Counter, Settings};

/// A row of the bench table.
pub fn settings(pfn: i16, mode: i16, hip: i32, lop: i32, ovf: i32, unf: i32) -> Settings {
    Settings {
        pfn,
        mode,
        hip,
        lop,
        ovf,
        unf,
        omb: 0,
        hpo: 0,
        lpo: 0,
    }
}

// The same settings with a mask.
fn masked(s: Settings, omb: u16) -> Settings {
    Settings { omb, ..s }
}

fn print_error(rt: &impl Print, name: &str, broken: u16) {
    if broken == 0 {
        let _ = print!(rt; "{name} passes");
    } else {
        let _ = print!(rt; "{name} gives {broken}");
    }
}

// ER after a check: the number of the rule that it found broken, 0 if it found none.
fn er_of(checked: Result<(), Rule>) -> u16 {
    match checked {
        Ok(()) => 0,
        Err(rule) => u16::from(rule),
    }
}

// One load: its name, and the number of the rule that it should break, 0 for none.
fn load(rt: &impl Print, name: &str, s: Settings, expected: u16) {
    let broken = er_of(s.check());
    print_error(rt, name, broken);
    let _ = println!(rt; " {}", verdict(broken == expected));
}

// One preset load of these settings over good ones with HIP 3: the staged HIP should be active after it exactly if no rule is broken.
fn preset_load(rt: &impl Print, name: &str, s: Settings, expected: u16) {
    let mut c = Counter::fresh();
    c.staged = s;
    c.active = settings(3, 2, 3, -2, 5, -3);
    c.set(Flag::Loaded);
    c.step(6, 0, 0);
    print_error(rt, name, c.er);
    let loaded = c.active.hip == s.hip;
    let ok = c.er == expected && loaded == (expected == 0) && c.active.omb == 0;
    let _ = println!(rt; " {}", verdict(ok));
}

pub fn run(rt: &impl Print) {
    load(rt, "PFN 2", settings(2, 2, 4, -2, 5, -3), 1);
    load(rt, "PFN 256", settings(256, 2, 4, -2, 5, -3), 1);
    load(rt, "PFN 3", settings(3, 2, 4, -2, 5, -3), 0);
    load(rt, "PFN 255", settings(255, 2, 4, -2, 5, -3), 0);
    load(rt, "PFN 2, MOD 8", settings(2, 8, 4, -2, 5, -3), 1);
    load(rt, "mode 2, HIP = LOP", settings(3, 2, 4, 4, 5, -3), 3);
    load(rt, "HIP = OVF", settings(3, 2, 5, -2, 5, -3), 0);
    load(rt, "LOP one below UNF", settings(3, 2, 4, -4, 5, -3), 5);
    load(
        rt,
        "OMB 0fff",
        masked(settings(3, 2, 4, -2, 5, -3), 0x0fff),
        0,
    );
    load(
        rt,
        "OMB 1000",
        masked(settings(3, 2, 4, -2, 5, -3), 0x1000),
        6,
    );
    load(
        rt,
        "OMB 1000, LOP one below UNF",
        masked(settings(3, 2, 4, -4, 5, -3), 0x1000),
        5,
    );
    preset_load(
        rt,
        "preset load, staged OMB f000",
        masked(settings(3, 2, 4, -2, 5, -3), 0xf000),
        0,
    );
    preset_load(
        rt,
        "preset load, staged OMB f000, LOP one below UNF",
        masked(settings(3, 2, 4, -4, 5, -3), 0xf000),
        5,
    );
}
