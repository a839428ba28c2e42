//! Crate `counter`: input 0 falls in modes 6 and 7 with the other three inputs and CE in both positions (document 02, request 4).
use super::loads::settings;
use super::words::verdict;
use counter::flag::Flag;
use counter::state::Counter;

// Inputs 1 to 3, as levels.
const B: u8 = 2;

const Z: u8 = 4;

const HOLD: u8 = 8;

// The counter before each sample: at 5 with DIR 1, far from presets and limits.
fn before(mode: i16, ce: bool, levels: u8) -> Counter {
    let mut c = Counter::fresh();
    c.active = settings(3, mode, 50, -50, 60, -60);
    c.acc = 5;
    c.levels = levels;
    c.set(Flag::Loaded);
    c.set(Flag::Dir);
    if ce {
        c.set(Flag::Ce);
    }
    c
}

// The counter after a sample.
fn after(mut c: Counter, new: u8) -> Counter {
    c.step(1, 0, new as i32);
    c
}

// What a sample gave in one mode, from inputs that stay but for input 0: ACC, DIR, and whether both
// are as expected there and from inputs that all change.
#[derive(Clone, Copy, Debug, PartialEq, Eq)]
struct Fall {
    acc: i32,
    dir: bool,
    ok: bool,
}

// ACC should be as expected, and DIR 1 exactly if there was no count down.
fn in_mode(mode: i16, ce: bool, new: u8, expected: i32) -> Fall {
    let alone = after(before(mode, ce, new | 1), new);
    let all = after(before(mode, ce, new ^ 15), new);
    let acc = alone.acc == expected && all.acc == expected;
    let up = expected != 4;
    Fall {
        acc: alone.acc,
        dir: alone.has(Flag::Dir),
        ok: acc && alone.has(Flag::Dir) == up && all.has(Flag::Dir) == up,
    }
}

fn print_position(rt: &impl Print, name: &str, on: bool) {
    let position = if on { "on" } else { "off" };
    let _ = print!(rt; " {name} {position},");
}

fn print_mode(rt: &impl Print, mode: i16, fall: Fall) {
    let _ = print!(rt; " mode {mode} ACC {} DIR {}", fall.acc, u8::from(fall.dir));
}

// One row: the inputs after the fall, CE, and ACC in mode 6 and in mode 7.
fn falls(rt: &impl Print, new: u8, ce: bool, six: i32, seven: i32) {
    let _ = print!(rt; "A falls,");
    print_position(rt, "B", new & B == B);
    print_position(rt, "Z", new & Z == Z);
    print_position(rt, "hold", new & HOLD == HOLD);
    let first = in_mode(6, ce, new, six);
    let second = in_mode(7, ce, new, seven);
    let _ = print!(rt; " CE {}:", u8::from(ce));
    print_mode(rt, 6, first);
    let _ = print!(rt; ",");
    print_mode(rt, 7, second);
    let _ = println!(rt; " {}", verdict(first.ok && second.ok));
}

pub fn run(rt: &impl Print) {
    // The inputs after the fall; ACC in mode 6 and in mode 7, with CE on and with CE off.
    let rows = [
        (0, [4, 4], [5, 5]),
        (B, [5, 5], [5, 5]),
        (Z, [4, 0], [5, 0]),
        (B | Z, [5, 5], [5, 5]),
        (HOLD, [4, 5], [5, 5]),
        (B | HOLD, [5, 5], [5, 5]),
        (Z | HOLD, [4, 0], [5, 0]),
        (B | Z | HOLD, [5, 5], [5, 5]),
    ];
    for (new, on, off) in rows {
        falls(rt, new, true, on[0], on[1]);
        falls(rt, new, false, off[0], off[1]);
    }
}
