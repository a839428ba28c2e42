//! Crate `word`: numbers of 2 and 4 bytes, alone and side by side, masks.
ghost use Rattle.std.specs.Prelude.{◌≡◌, ◌<◌, ◌≤◌};

use std::fmt::Display;
use word::bits;
use word::bytes::LittleEndian;

// What stands around a written number, to see that it stays.
const GUARD: u8 = 170;

pub fn verdict(ok: bool) -> &'static str {
    if ok { "ok" } else { "WRONG" }
}

fn print_bytes(rt: &impl Print, bytes: &[u8]) {
    for b in bytes {
        let _ = print!(rt; " {b:02x}");
    }
}

// A number that should have these bytes, written from byte 1 of six and read back.
fn number<T: LittleEndian + Display + PartialEq + Drop, const N: usize>(
    rt: &impl Print,
    kind: &str,
    number: T,
    bytes: [u8; N],
)
    requires width { T.width ≡ N }
    requires room { N ≤ 4 }
{
    let mut s = [GUARD; 6];
    number.write(&mut s, 1);
    let _ = print!(rt; "{kind} {number}");
    print_bytes(rt, &s[1..N + 1]);
    let written = s[0] == GUARD && s[1..N + 1] == bytes[..] && s[N + 1] == GUARD;
    let _ = println!(rt; " {}", verdict(written && T::read(&s, 1) == number));
}

// A 2-byte, a 4-byte and a 1-byte number side by side, written from byte 1 of nine.
fn row(rt: &impl Print) {
    let mut s = [GUARD; 9];
    65534u16.write(&mut s, 1);
    2147483649u32.write(&mut s, 3);
    s[7] = 7;
    let first = u16::read(&s, 1);
    let second = u32::read(&s, 3);
    let _ = print!(rt; "row 65534 2147483649 7");
    print_bytes(rt, &s[1..8]);
    let same = first == 65534 && second == 2147483649;
    let written = s == [GUARD, 254, 255, 1, 0, 0, 128, 7, GUARD];
    let _ = println!(rt; " {}", verdict(same && written));
}

// A word with bit n set, with it cleared, and whether it has it. What is asked of n is what `bits` asks.
fn one_bit(rt: &impl Print, w: u32, n: u32, set: u32, cleared: u32, has: bool)
    requires { n < 32 }
{
    let on = bits::set(w, n);
    let off = bits::clear(w, n);
    let ok = verdict(on == set && off == cleared && bits::has(w, n) == has);
    let _ = println!(rt; "bit {n} of {w:08x} set {on:08x} cleared {off:08x} {ok}");
}

pub fn run(rt: &impl Print) {
    let signed = [
        (-2147483648, [0, 0, 0, 128]),
        (2147483647, [255, 255, 255, 127]),
        (-1, [255, 255, 255, 255]),
        (-2, [254, 255, 255, 255]),
        (0, [0, 0, 0, 0]),
        (305419896, [120, 86, 52, 18]),
    ];
    for (v, bytes) in signed {
        number::<i32, 4>(rt, "i32", v, bytes);
    }
    let unsigned = [
        (0, [0, 0, 0, 0]),
        (4294967295, [255, 255, 255, 255]),
        (2147483648, [0, 0, 0, 128]),
    ];
    for (v, bytes) in unsigned {
        number::<u32, 4>(rt, "u32", v, bytes);
    }
    let signed = [
        (-32768, [0, 128]),
        (32767, [255, 127]),
        (-1, [255, 255]),
        (0, [0, 0]),
    ];
    for (v, bytes) in signed {
        number::<i16, 2>(rt, "i16", v, bytes);
    }
    for (v, bytes) in [(0, [0, 0]), (65535, [255, 255]), (513, [1, 2])] {
        number::<u16, 2>(rt, "u16", v, bytes);
    }
    row(rt);
    let merges = [
        (13, 15, 2, 15),
        (13, 15, 0, 13),
        (65535, 4660, 43981, 4660),
        (0, 4660, 43981, 43981),
    ];
    for (mask, new, old, expected) in merges {
        let merged = bits::merge(mask, new, old);
        let ok = verdict(merged == expected);
        let _ = println!(rt; "merge {mask:04x} {new:04x} {old:04x} gives {merged:04x} {ok}");
    }
    one_bit(rt, 0, 31, 2147483648, 0, false);
    one_bit(rt, 4294967295, 0, 4294967295, 4294967294, true);
    one_bit(rt, 1920, 8, 1920, 1664, true);
}
