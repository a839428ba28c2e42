//! One count of the accumulator, ACC.
#![tactic(auto)]

ghost use Rattle.std.specs.Prelude.{◌≡◌};
ghost use Rattle.accumulator.specs.Count.{up, down, counted_of};

pub mod cause;

use cause::Cause;

// `up` and `down` take plain numbers, as `up-overflow`, `up-preset` and the two of `down` do.

/// ACC after a count, and the cause that the count raises, if there is one.
#[derive(Clone, Copy, Debug, PartialEq, Eq)]
pub struct Counted {
    pub acc: i32,
    pub cause: Option<Cause>,
}

/// One count up. Past OVF it goes on from UNF, or from 0 in modes 0 and 1 (`single`).
#[tactic(auto, unfolding(crate::specs::Count::up))]
pub fn up(single: bool, acc: i32, hip: i32, ovf: i32, unf: i32) -> Counted
    ensures { counted_of result ≡ up single acc hip ovf unf }
{
    if ovf <= acc {
        let cause = Some(Cause::Overflow);
        if single {
            Counted { acc: 0, cause }
        } else {
            Counted { acc: unf, cause }
        }
    } else {
        let next = acc + 1;
        if next == hip {
            let cause = Some(Cause::HighPreset);
            if single {
                Counted { acc: 0, cause }
            } else {
                Counted { acc: next, cause }
            }
        } else {
            Counted {
                acc: next,
                cause: None,
            }
        }
    }
}

/// One count down. Past UNF it goes on from OVF.
#[tactic(auto, unfolding(crate::specs::Count::down))]
pub fn down(acc: i32, lop: i32, ovf: i32, unf: i32) -> Counted
    ensures { counted_of result ≡ down acc lop ovf unf }
{
    if acc <= unf {
        Counted {
            acc: ovf,
            cause: Some(Cause::Underflow),
        }
    } else {
        let next = acc - 1;
        let cause = if next == lop {
            Some(Cause::LowPreset)
        } else {
            None
        };
        Counted { acc: next, cause }
    }
}
