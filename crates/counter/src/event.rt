//! What an event asks for, by its kind, sub and value.
ghost use Rattle.std.specs.Prelude.{◌≡◌};
ghost use Rattle.counter.specs.Flags.{bit_of};
ghost use Rattle.counter.specs.Events.{Parsed, takes_bit, takes_zero};

use crate::flag::Flag;

/// What a legal event asks for.
#[derive(Clone, Copy, Debug, PartialEq, Eq)]
pub enum Event {
    Blank,
    Sample(u8),
    StageHip(i32),
    StageLop(i32),
    StageOvf(i32),
    StageUnf(i32),
    StageHpo(u16),
    StageLpo(u16),
    SetPfn(i16),
    SetMode(i16),
    SetOmb(u16),
    SetAs(bool),
    Flag { flag: Flag, level: bool },
    SetAcc(i32),
    LoadPresets,
    RoutineDone,
    EnterRun,
    Outputs(u16),
}

/// A staged write, kind 2.
#[tactic(auto, unfolding(crate::specs::Events::legal, crate::specs::Events::legal_staged))]
#[inline(always)]
fn staged(sub: u8, value: i32) -> Option<Event>
    ensures { Parsed 2 sub value result }
{
    match (sub, value) {
        (1, _) => Some(Event::StageHip(value)),
        (2, _) => Some(Event::StageLop(value)),
        (3, _) => Some(Event::StageOvf(value)),
        (4, _) => Some(Event::StageUnf(value)),
        (5, 0..=65535) => Some(Event::StageHpo(value as u16)),
        (6, 0..=65535) => Some(Event::StageLpo(value as u16)),
        _ => None,
    }
}

/// A write of the programming device, kind 3.
#[tactic(auto, unfolding(crate::specs::Events::legal, crate::specs::Events::legal_device))]
#[inline(always)]
fn device(sub: u8, value: i32) -> Option<Event>
    ensures { Parsed 3 sub value result }
{
    match (sub, value) {
        (1, -32768..=32767) => Some(Event::SetPfn(value as i16)),
        (2, -32768..=32767) => Some(Event::SetMode(value as i16)),
        (3, 0..=65535) => Some(Event::SetOmb(value as u16)),
        (4, 0) => Some(Event::SetAs(false)),
        (4, 1) => Some(Event::SetAs(true)),
        _ => None,
    }
}

/// Whether a write may put the flag to 0 or 1.
#[tactic(auto, unfolding(crate::specs::Events::takes_bit))]
fn takes_bit(flag: Flag) -> bool
    ensures { result ≡ takes_bit (bit_of flag) }
{
    match flag {
        Flag::Uie | Flag::Fe | Flag::Ce | Flag::Sp => true,
        Flag::Lpm | Flag::Hpm | Flag::Ufm | Flag::Ofm => true,
        _ => false,
    }
}

/// Whether a write may put the flag to 0 alone.
#[tactic(auto, unfolding(crate::specs::Events::takes_zero))]
fn takes_zero(flag: Flag) -> bool
    ensures { result ≡ takes_zero (bit_of flag) }
{
    match flag {
        Flag::Uil | Flag::Lpi | Flag::Hpi | Flag::Ufi | Flag::Ofi => true,
        Flag::Uf | Flag::Of | Flag::Md => true,
        _ => false,
    }
}

/// A flag write, kind 4; sub is the flag's bit.
#[tactic(auto, unfolding(crate::specs::Events::legal, crate::specs::Events::legal_flag))]
#[inline(always)]
fn flag_write(sub: u8, value: i32) -> Option<Event>
    ensures { Parsed 4 sub value result }
{
    let flag = Flag::try_from(sub).ok()?;
    match value {
        0 if takes_bit(flag) | takes_zero(flag) => Some(Event::Flag { flag, level: false }),
        1 if takes_bit(flag) => Some(Event::Flag { flag, level: true }),
        _ => None,
    }
}

impl Event {
    /// The event of this kind, sub and value, if it is legal. Where nothing else is listed, sub and
    /// value must be 0.
    // Inlined, so that no event is put together for a call that takes it apart again.
    #[tactic(auto, unfolding(crate::specs::Events::legal))]
    #[inline(always)]
    pub fn parse(kind: u8, sub: u8, value: i32) -> Option<Event>
        ensures { Parsed kind sub value result }
    {
        match (kind, sub, value) {
            (0, 0, 0) => Some(Event::Blank),
            (1, 0, 0..=15) => Some(Event::Sample(value as u8)),
            (2, _, _) => staged(sub, value),
            (3, _, _) => device(sub, value),
            (4, _, _) => flag_write(sub, value),
            (5, 0, _) => Some(Event::SetAcc(value)),
            (6, 0, 0) => Some(Event::LoadPresets),
            (7, 0, 0) => Some(Event::RoutineDone),
            (8, 0, 0) => Some(Event::EnterRun),
            (9, 0, 0..=65535) => Some(Event::Outputs(value as u16)),
            _ => None,
        }
    }
}
