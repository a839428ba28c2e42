//! The refusals of document 01's table and of document 02, and the status that C is given.
#![tactic(auto)]

ghost use Rattle.std.specs.Prelude.{◌≡◌, ◌-◌, ◌^◌, min};
ghost use Rattle.refusal.specs.Refusals.{trace_number, number_of, trace_of, place_of};
ghost use Rattle.refusal.specs.Refusals.{answer_of, status_of, Placed};

/// One of two traces that are lent side by side.
#[derive(Clone, Copy, Debug, PartialEq, Eq)]
pub enum Trace {
    First,
    Second,
}

impl Trace {
    /// The number that stands for the trace in a status.
    pub fn number(self) -> u64
        ensures { result ≡ trace_number self }
    {
        match self {
            Trace::First => 1,
            Trace::Second => 2,
        }
    }
}

/// Why a call did nothing, in the table's order. A place counts events or snapshots from 0; it
/// stands with those that have one, and a trace with the one that names it.
#[derive(Clone, Copy, Debug, PartialEq, Eq)]
pub enum Refusal {
    Short,
    Limits,
    Offsets,
    Length,
    Event(usize),
    Snapshot(usize),
    Patch,
    PatchEvent(usize),
    Size,
    TraceEvent(Trace, usize),
    Row,
}

impl Refusal {
    /// The number in the table.
    pub fn number(self) -> u64
        ensures { result ≡ number_of self }
    {
        match self {
            Refusal::Short => 1,
            Refusal::Limits => 2,
            Refusal::Offsets => 3,
            Refusal::Length => 4,
            Refusal::Event(_) | Refusal::TraceEvent(_, _) => 5,
            Refusal::Snapshot(_) => 6,
            Refusal::Patch => 7,
            Refusal::PatchEvent(_) => 8,
            Refusal::Size => 9,
            Refusal::Row => 12,
        }
    }

    /// The number of the trace that is named, and 0 where none is.
    pub fn trace(self) -> u64
        ensures { result ≡ trace_of self }
    {
        match self {
            Refusal::TraceEvent(trace, _) => trace.number(),
            _ => 0,
        }
    }

    /// The place of the event or the snapshot, and 0 where there is none.
    pub fn place(self) -> u64
        ensures { result ≡ place_of self }
    {
        match self {
            Refusal::Event(i)
            | Refusal::Snapshot(i)
            | Refusal::PatchEvent(i)
            | Refusal::TraceEvent(_, i) => i as u64,
            _ => 0,
        }
    }
}

// The last place that a status has room for.
const LAST_PLACE: usize = 4294967295;

/// A place as a status tells it: one past 2^32 - 1 stands as 2^32 - 1.
pub fn told_place(place: usize) -> usize
    ensures { result ≡ min place (2 ^ 32 - 1) }
{
    place.min(LAST_PLACE)
}

/// The number that C is given for an answer: 0 where nothing is refused, else the refusal's number
/// in bits 0 to 15, the trace that it names in bits 16 to 31 and its place in bits 32 to 63.
pub fn status_of(answer: Result<(), Refusal>) -> u64
    requires { Placed (answer_of answer) }
    ensures { result ≡ status_of (answer_of answer) }
{
    match answer {
        Ok(()) => 0,
        Err(r) => r.number() + r.trace() * 65536 + r.place() * 4294967296,
    }
}
