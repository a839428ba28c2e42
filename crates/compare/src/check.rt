//! What is refused of two traces: a length, then an illegal event of the first, then one of the second.
ghost use Rattle.std.specs.Prelude.{◌≡◌, ◌≤◌};
ghost use Rattle.refusal.specs.declared.Trace.TheVariants.{First};
ghost use Rattle.refusal.specs.Refusals.{given, answer_of, ◌and_then◌};
ghost use Rattle.image.specs.Editions.{base};
ghost use Rattle.image.specs.Rows.{events_in};
ghost use Rattle.image.specs.Verdicts.{events_verdict};
ghost use Rattle.compare.specs.Comparing.{bad_length, lengths_verdict, trace_verdict};

use image::edition::{Edition, first_illegal};
use image::header::MAX_EVENTS;
use refusal::{Refusal, Trace};
use snapshot::EVENT_SIZE;

// Whether the trace is no row of events, or too long.
fn bad_length(trace: &[u8]) -> bool
    ensures { result ≡ bad_length trace.now }
{
    !(trace.len() % EVENT_SIZE == 0) | (MAX_EVENTS < trace.len() / EVENT_SIZE)
}

// Refusal 9.
#[tactic(auto, unfolding(crate::specs::Comparing::lengths_verdict))]
fn lengths_verdict(first: &[u8], second: &[u8]) -> Result<(), Refusal>
    ensures { answer_of result ≡ lengths_verdict first.now second.now }
{
    if bad_length(first) | bad_length(second) {
        return Err(Refusal::Size);
    }
    Ok(())
}

/// Refuses one of two traces, whose first `count` events are legal, by 5 at its first illegal event.
pub fn trace_verdict(t: Trace, trace: &[u8], count: usize) -> Result<(), Refusal>
    requires { (count ≤ events_in trace.now) × (events_verdict base 5 trace.now 0 count ≡ given tt) }
    ensures { answer_of result ≡ trace_verdict t trace.now }
{
    // The base edition's events: no header tells another.
    let left = trace.len() / EVENT_SIZE - count;
    let i = first_illegal(Edition::Base, trace, count * EVENT_SIZE, left);
    if i < left {
        return Err(Refusal::TraceEvent(t, count + i));
    }
    Ok(())
}

/// Refuses two traces by 9, and then the first of them by 5.
pub fn first_verdict(first: &[u8], second: &[u8]) -> Result<(), Refusal>
    ensures { answer_of result ≡ (lengths_verdict first.now second.now and_then trace_verdict First first.now) }
{
    lengths_verdict(first, second)?;
    trace_verdict(Trace::First, first, 0)
}
