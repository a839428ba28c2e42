//! The places where two traces differ: counted while the second is checked, and written into a row.
//! The two stay two arguments, as they are lent: most of what is asked is asked of one of them.
ghost use Rattle.std.specs.Prelude.{◌≡◌, true, ◌*◌, ◌≤◌, ◌<◌, eqb, length};
ghost use Rattle.word.specs.Part.{part, put};
ghost use Rattle.word.specs.LittleEndian.{number_at};
ghost use Rattle.snapshot.specs.Widths.{event_size};
ghost use Rattle.snapshot.specs.EventBytes.{legal_event};
ghost use Rattle.refusal.specs.declared.Trace.TheVariants.{First, Second};
ghost use Rattle.refusal.specs.Refusals.{answer_of, given, in_trace, ◌and_then◌};
ghost use Rattle.image.specs.Editions.{base};
ghost use Rattle.image.specs.Verdicts.{events_verdict};
ghost use Rattle.compare.specs.Places.{differing, shared};
ghost use Rattle.compare.specs.Comparing.{trace_verdict, traces_verdict};

use refusal::{Refusal, Trace};
use snapshot::EVENT_SIZE;
use snapshot::event::legal_event;
use word::bytes::LittleEndian;

// Whether the events at place i have the same 8 bytes before their stamps: of legal ones, the same kind, sub and value.
fn same_front(first: &[u8], second: &[u8], i: usize) -> bool
    requires { i < shared first.now second.now }
    ensures { result ≡ eqb (number_at first.now (i * event_size) 8) (number_at second.now (i * event_size) 8) }
{
    u64::read(first, i * EVENT_SIZE) == u64::read(second, i * EVENT_SIZE)
}

// Whether event i of the second trace is legal: it is where it has the bytes of the first's, which is.
fn legal_beside(first: &[u8], second: &[u8], i: usize) -> bool
    requires { (i < shared first.now second.now) × (legal_event (part first.now (i * event_size) event_size) ≡ true) }
    ensures { result ≡ legal_event (part second.now (i * event_size) event_size) }
{
    if same_front(first, second, i) {
        return true;
    }
    legal_event(second, i * EVENT_SIZE)
}

/// Counts at how many of the first `count` places two traces differ, or refuses the second by 5 at
/// the first of these events that is illegal; the first trace's are legal.
pub fn count_differences(first: &[u8], second: &[u8], count: usize) -> Result<usize, Refusal>
    requires { (trace_verdict First first.now ≡ given tt) × (count ≤ shared first.now second.now) }
    ensures { answer_of result ≡ (in_trace Second (events_verdict base 5 second.now 0 count)
        and_then given (length (differing first.now second.now 0 count))) }
{
    let mut n = 0;
    for i in 0..count {
        if !legal_beside(first, second, i) {
            return Err(Refusal::TraceEvent(Trace::Second, i));
        }
        if !same_front(first, second, i) {
            n += 1;
        }
    }
    Ok(n)
}

/// Writes the places, of the first `count`, where two traces that are not refused differ, and which
/// are `n`, from the row's start on.
pub fn write_differences(first: &[u8], second: &[u8], count: usize, n: usize, row: &mut [u32])
    requires accepted { (traces_verdict first.now second.now ≡ given tt) × (count ≤ shared first.now second.now) }
    requires counted { (n ≡ length (differing first.now second.now 0 count)) × (n ≤ length row.old) }
    ensures { row.new ≡ put row.old 0 (differing first.now second.now 0 count) }
{
    // It leaves off at the last difference, and not at the last event: so no `for` over the places.
    let mut k = 0;
    let mut i = 0;
    while k < n {
        if !same_front(first, second, i) {
            row[k] = i as u32;
            k += 1;
        }
        i += 1;
    }
}
