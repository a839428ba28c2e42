//! Two traces side by side: the places where they differ, into a lent row, and the rest of the longer.
#![tactic(auto)]

ghost use Rattle.std.specs.Prelude.{◌≡◌, length};
ghost use Rattle.refusal.specs.declared.Trace.TheVariants.{First};
ghost use Rattle.refusal.specs.Refusals.{answer_of, given, ◌and_then◌};
ghost use Rattle.compare.specs.Places.{differing, shared};
ghost use Rattle.compare.specs.Comparing.{lengths_verdict, trace_verdict, traces_verdict};
ghost use Rattle.compare.specs.Comparing.{compare_answer, compare_row};

use crate::check::{first_verdict, trace_verdict};
use crate::places::{count_differences, write_differences};
use refusal::{Refusal, Trace};
use snapshot::EVENT_SIZE;

mod check;
mod places;
pub mod rest;

// Lists the n places, of count, where two traces that are not refused differ.
fn list(
    first: &[u8],
    second: &[u8],
    count: usize,
    n: usize,
    row: &mut [u32],
) -> Result<usize, Refusal>
    requires accepted { (traces_verdict first.now second.now ≡ given tt) × (count ≡ shared first.now second.now) }
    requires counted { n ≡ length (differing first.now second.now 0 count) }
    ensures answer { answer_of result ≡ compare_answer first.now second.now (length row.old) }
    ensures row { row.new ≡ compare_row first.now second.now row.old }
{
    if row.len() < n {
        return Err(Refusal::Row);
    }
    write_differences(first, second, count, n, row);
    Ok(n)
}

// Checks the second trace beside the first, which is not refused, counts what differs, and lists it.
fn compare_second(first: &[u8], second: &[u8], row: &mut [u32]) -> Result<usize, Refusal>
    requires { (lengths_verdict first.now second.now and_then trace_verdict First first.now) ≡ given tt }
    ensures answer { answer_of result ≡ compare_answer first.now second.now (length row.old) }
    ensures row { row.new ≡ compare_row first.now second.now row.old }
{
    let count = (first.len() / EVENT_SIZE).min(second.len() / EVENT_SIZE);
    let n = count_differences(first, second, count)?;
    trace_verdict(Trace::Second, second, count)?;
    list(first, second, count, n, row)
}

/// Writes the places within the shorter trace where kind, sub or value differ into the row, rising,
/// and answers how many they are; the row past them stays. Refuses by 9, 5 of the first trace, 5 of
/// the second and then 12, and leaves all of the row.
pub fn compare(first: &[u8], second: &[u8], row: &mut [u32]) -> Result<usize, Refusal>
    ensures answer { answer_of result ≡ compare_answer first.now second.now (length row.old) }
    ensures row { row.new ≡ compare_row first.now second.now row.old }
{
    first_verdict(first, second)?;
    compare_second(first, second, row)
}
