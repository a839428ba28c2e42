//! The calls on two traces: where they differ, and the rest of the longer.
ghost use Rattle.std.specs.Prelude.{◌≡◌};
ghost use Rattle.compare.specs.Comparing.{compare_row};
ghost use Rattle.hsc.specs.Calls.{compare_status, compare_count, rest_number, rest_part};

use compare::compare;
use compare::rest::{longer, rest};
use refusal::status_of;

/// Writes the places where the traces differ into the row, and their number into count. A refusal leaves both as they were.
pub fn hsc_compare(first: &[u8], second: &[u8], row: &mut [u32], count: &mut u32) -> u64
    ensures status { result ≡ compare_status first.now second.now row.old }
    ensures row { row.new ≡ compare_row first.now second.now row.old }
    ensures count { count.new ≡ compare_count first.now second.now row.old count.old }
{
    match compare(first, second, row) {
        Ok(n) => {
            *count = n as u32;
            0
        }
        Err(refusal) => status_of(Err(refusal)),
    }
}

/// Tells the rest of the longer trace: which trace it is, and in part the place of the rest's first byte there and its length.
pub fn hsc_rest<'a>(first: &'a [u8], second: &'a [u8], part: &mut [u64; 2]) -> u32
    ensures trace { result ≡ rest_number first.now second.now }
    ensures part { part.new ≡ rest_part first.now second.now }
{
    let place = first.len().min(second.len());
    *part = [place as u64, rest(first, second).len() as u64];
    longer(first.len(), second.len()).number() as u32
}
