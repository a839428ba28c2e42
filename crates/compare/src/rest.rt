//! The unread rest of the longer of two traces.
ghost use Rattle.std.specs.Prelude.{◌≡◌};
ghost use Rattle.compare.specs.Rest.{longer, choose, past, rest_trace, rest_place, rest_of};

use refusal::Trace;

/// The longer of two lengths; of equal ones the first.
#[tactic(auto, unfolding(crate::specs::Rest::longer))]
pub fn longer(first: usize, second: usize) -> Trace
    ensures { result ≡ longer first second }
{
    if first < second {
        Trace::Second
    } else {
        Trace::First
    }
}

/// The bytes of the longer trace past the shorter's length, as a part of that trace; of two of one
/// length, the empty end of the first.
pub fn rest<'a>(first: &'a [u8], second: &'a [u8]) -> &'a [u8]
    ensures bytes { result.now ≡ rest_of first.now second.now }
    ensures place { result.ref_ptr ≡ past (choose (rest_trace first.now second.now) first.entry.ref_ptr second.entry.ref_ptr)
        (rest_place first.now second.now) }
{
    match longer(first.len(), second.len()) {
        Trace::First => &first[second.len()..],
        Trace::Second => &second[first.len()..],
    }
}
