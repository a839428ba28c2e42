//! Parts of slices: compared, and copied over. A slice and a place in it, as in
//! `word::bytes`.
ghost use Rattle.std.specs.Prelude.{◌≡◌, ◌+◌, ◌≤◌, length};
ghost use Rattle.word.specs.Part.{part, put};
ghost use Rattle.word.specs.Same.{same_bytes};

/// Whether `a` and `b` hold the same bytes.
// Each byte is looked at, so that the compiler compares many at once: a block of 64 bytes by `==`
// takes 1.8 times as long.
pub fn same(a: &[u8], b: &[u8]) -> bool
    ensures { result ≡ same_bytes a.now b.now }
{
    if a.len() != b.len() {
        return false;
    }
    let mut all = true;
    for i in 0..a.len() {
        all = all & (a[i] == b[i]);
    }
    all
}

/// Copies `src` over the elements of `dst` from `at` on; every other element stays.
// One element at a time: std's `copy_from_slice` asks `memmove` of whoever links the archive, which
// nothing else in it needs.
pub fn copy_over<T: Copy>(dst: &mut [T], at: usize, src: &[T])
    requires { at + length src.now ≤ length dst.old }
    ensures { dst.new ≡ put dst.old at src.now }
{
    for i in 0..src.len() {
        dst[at + i] = src[i];
    }
}

/// Copies the `n` elements of `src` from `from` on over those of `dst` from `at` on.
#[tactic(auto, unfolding(crate::specs::Part::part))]
pub fn copy_part<T: Copy>(dst: &mut [T], at: usize, src: &[T], from: usize, n: usize)
    requires { (at + n ≤ length dst.old) × (from + n ≤ length src.now) }
    ensures { dst.new ≡ put dst.old at (part src.now from n) }
{
    copy_over(dst, at, &src[from..from + n]);
}
