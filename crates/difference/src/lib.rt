//! Two parts of bytes compared up to the first place where they differ. Blocks are compared whole,
//! so that the compiler compares their bytes at once; the byte is looked for in the first block
//! that differs.
//! A block is asked by its place, and not cut out first: its contract is of the whole parts.
#![tactic(auto)]

ghost use Rattle.std.specs.Prelude.{◌≡◌, ◌+◌, ◌≤◌, min, length};
ghost use Rattle.word.specs.Part.{part};
ghost use Rattle.word.specs.Same.{same_bytes};
ghost use Rattle.difference.specs.FirstDifference.{first_difference};

use word::parts::same;

// The bytes of a block: a line of the cache, by four of the registers that every x86-64 machine
// has. It is the widest that a snapshot has whole, and the narrowest that the compiler compares
// within mending's own loop.
const BLOCK_SIZE: usize = 64;

// Whether the blocks of this size from byte at on are the same.
#[tactic(auto, unfolding(word::specs::Part::part))]
fn same_block(first: &[u8], second: &[u8], at: usize, size: usize) -> bool
    requires { (at + size ≤ length first.now) × (at + size ≤ length second.now) }
    ensures { result ≡ same_bytes (part first.now at size) (part second.now at size) }
{
    same(&first[at..at + size], &second[at..at + size])
}

// The first difference where it is before byte end, else end. None is before byte from.
fn scan(first: &[u8], second: &[u8], from: usize, end: usize) -> usize
    requires within { (from ≤ end) × (end ≤ length first.now) × (end ≤ length second.now) }
    requires same_before { from ≤ first_difference first.now second.now }
    ensures { result ≡ min end (first_difference first.now second.now) }
{
    for i in from..end {
        if first[i] != second[i] {
            return i;
        }
    }
    end
}

/// The first place where the two differ; the shorter's length if there is none within it.
pub fn first_difference(first: &[u8], second: &[u8]) -> usize
    ensures { result ≡ first_difference first.now second.now }
{
    let n = first.len().min(second.len());
    let blocks = n / BLOCK_SIZE;
    for block in 0..blocks {
        let at = block * BLOCK_SIZE;
        if !same_block(first, second, at, BLOCK_SIZE) {
            return scan(first, second, at, at + BLOCK_SIZE);
        }
    }
    scan(first, second, blocks * BLOCK_SIZE, n)
}
