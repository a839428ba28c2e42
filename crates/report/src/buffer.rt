//! Text in a lent buffer of any length, appended piece by piece from any place on. A place is how much
//! text stands at the buffer's front.
ghost use Rattle.std.specs.Prelude.{◌++◌, ◌+◌, ◌≤◌, ◌<◌, ◌^◌, length};
ghost use Rattle.report.specs.Appended.{Appended};
ghost use Rattle.report.specs.Line.{decimal, signed_decimal, hexadecimal};

use crate::text::Text;
use word::parts::copy_over;

/// Appends a piece, and answers the next place.
pub fn append(buffer: &mut [u8], at: usize, piece: &[u8]) -> usize
    requires { at + length piece.now ≤ length buffer.old }
    ensures { Appended buffer.old at piece.now buffer.new result }
{
    copy_over(buffer, at, piece);
    at + piece.len()
}

// Appends a word and then a text.
fn append_both(buffer: &mut [u8], at: usize, word: &[u8], text: &[u8]) -> usize
    requires { at + length (word.now ++ text.now) ≤ length buffer.old }
    ensures { Appended buffer.old at (word.now ++ text.now) buffer.new result }
{
    let next = append(buffer, at, word);
    append(buffer, next, text)
}

/// Appends a word and a number in decimal.
pub fn append_decimal(buffer: &mut [u8], at: usize, word: &[u8], n: u64) -> usize
    requires { at + length (word.now ++ decimal n) ≤ length buffer.old }
    ensures { Appended buffer.old at (word.now ++ decimal n) buffer.new result }
{
    let mut number = Text::new();
    number.push_decimal(n);
    append_both(buffer, at, word, number.as_bytes())
}

/// Appends a word and a signed number in decimal.
pub fn append_signed(buffer: &mut [u8], at: usize, word: &[u8], v: i32) -> usize
    requires { at + length (word.now ++ signed_decimal v) ≤ length buffer.old }
    ensures { Appended buffer.old at (word.now ++ signed_decimal v) buffer.new result }
{
    let mut number = Text::new();
    number.push_signed(v);
    append_both(buffer, at, word, number.as_bytes())
}

/// Appends a word and a number in lower-case hex, in `width` digits that hold it.
pub fn append_hex(buffer: &mut [u8], at: usize, word: &[u8], width: usize, n: u64) -> usize
    requires digits { (1 ≤ width) × (width ≤ 16) × (n < 16 ^ width) }
    requires room { at + length (word.now ++ hexadecimal width n) ≤ length buffer.old }
    ensures { Appended buffer.old at (word.now ++ hexadecimal width n) buffer.new result }
{
    let mut number = Text::new();
    number.push_hexadecimal(width, n);
    append_both(buffer, at, word, number.as_bytes())
}
