//! The text of a line, piece by piece.
ghost use Rattle.std.specs.Prelude.{◌≡◌, [], ◌++◌, ◌+◌, ◌≤◌, ◌<◌, ◌^◌, List, ℕ, length, take};
ghost use Rattle.report.specs.Line.{decimal, signed_decimal, hexadecimal};

use std::marker::Model;

/// How many bytes a line has room for.
pub const ROOM: usize = 160;

/// A line's text so far.
// No heap: an array of the most bytes, and how many of them are the text. No `Display`: see `line`.
#[derive(Drop)]
pub struct Text {
    bytes: [u8; ROOM],
    length: usize,
}

impl Model for Text {
    ghost Value = { List ℕ };

    ghost view = { λ t. take t.length t.bytes };

    ghost invariant = { λ t. t.length ≤ 160 };
}

impl Text {
    /// No text yet.
    pub fn new() -> Self
        ensures { result ≡ [] }
    {
        Text {
            bytes: [0; ROOM],
            length: 0,
        }
    }

    /// Appends a piece.
    pub fn push(&mut self, piece: &[u8])
        requires { length self.old + length piece.now ≤ 160 }
        ensures text { self.new ≡ self.old ++ piece.now }
        ensures grown { length self.new ≡ length self.old + length piece.now }
    {
        let end = self.length + piece.len();
        self.bytes[self.length..end].copy_from_slice(piece);
        self.length = end;
    }

    /// Appends a number in decimal.
    pub fn push_decimal(&mut self, n: u64)
        requires { length self.old + length (decimal n) ≤ 160 }
        ensures text { self.new ≡ self.old ++ decimal n }
        ensures grown { length self.new ≤ length self.old + 20 }
    {
        // No heap: the digits are written into a lent array.
        let mut digits = [0u8; 20];
        let k = io::decimal(n, &mut digits);
        self.push(&digits[..k]);
    }

    /// Appends a signed number in decimal.
    pub fn push_signed(&mut self, v: i32)
        requires { length self.old + length (signed_decimal v) ≤ 160 }
        ensures text { self.new ≡ self.old ++ signed_decimal v }
        ensures grown { length self.new ≤ length self.old + 21 }
    {
        let size = u64::from(v.unsigned_abs());
        if v < 0 {
            self.push(b"-");
            self.push_decimal(size);
        } else {
            self.push_decimal(size);
        }
    }

    /// Appends a number in lower-case hex, in `width` digits that hold it.
    pub fn push_hexadecimal(&mut self, width: usize, n: u64)
        requires digits { (1 ≤ width) × (width ≤ 16) × (n < 16 ^ width) }
        requires room { length self.old + width ≤ 160 }
        ensures text { self.new ≡ self.old ++ hexadecimal width n }
        ensures grown { length self.new ≡ length self.old + width }
    {
        // No heap: the digits are written into a lent array.
        let mut digits = [0u8; 16];
        let k = io::hex(n, width, &mut digits);
        self.push(&digits[..k]);
    }

    /// The text.
    pub fn as_bytes(&self) -> &[u8]
        ensures { result.now ≡ self.now }
    {
        &self.bytes[..self.length]
    }

    /// Writes the text at the front of a buffer that has room for it; answers its length.
    pub fn copy_to(&self, buffer: &mut [u8]) -> usize
        requires { 160 ≤ length buffer.old }
        ensures text { take result buffer.new ≡ self.now }
        ensures within { result ≤ length buffer.new }
    {
        buffer[..self.length].copy_from_slice(&self.bytes[..self.length]);
        self.length
    }
}
