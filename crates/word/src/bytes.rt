//! Little-endian numbers in a lent slice: read or written at a byte offset. A slice and a place in
//! it, and not the part alone: contracts say `number_at` and `put` of the whole.
ghost use Rattle.std.specs.Prelude.{◌≡◌, ℕ, ◌+◌, ◌<◌, ◌^◌, ◌≤◌, length};
ghost use Rattle.std.specs.Int.{w8, w16, w32, w64};
ghost use Rattle.std.proofs.Common.{Fits, SFits};
ghost use Rattle.word.specs.Part.{put};
ghost use Rattle.word.specs.LittleEndian.{to_bytes, number_at, itself, same-bits-back, same-number-back};
ghost use Rattle.word.specs.TwosComplement.{signed, unsigned, bytes-back_16, bytes-back_32, number-back};

use crate::parts::copy_over;

/// A number that stands in `width` bytes of a slice, the lowest byte first. Its bits are a number
/// from 0 on: the number itself, or a signed number's two's complement.
pub trait LittleEndian: Copy {
    ghost width: { ℕ };

    ghost of_bits: { ℕ → Self };

    ghost bits: { Self → ℕ };

    // Whether a number is in the type's range.
    ghost in_range: { Self → Type 0 };

    /// The number in the bytes from byte `at` on.
    fn read(bytes: &[u8], at: usize) -> Self
        requires { at + width ≤ length bytes.now }
        ensures { result ≡ of_bits (number_at bytes.now at width) };

    /// Writes the number over the bytes from byte `at` on; every other byte stays.
    fn write(self, bytes: &mut [u8], at: usize)
        requires { at + width ≤ length bytes.old }
        ensures { bytes.new ≡ put bytes.old at (to_bytes width (bits self)) };

    // What is read and written back are the same bytes.
    ghost bytes_back: { (n : ℕ) → n < 256 ^ width → bits (of_bits n) ≡ n };

    // What is written and read back is the same number.
    ghost number_back: { (x : Self) → in_range x → of_bits (bits x) ≡ x };
}

impl LittleEndian for u8 {
    ghost width = { 1 };

    ghost of_bits = { itself };

    ghost bits = { itself };

    ghost in_range = { Fits w8 };

    ghost bytes_back = { same-bits-back 1 };

    ghost number_back = { same-number-back w8 };

    fn read(bytes: &[u8], at: usize) -> u8
        requires { at + 1 ≤ length bytes.now }
        ensures { result ≡ number_at bytes.now at 1 }
    {
        bytes[at]
    }

    fn write(self, bytes: &mut [u8], at: usize)
        requires { at + 1 ≤ length bytes.old }
        ensures { bytes.new ≡ put bytes.old at (to_bytes 1 self) }
    {
        bytes[at] = self;
    }
}

impl LittleEndian for u16 {
    ghost width = { 2 };

    ghost of_bits = { itself };

    ghost bits = { itself };

    ghost in_range = { Fits w16 };

    ghost bytes_back = { same-bits-back 2 };

    ghost number_back = { same-number-back w16 };

    fn read(bytes: &[u8], at: usize) -> u16
        requires { at + 2 ≤ length bytes.now }
        ensures { result ≡ number_at bytes.now at 2 }
    {
        u16::from_le_bytes([bytes[at], bytes[at + 1]])
    }

    fn write(self, bytes: &mut [u8], at: usize)
        requires { at + 2 ≤ length bytes.old }
        ensures { bytes.new ≡ put bytes.old at (to_bytes 2 self) }
    {
        copy_over(bytes, at, &self.to_le_bytes());
    }
}

impl LittleEndian for u32 {
    ghost width = { 4 };

    ghost of_bits = { itself };

    ghost bits = { itself };

    ghost in_range = { Fits w32 };

    ghost bytes_back = { same-bits-back 4 };

    ghost number_back = { same-number-back w32 };

    fn read(bytes: &[u8], at: usize) -> u32
        requires { at + 4 ≤ length bytes.now }
        ensures { result ≡ number_at bytes.now at 4 }
    {
        u32::from_le_bytes([bytes[at], bytes[at + 1], bytes[at + 2], bytes[at + 3]])
    }

    fn write(self, bytes: &mut [u8], at: usize)
        requires { at + 4 ≤ length bytes.old }
        ensures { bytes.new ≡ put bytes.old at (to_bytes 4 self) }
    {
        copy_over(bytes, at, &self.to_le_bytes());
    }
}

impl LittleEndian for u64 {
    ghost width = { 8 };

    ghost of_bits = { itself };

    ghost bits = { itself };

    ghost in_range = { Fits w64 };

    ghost bytes_back = { same-bits-back 8 };

    ghost number_back = { same-number-back w64 };

    fn read(bytes: &[u8], at: usize) -> u64
        requires { at + 8 ≤ length bytes.now }
        ensures { result ≡ number_at bytes.now at 8 }
    {
        u64::from_le_bytes([
            bytes[at],
            bytes[at + 1],
            bytes[at + 2],
            bytes[at + 3],
            bytes[at + 4],
            bytes[at + 5],
            bytes[at + 6],
            bytes[at + 7],
        ])
    }

    fn write(self, bytes: &mut [u8], at: usize)
        requires { at + 8 ≤ length bytes.old }
        ensures { bytes.new ≡ put bytes.old at (to_bytes 8 self) }
    {
        copy_over(bytes, at, &self.to_le_bytes());
    }
}

impl LittleEndian for i16 {
    ghost width = { 2 };

    ghost of_bits = { signed w16 };

    ghost bits = { unsigned w16 };

    ghost in_range = { SFits w16 };

    ghost bytes_back = { bytes-back_16 };

    ghost number_back = { number-back w16 };

    fn read(bytes: &[u8], at: usize) -> i16
        requires { at + 2 ≤ length bytes.now }
        ensures { result ≡ signed w16 (number_at bytes.now at 2) }
    {
        u16::read(bytes, at).cast_signed()
    }

    fn write(self, bytes: &mut [u8], at: usize)
        requires { at + 2 ≤ length bytes.old }
        ensures { bytes.new ≡ put bytes.old at (to_bytes 2 (unsigned w16 self)) }
    {
        self.cast_unsigned().write(bytes, at);
    }
}

impl LittleEndian for i32 {
    ghost width = { 4 };

    ghost of_bits = { signed w32 };

    ghost bits = { unsigned w32 };

    ghost in_range = { SFits w32 };

    ghost bytes_back = { bytes-back_32 };

    ghost number_back = { number-back w32 };

    fn read(bytes: &[u8], at: usize) -> i32
        requires { at + 4 ≤ length bytes.now }
        ensures { result ≡ signed w32 (number_at bytes.now at 4) }
    {
        u32::read(bytes, at).cast_signed()
    }

    fn write(self, bytes: &mut [u8], at: usize)
        requires { at + 4 ≤ length bytes.old }
        ensures { bytes.new ≡ put bytes.old at (to_bytes 4 (unsigned w32 self)) }
    {
        self.cast_unsigned().write(bytes, at);
    }
}
