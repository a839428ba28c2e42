//! The office program's two lines.
ghost use Rattle.std.specs.Prelude.{◌≡◌};
ghost use Rattle.report.specs.Line.{replay_line, refusal_line};

use crate::text::Text;

// No `Display`: what it ensures holds where the write is `Ok`, and `office::answer` promises the
// line of every image. The pieces are bytes, and the numbers six, as the line's definition has them.

/// The line of a replay.
pub fn replay_line(events: u64, snapshots: u64, acc: i32, out: u16, er: u16, flags: u32) -> Text
    ensures { result ≡ replay_line events snapshots acc out er flags }
{
    let mut line = Text::new();
    line.push(b"events ");
    line.push_decimal(events);
    line.push(b" snapshots ");
    line.push_decimal(snapshots);
    line.push(b" acc ");
    line.push_signed(acc);
    line.push(b" out ");
    line.push_hexadecimal(4, u64::from(out));
    line.push(b" er ");
    line.push_decimal(u64::from(er));
    line.push(b" flags ");
    line.push_hexadecimal(8, u64::from(flags));
    line.push(b"\n");
    line
}

/// The line of a refusal.
pub fn refusal_line(number: u64, place: u64) -> Text
    ensures { result ≡ refusal_line number place }
{
    let mut line = Text::new();
    line.push(b"refused ");
    line.push_decimal(number);
    line.push(b" at ");
    line.push_decimal(place);
    line.push(b"\n");
    line
}
