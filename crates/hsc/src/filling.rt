//! The 32 numbers of a reading: the state, and the bits shown but not stored.
ghost use Rattle.std.specs.Prelude.{◌≡◌};
ghost use Rattle.hsc.specs.Fields.{settings_fields, stored_fields, shown_fields, fields_of};

use counter::state::{Counter, Settings};
use word::parts::copy_over;

// In the layout's order.
fn settings_row(s: Settings) -> [i32; 9]
    ensures { result ≡ settings_fields s }
{
    [
        i32::from(s.pfn),
        i32::from(s.mode),
        s.hip,
        s.lop,
        s.ovf,
        s.unf,
        i32::from(s.omb),
        i32::from(s.hpo),
        i32::from(s.lpo),
    ]
}

// What else is stored; the flags stand by their signed reading.
fn stored_row(c: Counter) -> [i32; 8]
    ensures { result ≡ stored_fields c }
{
    let desk = c.desk;
    let waiting = desk.waiting;
    [
        c.acc,
        i32::from(c.out),
        i32::from(c.er),
        c.flags.cast_signed(),
        i32::from(c.levels),
        i32::from(desk.running),
        i32::from(waiting[0]),
        i32::from(waiting[1]),
    ]
}

// The bits shown but not stored.
fn shown_row(c: Counter) -> [i32; 6]
    ensures { result ≡ shown_fields c }
{
    [
        i32::from(c.uix()),
        i32::from(c.uip()),
        i32::from(c.cu()),
        i32::from(c.cd()),
        i32::from(c.hpr()),
        i32::from(c.lpr()),
    ]
}

/// Every number of the state.
pub fn fill(c: Counter, fields: &mut [i32; 32])
    ensures { fields.new ≡ fields_of c }
{
    let staged = settings_row(c.staged);
    let active = settings_row(c.active);
    let stored = stored_row(c);
    let shown = shown_row(c);
    copy_over(fields, 0, &staged);
    copy_over(fields, 9, &active);
    copy_over(fields, 18, &stored);
    copy_over(fields, 26, &shown);
}
