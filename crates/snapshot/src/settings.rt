//! Settings in the 26 bytes of a snapshot that hold them. Functions, since `Settings` is the
//! counter's: as methods they would need a trait for this one type.
//! A slice and a place in it, as in `word::bytes`.
ghost use Rattle.std.specs.Prelude.{◌≡◌, ◌+◌, ◌≤◌, length};
ghost use Rattle.word.specs.Part.{put};
ghost use Rattle.word.specs.Layouts.{pack};
ghost use Rattle.snapshot.specs.Widths.{settings_size, settings_layout};
ghost use Rattle.snapshot.specs.Snapshots.{settings_at, settings_row};

use crate::places;
use counter::state::Settings;
use word::bytes::LittleEndian;

/// The settings in the 26 bytes from byte `at` on.
pub fn read_settings(s: &[u8], at: usize) -> Settings
    requires { at + settings_size ≤ length s.now }
    ensures { result ≡ settings_at s.now at }
{
    Settings {
        pfn: i16::read(s, at),
        mode: i16::read(s, at + places::MODE),
        hip: i32::read(s, at + places::HIP),
        lop: i32::read(s, at + places::LOP),
        ovf: i32::read(s, at + places::OVF),
        unf: i32::read(s, at + places::UNF),
        omb: u16::read(s, at + places::OMB),
        hpo: u16::read(s, at + places::HPO),
        lpo: u16::read(s, at + places::LPO),
    }
}

/// Writes the settings over the 26 bytes from byte `at` on.
pub fn write_settings(v: Settings, s: &mut [u8], at: usize)
    requires { at + settings_size ≤ length s.old }
    ensures { s.new ≡ put s.old at (pack settings_layout (settings_row v)) }
{
    v.pfn.write(s, at);
    v.mode.write(s, at + places::MODE);
    v.hip.write(s, at + places::HIP);
    v.lop.write(s, at + places::LOP);
    v.ovf.write(s, at + places::OVF);
    v.unf.write(s, at + places::UNF);
    v.omb.write(s, at + places::OMB);
    v.hpo.write(s, at + places::HPO);
    v.lpo.write(s, at + places::LPO);
}
