//! The call that tells the library's version.
ghost use Rattle.std.specs.Prelude.{◌≡◌};
ghost use Rattle.hsc.specs.Version.{version};

/// The number that the header of the same version has.
pub fn hsc_version() -> u32
    ensures { result ≡ version }
{
    900
}
