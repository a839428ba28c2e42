//! The flags, which stand in one word.
ghost use Rattle.std.specs.Prelude.{◌≡◌, ◌<◌};
ghost use Rattle.counter.specs.Flags.{bit_of, Names};

/// The flags, in the order of their bits, from bit 0 on.
#[derive(Clone, Copy, Debug, PartialEq, Eq)]
pub enum Flag {
    Uie,
    Uil,
    Fe,
    As,
    Ed,
    Ce,
    Sp,
    Lpm,
    Hpm,
    Ufm,
    Ofm,
    Lpi,
    Hpi,
    Ufi,
    Ofi,
    Dir,
    Uf,
    Of,
    Md,
    Loaded,
}

impl Flag {
    /// Its bit in the flag word.
    // Inlined, as what calls it is, so that the mask of a flag named in code is a constant.
    #[inline(always)]
    pub fn bit(self) -> u32
        ensures below { result < 32 }
        ensures bit { result ≡ bit_of self }
    {
        self as u32
    }
}

/// A number that is no flag's bit.
#[derive(Clone, Copy, Debug, PartialEq, Eq)]
pub struct NoFlag(pub u8);

impl TryFrom<u8> for Flag {
    type Error = NoFlag;

    ghost try_from_gives = { Names };

    fn try_from(number: u8) -> Result<Self, NoFlag> {
        match number {
            0 => Ok(Flag::Uie),
            1 => Ok(Flag::Uil),
            2 => Ok(Flag::Fe),
            3 => Ok(Flag::As),
            4 => Ok(Flag::Ed),
            5 => Ok(Flag::Ce),
            6 => Ok(Flag::Sp),
            7 => Ok(Flag::Lpm),
            8 => Ok(Flag::Hpm),
            9 => Ok(Flag::Ufm),
            10 => Ok(Flag::Ofm),
            11 => Ok(Flag::Lpi),
            12 => Ok(Flag::Hpi),
            13 => Ok(Flag::Ufi),
            14 => Ok(Flag::Ofi),
            15 => Ok(Flag::Dir),
            16 => Ok(Flag::Uf),
            17 => Ok(Flag::Of),
            18 => Ok(Flag::Md),
            19 => Ok(Flag::Loaded),
            _ => Err(NoFlag(number)),
        }
    }
}
