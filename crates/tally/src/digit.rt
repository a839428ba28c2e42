//! One digit as a machine: an event's digit is added, a snapshot is the digit.
ghost use Rattle.std.specs.Prelude.{◌≡◌, ◌&&◌, eqb, leb, pos, refl};
ghost use Rattle.std.proofs.Common.{rules};
ghost use Rattle.tally.specs.Tally.{tally};
ghost use Rattle.tally.specs.Laws.{laws};

use replay::machine::Machine;

/// A digit, which any byte may hold.
#[derive(Clone, Copy, Debug, PartialEq, Eq)]
pub struct Digit(pub u8);

impl Machine for Digit {
    ghost WIDTH = { 1 };

    const WIDTH: usize = 1;

    ghost system = { tally };

    ghost state = { λ d. d.0 };

    ghost can_load = { λ _. Unit };

    ghost number = { pos };

    fn size() -> usize {
        1
    }

    fn is_legal(events: &[u8], at: usize) -> bool {
        events[at] < 10
    }

    fn is_formed(image: &[u8], at: usize) -> bool {
        image[at] < 10
    }

    fn may_start(image: &[u8], at: usize) -> bool {
        true
    }

    fn begin(image: &mut [u8], at: usize) {
        image[at] = 0;
    }

    fn load(image: &[u8], at: usize) -> Self {
        Digit(image[at])
    }

    fn step(&mut self, events: &[u8], at: usize) {
        self.0 = ((u16::from(self.0) + u16::from(events[at])) % 10) as u8;
    }

    fn write(&self, image: &mut [u8], at: usize) {
        image[at] = self.0;
    }

    fn is_at(&self, image: &[u8], at: usize) -> bool {
        image[at] == self.0
    }

    fn number(&self) -> i32 {
        i32::from(self.0)
    }

    ghost wide = { Prim.search rules };

    ghost laws = { laws };

    ghost long = { λ _. refl };

    ghost formed_loads = { λ _ _. tt };
}

/// Whether mending stops before event `place`: the run's end is passed, and the old snapshot is the
/// new state's. The loop asks the same of any machine (`table`).
pub fn settled(end: usize, place: usize, old: u8, state: u8) -> bool
    ensures { result ≡ (leb end place && eqb old state) }
{
    (end <= place) & (old == state)
}
