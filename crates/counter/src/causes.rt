//! Causes: the outputs that they put, which of them become interrupts, and the flags that tell
//! what became of them.
ghost use Rattle.std.specs.Prelude.{◌≡◌};
ghost use Rattle.accumulator.specs.Causes.{number};
ghost use Rattle.counter.specs.Parts.{with_flags};
ghost use Rattle.counter.specs.Desk.{next_of};
ghost use Rattle.counter.specs.Interrupts.{unmasked, enabled, quiet, started, finished_flags};
ghost use Rattle.counter.specs.Interrupts.{interrupt, routine_done, with_outputs, raise};

use crate::desk::Outcome;
use crate::flag::Flag;
use crate::outputs;
use crate::state::Counter;
use accumulator::cause::Cause;

impl Counter {
    /// Whether the cause's mask is 1.
    #[tactic(auto, unfolding(crate::specs::Interrupts::unmasked))]
    fn unmasked(&self, cause: Cause) -> bool
        ensures { result ≡ unmasked self.now.flags (number cause) }
    {
        match cause {
            Cause::LowPreset => self.has(Flag::Lpm),
            Cause::HighPreset => self.has(Flag::Hpm),
            Cause::Underflow => self.has(Flag::Ufm),
            Cause::Overflow => self.has(Flag::Ofm),
        }
    }

    /// Whether the cause becomes an interrupt.
    #[tactic(auto, unfolding(crate::specs::Interrupts::enabled))]
    fn enabled(&self, cause: Cause) -> bool
        ensures { result ≡ enabled self.now.flags (number cause) }
    {
        self.has(Flag::Fe) & self.has(Flag::Uie) & self.unmasked(cause)
    }

    /// LPI, HPI, UFI and OFI at 0.
    #[tactic(auto, unfolding(crate::specs::Interrupts::quiet))]
    pub(crate) fn quiet(&mut self)
        ensures { self.new ≡ with_flags (quiet self.old.flags) self.old }
    {
        self.clear(Flag::Lpi);
        self.clear(Flag::Hpi);
        self.clear(Flag::Ufi);
        self.clear(Flag::Ofi);
    }

    /// The cause's bit of the four at 1, the other three at 0.
    #[tactic(auto, unfolding(crate::specs::Interrupts::started))]
    fn show(&mut self, cause: Cause)
        ensures { self.new ≡ with_flags (started (number cause) self.old.flags) self.old }
    {
        self.quiet();
        match cause {
            Cause::LowPreset => self.set(Flag::Lpi),
            Cause::HighPreset => self.set(Flag::Hpi),
            Cause::Underflow => self.set(Flag::Ufi),
            Cause::Overflow => self.set(Flag::Ofi),
        }
    }

    /// Shows what starts when a routine is done, by its number: one that is no cause's shows none.
    #[tactic(auto, unfolding(crate::specs::Interrupts::finished_flags, crate::specs::Interrupts::started))]
    fn show_next(&mut self, next: Option<u8>)
        ensures { self.new ≡ with_flags (finished_flags (next_of next) self.old.flags) self.old }
    {
        if let Some(number) = next {
            match Cause::try_from(number) {
                Ok(cause) => self.show(cause),
                Err(_) => self.quiet(),
            }
        }
    }

    /// Takes a cause that becomes an interrupt: UIL is 1 if it is lost.
    #[tactic(auto, unfolding(crate::specs::Interrupts::interrupt, crate::specs::Interrupts::posted_flags))]
    fn interrupt(&mut self, cause: Cause)
        ensures { self.new ≡ interrupt (number cause) self.old }
    {
        match self.desk.post(u8::from(cause)) {
            Outcome::Starts => self.show(cause),
            Outcome::Waits => {}
            Outcome::Lost => self.set(Flag::Uil),
        }
    }

    /// Ends the routine that runs.
    #[tactic(auto, unfolding(crate::specs::Interrupts::routine_done))]
    pub fn routine_done(&mut self)
        ensures { self.new ≡ routine_done self.old }
    {
        let next = self.desk.finish();
        self.show_next(next);
    }

    /// Puts the outputs of the cause: HPO or LPO on those in active OMB.
    #[tactic(auto, unfolding(crate::specs::Interrupts::cause_word))]
    fn put_outputs(&mut self, cause: Cause)
        ensures { self.new ≡ with_outputs (number cause) self.old }
    {
        let active = &self.active;
        match cause {
            Cause::HighPreset => self.out = outputs::preset_word(active.omb, active.hpo, self.out),
            Cause::LowPreset => self.out = outputs::preset_word(active.omb, active.lpo, self.out),
            Cause::Underflow | Cause::Overflow => {}
        }
    }

    /// Raises a cause: its outputs, and an interrupt if it is enabled.
    #[tactic(auto, unfolding(crate::specs::Interrupts::raise))]
    pub fn raise(&mut self, cause: Cause)
        ensures { self.new ≡ raise (number cause) self.old }
    {
        self.put_outputs(cause);
        if self.enabled(cause) {
            self.interrupt(cause);
        }
    }
}
