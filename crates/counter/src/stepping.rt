//! The step of each event.
ghost use Rattle.std.specs.Prelude.{◌≡◌};
ghost use Rattle.counter.specs.Flags.{bit_of};
ghost use Rattle.counter.specs.Parts.{with_out};
ghost use Rattle.counter.specs.Events.{levels_of, program_word, bit_value, Legal, controlled};
ghost use Rattle.counter.specs.Events.{set_to, sp_rises};
ghost use Rattle.counter.specs.Events.{flag_write, emptied, auto_start, enter_run, output_write};
ghost use Rattle.counter.specs.Events.{step, step_control};

use crate::desk::Desk;
use crate::event::Event;
use crate::flag::Flag;
use crate::outputs;
use crate::state::Counter;

/// The levels that a sample's value gives.
// No `TryFrom`: it takes the low four bits of any number.
pub fn levels_of(v: i32) -> u8
    ensures { result ≡ levels_of v }
{
    (v.cast_unsigned() % 16) as u8
}

impl Counter {
    /// The flag at a level.
    fn put(&mut self, flag: Flag, level: bool)
        ensures { self.new ≡ set_to (bit_of flag) (bit_value level) self.old }
    {
        if level {
            self.set(flag);
        } else {
            self.clear(flag);
        }
    }

    /// Whether the write takes SP from 0 to 1.
    #[tactic(auto, unfolding(crate::specs::Events::sp_rises))]
    fn sp_rises(&self, flag: Flag, level: bool) -> bool
        ensures { result ≡ sp_rises (bit_of flag) (bit_value level) self.now }
    {
        (flag == Flag::Sp) & level & !self.has(Flag::Sp)
    }

    /// Writes a flag; SP going from 0 to 1 loads.
    #[tactic(auto, unfolding(crate::specs::Events::flag_write))]
    fn write_flag(&mut self, flag: Flag, level: bool)
        ensures { self.new ≡ flag_write (bit_of flag) (bit_value level) self.old }
    {
        if self.sp_rises(flag, level) {
            self.set(Flag::Sp);
            self.load();
        } else {
            self.put(flag, level);
        }
    }

    /// LPI, HPI, UFI, OFI at 0, no cause running or waiting.
    fn empty(&mut self)
        ensures { self.new ≡ emptied self.old }
    {
        self.quiet();
        self.desk = Desk::empty();
    }

    /// A load at enter run, and FE 1 if it is accepted.
    #[tactic(auto, unfolding(crate::specs::Events::auto_start, crate::specs::Loading::load))]
    fn auto_start(&mut self)
        ensures { self.new ≡ auto_start self.old }
    {
        if self.load() {
            self.set(Flag::Fe);
        }
    }

    /// Enter run: empties the desk, and loads if AS is 1.
    #[tactic(auto, unfolding(crate::specs::Events::enter_run))]
    fn enter_run(&mut self)
        ensures { self.new ≡ enter_run self.old }
    {
        let starts = self.has(Flag::As);
        self.empty();
        if starts {
            self.auto_start();
        }
    }

    /// Puts the program's word on the outputs that are not in active OMB.
    fn put_program_word(&mut self, word: u16)
        ensures { self.new
            ≡ with_out (program_word self.old.active.omb word self.old.out) self.old }
    {
        self.out = outputs::program_word(self.active.omb, word, self.out);
    }

    /// Takes a legal event; a sample is taken by `sample`, and here it changes nothing.
    #[tactic(auto, unfolding(crate::specs::Events::control, crate::specs::Events::staged_write, crate::specs::Events::staged, crate::specs::Events::device_write, crate::specs::Events::device))]
    fn control(&mut self, event: Event)
        requires { Legal event }
        ensures { self.new ≡ controlled event self.old }
    {
        match event {
            Event::Blank | Event::Sample(_) => {}
            Event::StageHip(value) => self.staged.hip = value,
            Event::StageLop(value) => self.staged.lop = value,
            Event::StageOvf(value) => self.staged.ovf = value,
            Event::StageUnf(value) => self.staged.unf = value,
            Event::StageHpo(word) => self.staged.hpo = word,
            Event::StageLpo(word) => self.staged.lpo = word,
            Event::SetPfn(number) => self.staged.pfn = number,
            Event::SetMode(number) => self.staged.mode = number,
            Event::SetOmb(word) => self.staged.omb = word,
            Event::SetAs(level) => self.put(Flag::As, level),
            Event::Flag { flag, level } => self.write_flag(flag, level),
            Event::SetAcc(value) => self.acc = value,
            Event::LoadPresets => self.preset_load(),
            Event::RoutineDone => self.routine_done(),
            Event::EnterRun => self.enter_run(),
            Event::Outputs(word) => self.put_program_word(word),
        }
    }

    /// Takes an event that is no legal sample; one that is not legal changes nothing.
    // By its numbers, as `step-good` has an event.
    #[tactic(auto, unfolding(crate::specs::Events::step_control))]
    pub fn step_control(&mut self, kind: u8, sub: u8, v: i32)
        ensures { self.new ≡ step_control kind sub v self.old }
    {
        if let Some(event) = Event::parse(kind, sub, v) {
            self.control(event);
        }
    }

    /// Takes an event; one that is not legal changes nothing.
    // By its numbers, as `step-good` has an event.
    #[tactic(auto, unfolding(crate::specs::Events::step))]
    pub fn step(&mut self, kind: u8, sub: u8, v: i32)
        ensures { self.new ≡ step kind sub v self.old }
    {
        match Event::parse(kind, sub, v) {
            Some(Event::Sample(levels)) => self.sample(levels),
            Some(event) => self.control(event),
            None => {}
        }
    }
}
