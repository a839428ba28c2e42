//! Loading settings, whole or the presets alone.
ghost use Rattle.std.specs.Prelude.{◌≡◌, eqb};
ghost use Rattle.counter.specs.Parts.{with_active};
ghost use Rattle.counter.specs.Loading.{rule_number, first_broken, without_error, accepted};
ghost use Rattle.counter.specs.Loading.{rejected, load, with_presets, preset_load};

use crate::flag::Flag;
use crate::rules::Rule;
use crate::state::{Counter, Settings};

impl Settings {
    /// These settings with the presets of the staged ones, and the outputs that go with them.
    pub fn with_presets_of(&self, staged: &Settings) -> Settings
        ensures { result ≡ with_presets staged.now self.now }
    {
        Settings {
            hip: staged.hip,
            lop: staged.lop,
            hpo: staged.hpo,
            lpo: staged.lpo,
            ..*self
        }
    }
}

impl Counter {
    /// ED 0, ER 0.
    fn clear_error(&mut self)
        ensures { self.new ≡ without_error self.old }
    {
        self.er = 0;
        self.clear(Flag::Ed);
    }

    /// Active becomes staged, loaded 1.
    pub fn accept(&mut self)
        ensures { self.new ≡ accepted self.old }
    {
        self.active = self.staged;
        self.set(Flag::Loaded);
        self.clear_error();
    }

    /// ED 1, and the rule's number in ER.
    fn reject(&mut self, rule: Rule)
        ensures { self.new ≡ rejected (rule_number rule) self.old }
    {
        self.er = u16::from(rule);
        self.set(Flag::Ed);
    }

    /// Loads the staged settings; answers whether they are accepted.
    #[tactic(auto, unfolding(crate::specs::Loading::load))]
    pub fn load(&mut self) -> bool
        ensures accepted { result ≡ eqb (first_broken self.old.staged) 0 }
        ensures counter { self.new ≡ load self.old }
    {
        match self.staged.check() {
            Ok(()) => {
                self.accept();
                true
            }
            Err(rule) => {
                self.reject(rule);
                false
            }
        }
    }

    /// Active becomes these settings, whose presets were checked.
    fn accept_presets(&mut self, next: Settings)
        ensures { self.new ≡ without_error (with_active next self.old) }
    {
        self.active = next;
        self.clear_error();
    }

    /// Loads the presets alone; no effect if nothing is loaded.
    #[tactic(auto, unfolding(crate::specs::Loading::preset_load, crate::specs::Loading::preset_broken))]
    pub fn preset_load(&mut self)
        ensures { self.new ≡ preset_load self.old }
    {
        if !self.has(Flag::Loaded) {
            return;
        }
        let next = self.active.with_presets_of(&self.staged);
        match next.check_presets() {
            Ok(()) => self.accept_presets(next),
            Err(rule) => self.reject(rule),
        }
    }
}
