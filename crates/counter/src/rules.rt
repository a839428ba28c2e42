//! Loading settings: the rules in their order.
ghost use Rattle.std.specs.Prelude.{◌≡◌, cond};
ghost use Rattle.counter.specs.Parts.{mode_of};
ghost use Rattle.counter.specs.Loading.{rule3, rule_number, er_of, passes, preset_broken};
ghost use Rattle.counter.specs.Loading.{first_broken};

use crate::outputs::OUTPUTS_END;
use crate::state::Settings;

/// How many rules there are.
pub const COUNT: u16 = 6;

/// The rules, in the order in which a load asks them.
#[derive(Clone, Copy, Debug, PartialEq, Eq)]
pub enum Rule {
    Routine,
    Mode,
    High,
    Overflow,
    Low,
    Mask,
}

impl From<Rule> for u16 {
    ghost from_gives = { λ rule n. n ≡ rule_number rule };

    fn from(rule: Rule) -> u16 {
        match rule {
            Rule::Routine => 1,
            Rule::Mode => 2,
            Rule::High => 3,
            Rule::Overflow => 4,
            Rule::Low => 5,
            Rule::Mask => 6,
        }
    }
}

impl Settings {
    /// HIP lies above 0 in modes 0 and 1, else above LOP.
    fn high_rule(&self) -> bool
        ensures { result ≡ rule3 (mode_of self.now.mode) self.now.hip self.now.lop }
    {
        if self.up_only() {
            0 < self.hip
        } else {
            self.lop < self.hip
        }
    }

    /// Whether the settings keep a rule.
    fn passes(&self, rule: Rule) -> bool
        ensures { result ≡ passes rule self.now }
    {
        match rule {
            Rule::Routine => (3 <= self.pfn) & (self.pfn <= 255),
            Rule::Mode => self.mode().is_some(),
            Rule::High => self.high_rule(),
            Rule::Overflow => self.hip <= self.ovf,
            Rule::Low => self.up_only() | (self.unf <= self.lop),
            Rule::Mask => self.omb < OUTPUTS_END,
        }
    }

    /// The rule, if it is broken.
    fn check_by(&self, rule: Rule) -> Result<(), Rule>
        ensures { result ≡ cond (passes rule self.now) (Ok tt) (Err rule) }
    {
        if self.passes(rule) { Ok(()) } else { Err(rule) }
    }

    /// Rules 3 to 5, which a load of presets asks: the first that is broken.
    #[tactic(auto, unfolding(crate::specs::Loading::preset_broken, crate::specs::Loading::broken_from))]
    pub fn check_presets(&self) -> Result<(), Rule>
        ensures { er_of result ≡ preset_broken self.now self.now }
    {
        self.check_by(Rule::High)?;
        self.check_by(Rule::Overflow)?;
        self.check_by(Rule::Low)
    }

    /// All rules: the first that is broken.
    pub fn check(&self) -> Result<(), Rule>
        ensures { er_of result ≡ first_broken self.now }
    {
        self.check_by(Rule::Routine)?;
        self.check_by(Rule::Mode)?;
        self.check_presets()?;
        self.check_by(Rule::Mask)
    }
}
