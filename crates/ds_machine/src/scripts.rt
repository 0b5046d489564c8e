//! The lines of the key script that are to come.

ghost use Rattle.std.specs.Prelude.{◌≡◌, ◌<◌, ◌^◌, ◌∷◌, length};
ghost use Rattle.ds_base.specs.KeyLines.{AreKeyLines};
ghost use Rattle.ds_machine.specs.Reference.{keys_due};
ghost use Rattle.ds_machine.specs.Saved.{script_from, starts_before};

use ds_base::{KeyLine, Keys, Tick, known};
use std::marker::Model;

/// A key script, of which so many lines are past. Contracts see it as the list of the lines that are to come.
#[derive(Drop)]
pub struct Script {
    keys: Keys,
    past: usize,
}

impl Model for Script {
    ghost use Rattle.std.specs.Prelude.{List, drop, length, ◌≤◌};
    ghost use Rattle.ds_base.specs.declared.keys.KeyLine.{KeyLine};

    ghost Value = { List KeyLine };

    ghost view = { λ s. drop s.past s.keys };

    ghost invariant = { λ s. s.past ≤ length s.keys };
}

impl Script {
    /// A script, of which no line is past.
    pub fn new(keys: Keys) -> Script
        ensures { result ≡ keys }
    {
        Script { keys, past: 0 }
    }

    /// A script, of which the lines before a tick are past.
    #[tactic(auto, using(crate::proofs::SavedScripts::line_past, crate::proofs::SavedScripts::some_left, crate::proofs::SavedScripts::none_before))]
    pub fn from_tick(keys: Keys, at: Tick) -> Script
        ensures { result ≡ script_from at.0 keys }
    {
        let mut script = Script::new(keys);
        'lines: while script.starts_before(at) {
            script.take();
        }
        script
    }

    /// Whether its next line is due before a tick.
    fn starts_before(&self, at: Tick) -> bool
        ensures { result ≡ starts_before at.0 self.now }
    {
        match self.due() {
            Some(due) => due.0 < at.0,
            None => false,
        }
    }

    /// When its next line is due, if there is one.
    #[inline(always)]
    pub fn due(&self) -> Option<Tick>
        ensures { result ≡ keys_due self.now }
    {
        if self.past < self.keys.len() {
            return Some(self.keys.line(self.past).tick);
        }
        None
    }

    /// Its next line, which is past then.
    #[tactic(auto, using(crate::proofs::Lines::line_twelve))]
    pub fn take(&mut self) -> KeyLine
        requires { 0 < length self.old }
        ensures line { self.old ≡ result ∷ self.new }
        ensures twelve { result.pressed < 2 ^ 12 }
    {
        let count = self.keys.len();
        let line = self.keys.line(self.past);
        if self.past < count {
            self.past += 1;
        }
        line
    }

    /// Does nothing; its contract states that the lines rise.
    pub fn laws(&self)
        ensures { AreKeyLines self.now }
    {
        known!(self.keys.len());
    }
}
