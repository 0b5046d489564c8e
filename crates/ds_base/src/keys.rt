//! The key script: which keys are pressed from which tick on.

ghost use Rattle.std.specs.Prelude.{◌≡◌, ◌<◌, ◌^◌, ◌++◌, ◌∷◌, [], length, IfOk, OnErr};
ghost use Rattle.ds_base.specs.KeyLines.{AreKeyLines, ComesAfter, line_at};

use crate::ticks::Tick;
use std::alloc::{AllocError, Global};
use std::marker::Model;

/// A line of a key script: from this tick on exactly these keys are pressed. (Our choice of form; the keys are those of
/// GBATEK, "DS Keypad".)
#[derive(Clone, Copy, PartialEq, Eq)]
pub struct KeyLine {
    /// From when on.
    pub tick: Tick,
    /// One bit a key, 1 where it is pressed: A, B, Select, Start, Right, Left, Up, Down, R, L, X, Y from bit 0 to bit 11.
    pub pressed: u16,
}

/// A key script: its lines, whose ticks rise. Contracts see it as the list of its lines.
#[derive(Drop)]
pub struct Keys {
    lines: Vec<KeyLine>,
}

impl Model for Keys {
    ghost use Rattle.std.specs.Prelude.{List};
    ghost use Rattle.ds_base.specs.KeyLines.{AreKeyLines};
    ghost use Rattle.ds_base.specs.declared.keys.KeyLine.{KeyLine};

    ghost Value = { List KeyLine };

    ghost view = { λ k. k.lines.items };

    ghost invariant = { λ k. AreKeyLines k.lines.items };
}

impl Keys {
    /// A script with no lines. It takes no memory.
    pub fn new(alloc: Global) -> Keys
        ensures { result ≡ [] }
    {
        Keys {
            lines: Vec::new(alloc),
        }
    }

    /// Adds a line at the end. For want of memory the script stays as it was.
    pub fn push(&mut self, line: KeyLine) -> Result<(), AllocError>
        requires rises { ComesAfter self.old line }
        requires keys { line.pressed < 2 ^ 12 }
        ensures ok { IfOk result (λ _. self.new ≡ self.old ++ line ∷ []) }
        ensures err { OnErr result (self.new ≡ self.old) }
    {
        self.lines.push(line)?;
        Ok(())
    }

    /// How many lines there are. Their ticks rise, and each tells of twelve keys.
    pub fn len(&self) -> usize
        ensures length { result ≡ length self.now }
        ensures lines { AreKeyLines self.now }
    {
        self.lines.len()
    }

    /// The line of a number, counted from 0.
    pub fn line(&self, at: usize) -> KeyLine
        requires { at < length self.now }
        ensures { result ≡ line_at self.now at }
    {
        self.lines[at]
    }
}
