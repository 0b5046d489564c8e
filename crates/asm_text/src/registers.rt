//! Statements whose operands are registers alone, which many rows have.

ghost use Rattle.std.specs.Prelude.{◌≡◌, ◌+◌, ◌<◌, ◌≤◌, length, ◌++◌, ◌∷◌, []};
ghost use Rattle.asm_text.specs.Statements.{on};
ghost use Rattle.asm_text.specs.Text.{register_name};

use crate::lines::Line;
use crate::parts::{condition, first, register};
use arm_words::Condition;

/// A name and a register. A statement without a condition has Al.
pub fn one(name: &str, cond: Condition, a: u8, into: &mut Line)
    requires room { length into.old + 80 ≤ 96 }
    requires name { length name.now ≤ 8 }
    requires a { a < 16 }
    ensures { into.new ≡ into.old ++ on name.now cond (register_name a ∷ []) }
{
    into.put_text(name);
    condition(cond, into);
    register(a, into);
}

/// A name and two registers.
pub fn two(name: &str, cond: Condition, a: u8, b: u8, into: &mut Line)
    requires room { length into.old + 80 ≤ 96 }
    requires name { length name.now ≤ 8 }
    requires a { a < 16 }
    requires b { b < 16 }
    ensures { into.new ≡ into.old ++ on name.now cond (register_name a ∷ register_name b ∷ []) }
{
    into.put_text(name);
    first(cond, a, into);
    register(b, into);
}

/// A name and three registers.
pub fn three(name: &str, cond: Condition, a: u8, b: u8, c: u8, into: &mut Line)
    requires room { length into.old + 80 ≤ 96 }
    requires name { length name.now ≤ 8 }
    requires a { a < 16 }
    requires b { b < 16 }
    requires c { c < 16 }
    ensures { into.new ≡ into.old ++ on name.now cond (register_name a ∷ register_name b ∷ register_name c ∷ []) }
{
    into.put_text(name);
    first(cond, a, into);
    register(b, into);
    into.put_text(", ");
    register(c, into);
}

/// A name and four registers.
pub fn four(name: &str, cond: Condition, a: u8, b: u8, c: u8, d: u8, into: &mut Line)
    requires room { length into.old + 80 ≤ 96 }
    requires name { length name.now ≤ 8 }
    requires a { a < 16 }
    requires b { b < 16 }
    requires c { c < 16 }
    requires d { d < 16 }
    ensures { into.new ≡ into.old ++ on name.now cond (register_name a ∷ register_name b ∷ register_name c ∷ register_name d ∷ []) }
{
    into.put_text(name);
    first(cond, a, into);
    register(b, into);
    into.put_text(", ");
    register(c, into);
    into.put_text(", ");
    register(d, into);
}
