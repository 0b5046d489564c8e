//! The names that statements begin with.

ghost use Rattle.std.specs.Prelude.{◌≡◌};
ghost use Rattle.asm_text.specs.Reader.Names.{lookup, name, named_stem};

use arm_words::{Condition, Instr};

/// The key of a name of at most seven letters: five bits a letter, the first highest.
macro_rules! key {
    (@letter $name:literal $at:literal) => {
        if $at < $name.len() {
            ($name[$at] as u64 % 32) << (5 * ($name.len() - 1 - $at))
        } else {
            0
        }
    };
    ($name:literal) => {
        key!(@letter $name 0)
            + key!(@letter $name 1)
            + key!(@letter $name 2)
            + key!(@letter $name 3)
            + key!(@letter $name 4)
            + key!(@letter $name 5)
            + key!(@letter $name 6)
    };
}

pub(crate) use key;

/// What a name stands for.
#[derive(Clone, Copy)]
pub(crate) enum Stem {
    /// The statement of an instruction, of which what the name tells is filled in; registers and numbers are 0 and the condition
    /// is Al.
    Row(Instr),
    /// A word or half itself: its number.
    Raw(u32),
}

/// The suffixes of conditions.
const CONDITIONS: [(u64, Condition); 14] = [
    (key!(b"eq"), Condition::Eq),
    (key!(b"ne"), Condition::Ne),
    (key!(b"cs"), Condition::Cs),
    (key!(b"cc"), Condition::Cc),
    (key!(b"mi"), Condition::Mi),
    (key!(b"pl"), Condition::Pl),
    (key!(b"vs"), Condition::Vs),
    (key!(b"vc"), Condition::Vc),
    (key!(b"hi"), Condition::Hi),
    (key!(b"ls"), Condition::Ls),
    (key!(b"ge"), Condition::Ge),
    (key!(b"lt"), Condition::Lt),
    (key!(b"gt"), Condition::Gt),
    (key!(b"le"), Condition::Le),
];

/// The key of a text up to its first blank, and what follows the blank.
pub(crate) fn name(text: &[u8]) -> (u64, &[u8])
    ensures key { result.0 ≡ (name 0 text.now).0 }
    ensures rest { result.1.now ≡ (name 0 text.now).1 }
{
    let mut key: u64 = 0;
    let mut rest = text;
    while let [b, more @ ..] = rest {
        rest = more;
        if *b == b' ' {
            break;
        }
        key = key.wrapping_mul(32).wrapping_add((*b % 32) as u64);
    }
    (key, rest)
}

/// What a table has for a key.
fn lookup<T: Copy>(table: &[(u64, T)], key: u64) -> Option<T>
    ensures { result ≡ lookup key table.now }
{
    let mut rest = table;
    while let [row, more @ ..] = rest {
        if row.0 == key {
            return Some(row.1);
        }
        rest = more;
    }
    None
}

/// What a name's key stands for, and its condition: where its last two letters are a condition's suffix and the table has what
/// stands before them, these; otherwise the whole name, with Al.
#[tactic(auto, unfolding(crate::specs::Reader::Names::named_stem))]
pub(crate) fn named_stem(table: &[(u64, Stem)], key: u64) -> (Option<Stem>, Condition)
    ensures stem { result.0 ≡ (named_stem table.now key).0 }
    ensures condition { result.1 ≡ (named_stem table.now key).1 }
{
    if let Some(cond) = lookup(&CONDITIONS, key % 1024) {
        if let Some(stem) = lookup(table, key / 1024) {
            return (Some(stem), cond);
        }
    }
    (lookup(table, key), Condition::Al)
}
