//! Numbers and registers.

ghost use Rattle.std.specs.Prelude.{◌≡◌, ◌+◌, ◌<◌, ◌≤◌, length, ◌++◌, ◌∷◌, [], codes};
ghost use Rattle.asm_text.specs.Names.{suffix};
ghost use Rattle.asm_text.specs.Statements.{on};
ghost use Rattle.asm_text.specs.Text.{decimal, hex, members, number, register_name, register_list, trimmed, where_set};

use crate::lines::Line;
use crate::names::suffix;
use arm_words::Condition;
use ds_base::hex_digits;

pub fn decimal(n: u8, into: &mut Line)
    requires room { length into.old + 2 ≤ 96 }
    requires n { n < 16 }
    ensures text { into.new ≡ into.old ++ decimal n }
    ensures room { length into.new ≤ length into.old + 2 }
{
    if n < 10 {
        into.put(b'0' + n);
    } else {
        into.put(b'1');
        into.put(b'0' + (n - 10));
    }
}

pub fn register(n: u8, into: &mut Line)
    requires room { length into.old + 3 ≤ 96 }
    requires n { n < 16 }
    ensures text { into.new ≡ into.old ++ register_name n }
    ensures room { length into.new ≤ length into.old + 3 }
{
    into.put_text("r");
    decimal(n, into);
}

fn trimmed(digits: &[u8]) -> &[u8]
    ensures text { result.now ≡ trimmed digits.now }
    ensures room { length result.now ≤ length digits.now }
{
    let mut rest = digits;
    while rest.len() > 1 && rest[0] == b'0' {
        rest = &rest[1..];
    }
    rest
}

pub fn hex(n: u32, into: &mut Line)
    requires { length into.old + 10 ≤ 96 }
    ensures text { into.new ≡ into.old ++ hex n }
    ensures room { length into.new ≤ length into.old + 10 }
{
    into.put_text("0x");
    into.put_bytes(trimmed(&hex_digits(n)));
}

pub fn number(n: u32, into: &mut Line)
    requires { length into.old + 11 ≤ 96 }
    ensures text { into.new ≡ into.old ++ number n }
    ensures room { length into.new ≤ length into.old + 11 }
{
    into.put_text("#");
    hex(n, into);
}

pub fn where_set(bit: bool, text: &str, into: &mut Line)
    requires { length into.old + length text.now ≤ 96 }
    ensures text { into.new ≡ into.old ++ where_set bit text.now }
    ensures room { length into.new ≤ length into.old + length text.now }
{
    if bit {
        into.put_text(text);
    }
}

fn members(list: u16, into: &mut Line)
    requires { length into.old + 64 ≤ 96 }
    ensures text { into.new ≡ into.old ++ members list }
    ensures room { length into.new ≤ length into.old + 64 }
{
    let mut later = false;
    for r in 0..16u8 {
        if (list >> r) & 1 == 1 {
            if later {
                into.put(b',');
            }
            register(r, into);
            later = true;
        }
    }
}

pub fn register_list(list: u16, into: &mut Line)
    requires { length into.old + 66 ≤ 96 }
    ensures text { into.new ≡ into.old ++ register_list list }
    ensures room { length into.new ≤ length into.old + 66 }
{
    into.put_text("{");
    members(list, into);
    into.put_text("}");
}

/// The end of a name: its condition's suffix and a space.
pub fn condition(cond: Condition, into: &mut Line)
    requires { length into.old + 3 ≤ 96 }
    ensures text { into.new ≡ into.old ++ (suffix cond ++ codes " ") }
    ensures room { length into.new ≤ length into.old + 3 }
{
    into.put_text(suffix(cond));
    into.put_text(" ");
}

/// The end of a name, and a register before further operands.
pub fn first(cond: Condition, r: u8, into: &mut Line)
    requires room { length into.old + 8 ≤ 96 }
    requires r { r < 16 }
    ensures text { into.new ≡ into.old ++ (suffix cond ++ (codes " " ++ (register_name r ++ codes ", "))) }
    ensures room { length into.new ≤ length into.old + 8 }
{
    condition(cond, into);
    register(r, into);
    into.put_text(", ");
}
