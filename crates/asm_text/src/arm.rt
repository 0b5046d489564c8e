//! The rows of ARM's tables whose operands aren't registers alone.

ghost use Rattle.std.specs.Prelude.{◌≡◌, ◌+◌, ◌<◌, ◌≤◌, ◌^◌, length, ◌++◌, ◌∷◌, [], codes};
ghost use Rattle.arm_words.specs.Fields.{HasOffset, HasOperand, HasShortOffset};
ghost use Rattle.arm_words.specs.declared.instructions.Instr.TheVariants.{Bkpt, BlxTarget, Branch, Compare, Coprocessor, Data, DoubleTransfer, HalfTransfer, Move, Mrs, Msr, MsrImmediate, Multiple, Pld, Swap, Swi, Transfer};
ghost use Rattle.asm_text.specs.Names.{block_mode};
ghost use Rattle.asm_text.specs.Statements.{on, statement};
ghost use Rattle.asm_text.specs.Text.{decimal, hex, register_name, where_set};

use crate::addresses::{arm_target, half_target};
use crate::lines::Line;
use crate::names::{
    block_mode, compare_name, data_name, half_name, load_name, move_name, status_name,
};
use crate::operands::{address, offset, open, operand, rotated, short_address, status_fields};
use crate::parts::{condition, decimal, first, hex, register, register_list, where_set};
use arm_words::{
    CompareOp, Condition, DataOp, FieldMask, HalfOp, MoveOp, Offset, Operand, ShortOffset,
};

pub fn swap(at: u32, cond: Condition, byte: bool, rd: u8, rm: u8, rn: u8, into: &mut Line)
    requires room { length into.old + 80 ≤ 96 }
    requires rd { rd < 16 }
    requires rm { rm < 16 }
    requires rn { rn < 16 }
    ensures { into.new ≡ into.old ++ statement at (Swap cond byte rd rm rn) }
{
    into.put_text("swp");
    where_set(byte, "b", into);
    first(cond, rd, into);
    register(rm, into);
    into.put_text(", [");
    register(rn, into);
    into.put_text("]");
}

pub fn half_transfer(
    at: u32,
    cond: Condition,
    op: HalfOp,
    pre: bool,
    up: bool,
    write_back: bool,
    rn: u8,
    rd: u8,
    by: ShortOffset,
    into: &mut Line,
)
    requires room { length into.old + 80 ≤ 96 }
    requires rn { rn < 16 }
    requires rd { rd < 16 }
    requires by { HasShortOffset by }
    ensures { into.new ≡ into.old ++ statement at (HalfTransfer cond op pre up write_back rn rd by) }
{
    into.put_text(half_name(op));
    first(cond, rd, into);
    short_address(pre, up, write_back, rn, by, into);
}

pub fn double_transfer(
    at: u32,
    cond: Condition,
    store: bool,
    pre: bool,
    up: bool,
    write_back: bool,
    rn: u8,
    rd: u8,
    by: ShortOffset,
    into: &mut Line,
)
    requires room { length into.old + 80 ≤ 96 }
    requires rn { rn < 16 }
    requires rd { rd < 16 }
    requires by { HasShortOffset by }
    ensures { into.new ≡ into.old ++ statement at (DoubleTransfer cond store pre up write_back rn rd by) }
{
    into.put_text(if store { "strd" } else { "ldrd" });
    first(cond, rd, into);
    short_address(pre, up, write_back, rn, by, into);
}

pub fn transfer(
    at: u32,
    cond: Condition,
    pre: bool,
    up: bool,
    byte: bool,
    write_back: bool,
    load: bool,
    rn: u8,
    rd: u8,
    by: Offset,
    into: &mut Line,
)
    requires room { length into.old + 80 ≤ 96 }
    requires rn { rn < 16 }
    requires rd { rd < 16 }
    requires by { HasOffset by }
    ensures { into.new ≡ into.old ++ statement at (Transfer cond pre up byte write_back load rn rd by) }
{
    into.put_text(load_name(load));
    where_set(byte, "b", into);
    where_set(!pre & write_back, "t", into);
    first(cond, rd, into);
    address(pre, up, write_back, rn, by, into);
}

pub fn mrs(at: u32, cond: Condition, spsr: bool, rd: u8, into: &mut Line)
    requires room { length into.old + 80 ≤ 96 }
    requires rd { rd < 16 }
    ensures { into.new ≡ into.old ++ statement at (Mrs cond spsr rd) }
{
    into.put_text("mrs");
    first(cond, rd, into);
    into.put_text(status_name(spsr));
}

pub fn msr(at: u32, cond: Condition, spsr: bool, fields: FieldMask, rm: u8, into: &mut Line)
    requires room { length into.old + 80 ≤ 96 }
    requires rm { rm < 16 }
    ensures { into.new ≡ into.old ++ statement at (Msr cond spsr fields rm) }
{
    into.put_text("msr");
    condition(cond, into);
    status_fields(spsr, fields, into);
    into.put_text(", ");
    register(rm, into);
}

pub fn msr_immediate(
    at: u32,
    cond: Condition,
    spsr: bool,
    fields: FieldMask,
    rotate: u8,
    immed: u8,
    into: &mut Line,
)
    requires room { length into.old + 80 ≤ 96 }
    requires rotate { rotate < 16 }
    ensures { into.new ≡ into.old ++ statement at (MsrImmediate cond spsr fields rotate immed) }
{
    into.put_text("msr");
    condition(cond, into);
    status_fields(spsr, fields, into);
    into.put_text(", ");
    rotated(rotate, immed, into);
}

pub fn compare(at: u32, cond: Condition, op: CompareOp, rn: u8, second: Operand, into: &mut Line)
    requires room { length into.old + 80 ≤ 96 }
    requires rn { rn < 16 }
    requires second { HasOperand second }
    ensures { into.new ≡ into.old ++ statement at (Compare cond op rn second) }
{
    into.put_text(compare_name(op));
    first(cond, rn, into);
    operand(second, into);
}

pub fn move_operand(
    at: u32,
    cond: Condition,
    op: MoveOp,
    set_flags: bool,
    rd: u8,
    second: Operand,
    into: &mut Line,
)
    requires room { length into.old + 80 ≤ 96 }
    requires rd { rd < 16 }
    requires second { HasOperand second }
    ensures { into.new ≡ into.old ++ statement at (Move cond op set_flags rd second) }
{
    into.put_text(move_name(op));
    where_set(set_flags, "s", into);
    first(cond, rd, into);
    operand(second, into);
}

pub fn data_processing(
    at: u32,
    cond: Condition,
    op: DataOp,
    set_flags: bool,
    rn: u8,
    rd: u8,
    second: Operand,
    into: &mut Line,
)
    requires room { length into.old + 80 ≤ 96 }
    requires rn { rn < 16 }
    requires rd { rd < 16 }
    requires second { HasOperand second }
    ensures { into.new ≡ into.old ++ statement at (Data cond op set_flags rn rd second) }
{
    into.put_text(data_name(op));
    where_set(set_flags, "s", into);
    first(cond, rd, into);
    register(rn, into);
    into.put_text(", ");
    operand(second, into);
}

/// The base of a transfer of several registers.
fn base(write_back: bool, rn: u8, into: &mut Line)
    requires room { length into.old + 4 ≤ 96 }
    requires rn { rn < 16 }
    ensures text { into.new ≡ into.old ++ (register_name rn ++ where_set write_back (codes "!")) }
    ensures room { length into.new ≤ length into.old + 4 }
{
    register(rn, into);
    where_set(write_back, "!", into);
}

pub fn multiple(
    at: u32,
    cond: Condition,
    pre: bool,
    up: bool,
    user: bool,
    write_back: bool,
    load: bool,
    rn: u8,
    list: u16,
    into: &mut Line,
)
    requires room { length into.old + 90 ≤ 96 }
    requires rn { rn < 16 }
    ensures { into.new ≡ into.old ++ statement at (Multiple cond pre up user write_back load rn list) }
{
    into.put_text(if load { "ldm" } else { "stm" });
    into.put_text(block_mode(pre, up));
    condition(cond, into);
    base(write_back, rn, into);
    into.put_text(", ");
    register_list(list, into);
    where_set(user, "^", into);
}

pub fn branch(at: u32, cond: Condition, link: bool, by: u32, into: &mut Line)
    requires room { length into.old + 80 ≤ 96 }
    requires by { by < 2 ^ 24 }
    ensures { into.new ≡ into.old ++ statement at (Branch cond link by) }
{
    into.put_text("b");
    where_set(link, "l", into);
    condition(cond, into);
    hex(arm_target(at, by), into);
}

/// A coprocessor's number, an operation of it, a register, and a comma.
fn coprocessor_start(cp: u8, op1: u8, rd: u8, into: &mut Line)
    requires room { length into.old + 14 ≤ 96 }
    requires cp { cp < 16 }
    requires op1 { op1 < 8 }
    requires rd { rd < 16 }
    ensures text { into.new ≡ into.old
        ++ (codes "p" ++ (decimal cp ++ (codes ", " ++ (decimal op1 ++ (codes ", " ++ (register_name rd ++ codes ", ")))))) }
    ensures room { length into.new ≤ length into.old + 14 }
{
    into.put_text("p");
    decimal(cp, into);
    into.put_text(", ");
    decimal(op1, into);
    into.put_text(", ");
    register(rd, into);
    into.put_text(", ");
}

/// A coprocessor's two registers and the other operation.
fn coprocessor_end(crn: u8, crm: u8, op2: u8, into: &mut Line)
    requires room { length into.old + 14 ≤ 96 }
    requires crn { crn < 16 }
    requires crm { crm < 16 }
    requires op2 { op2 < 8 }
    ensures text { into.new ≡ into.old ++ (codes "c" ++ (decimal crn ++ (codes ", c" ++ (decimal crm ++ (codes ", " ++ decimal op2))))) }
{
    into.put_text("c");
    decimal(crn, into);
    into.put_text(", c");
    decimal(crm, into);
    into.put_text(", ");
    decimal(op2, into);
}

pub fn coprocessor(
    at: u32,
    cond: Condition,
    load: bool,
    op1: u8,
    crn: u8,
    rd: u8,
    cp: u8,
    op2: u8,
    crm: u8,
    into: &mut Line,
)
    requires room { length into.old + 80 ≤ 96 }
    requires op1 { op1 < 8 }
    requires crn { crn < 16 }
    requires rd { rd < 16 }
    requires cp { cp < 16 }
    requires op2 { op2 < 8 }
    requires crm { crm < 16 }
    ensures { into.new ≡ into.old ++ statement at (Coprocessor cond load op1 crn rd cp op2 crm) }
{
    into.put_text(if load { "mrc" } else { "mcr" });
    condition(cond, into);
    coprocessor_start(cp, op1, rd, into);
    coprocessor_end(crn, crm, op2, into);
}

/// A name and a number.
pub fn plain(name: &str, cond: Condition, n: u32, into: &mut Line)
    requires room { length into.old + 80 ≤ 96 }
    requires name { length name.now ≤ 8 }
    ensures { into.new ≡ into.old ++ on name.now cond (hex n ∷ []) }
{
    into.put_text(name);
    condition(cond, into);
    hex(n, into);
}

pub fn blx_target(at: u32, half: bool, by: u32, into: &mut Line)
    requires room { length into.old + 80 ≤ 96 }
    requires by { by < 2 ^ 24 }
    ensures { into.new ≡ into.old ++ statement at (BlxTarget half by) }
{
    let target = if half {
        half_target(at, by)
    } else {
        arm_target(at, by)
    };
    plain("blx", Condition::Al, target, into);
}

pub fn pld(at: u32, up: bool, rn: u8, by: Offset, into: &mut Line)
    requires room { length into.old + 80 ≤ 96 }
    requires rn { rn < 16 }
    requires by { HasOffset by }
    ensures { into.new ≡ into.old ++ statement at (Pld up rn by) }
{
    into.put_text("pld ");
    open(true, rn, into);
    offset(up, by, into);
    into.put_text("]");
}
