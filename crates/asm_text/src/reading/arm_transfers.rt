//! The same for ARM's transfers.

ghost use Rattle.std.specs.Prelude.{◌≡◌};
ghost use Rattle.arm_words.specs.Fields.{HasFields, HasOffset, HasShortOffset};
ghost use Rattle.asm_text.specs.Reader.ArmRows.{double_transfer_at, half_transfer_at, multiple_at, pld_at, short_of, swap_at, transfer_at};

use crate::reading::parts::{Address, address_at, byte, past, register_at, registers_at};
use arm_words::{Condition, HalfOp, Instr, Offset, ShortOffset};

#[tactic(auto, unfolding(crate::specs::Reader::ArmRows::swap_at))]
pub(crate) fn swap_at(byte: bool, cond: Condition, text: &[u8]) -> Instr
    ensures row { result ≡ swap_at byte cond text.now }
    ensures fields { HasFields result }
{
    let (rd, more) = register_at(text);
    let (rm, last) = register_at(past(more, 2));
    let (rn, _) = register_at(past(last, 3));
    Instr::Swap {
        cond,
        byte,
        rd,
        rm,
        rn,
    }
}

fn short_of(offset: Offset) -> ShortOffset
    requires { HasOffset offset }
    ensures value { result ≡ short_of offset }
    ensures fields { HasShortOffset result }
{
    match offset {
        Offset::Number { offset } => ShortOffset::ShortNumber {
            offset: (offset % 256) as u8,
        },
        Offset::Register { rm, .. } => ShortOffset::ShortRegister { rm },
    }
}

#[tactic(auto, unfolding(crate::specs::Reader::ArmRows::half_transfer_at))]
pub(crate) fn half_transfer_at(op: HalfOp, cond: Condition, text: &[u8]) -> Instr
    ensures row { result ≡ half_transfer_at op cond text.now }
    ensures fields { HasFields result }
{
    let (rd, more) = register_at(text);
    let a = address_at(past(more, 2));
    Instr::HalfTransfer {
        cond,
        op,
        pre: a.pre,
        up: a.up,
        write_back: a.write_back,
        rn: a.rn,
        rd,
        offset: short_of(a.offset),
    }
}

#[tactic(auto, unfolding(crate::specs::Reader::ArmRows::double_transfer_at))]
pub(crate) fn double_transfer_at(store: bool, cond: Condition, text: &[u8]) -> Instr
    ensures row { result ≡ double_transfer_at store cond text.now }
    ensures fields { HasFields result }
{
    let (rd, more) = register_at(text);
    let a = address_at(past(more, 2));
    Instr::DoubleTransfer {
        cond,
        store,
        pre: a.pre,
        up: a.up,
        write_back: a.write_back,
        rn: a.rn,
        rd: rd / 2 * 2,
        offset: short_of(a.offset),
    }
}

/// `t` is bit 21 where the name tells it.
#[tactic(auto, unfolding(crate::specs::Reader::ArmRows::transfer_at))]
pub(crate) fn transfer_at(byte: bool, t: bool, load: bool, cond: Condition, text: &[u8]) -> Instr
    ensures row { result ≡ transfer_at byte t load cond text.now }
    ensures fields { HasFields result }
{
    let (rd, more) = register_at(text);
    let a = address_at(past(more, 2));
    Instr::Transfer {
        cond,
        pre: a.pre,
        up: a.up,
        byte,
        write_back: t | a.write_back,
        load,
        rn: a.rn,
        rd,
        offset: a.offset,
    }
}

#[tactic(auto, unfolding(crate::specs::Reader::ArmRows::multiple_at))]
pub(crate) fn multiple_at(pre: bool, up: bool, load: bool, cond: Condition, text: &[u8]) -> Instr
    ensures row { result ≡ multiple_at pre up load cond text.now }
    ensures fields { HasFields result }
{
    let (rn, more) = register_at(text);
    let write_back = byte(more, 0) == b'!';
    let (list, last) = registers_at(past(more, if write_back { 4 } else { 3 }));
    Instr::Multiple {
        cond,
        pre,
        up,
        user: byte(last, 1) == b'^',
        write_back,
        load,
        rn,
        list,
    }
}

#[tactic(auto, unfolding(crate::specs::Reader::ArmRows::pld_at))]
pub(crate) fn pld_at(text: &[u8]) -> Instr
    ensures row { result ≡ pld_at text.now }
    ensures fields { HasFields result }
{
    let Address { up, rn, offset, .. } = address_at(text);
    Instr::Pld { up, rn, offset }
}
