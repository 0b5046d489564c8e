//! LDM and STM (ARM manual, A3.12 "Load and Store Multiple instructions").

ghost use Rattle.std.specs.Prelude.{◌≡◌, ◌<◌, ◌∷◌, [], map, false, IsTrue};
ghost use Rattle.ds_base.specs.Accesses.{perform};
ghost use Rattle.arm_core.specs.Addressing.{listed_registers};
ghost use Rattle.arm_core.specs.Effects.{carried_out};
ghost use Rattle.arm_core.specs.Registers.{next};
ghost use Rattle.arm_core.specs.Multiples.{load_multiple_meaning, multiple_meaning, loaded, loaded_r15, last_of, reaches_user, reached_bank, reads, store_multiple_meaning, stored_value, writes};

use crate::branches::exchange_to;
use arm_core::{
    Bank, Bus, Class, Registers, Stepped, has, keeps_base, list_bytes, lowest, moved_base,
    stores_new_base, transferred, write_back,
};
use ds_base::{Arch, Stop, Width, known};

/// Loads the registers of a list from an address up. r15 isn't written; its value, or that of the last register, is the answer.
#[inline(always)]
fn load_list<B: Bus>(s: &mut Registers, bus: &mut B, bank: Bank, from: u32, list: u16) -> u32
    ensures registers { s.new
        ≡ loaded bank (listed_registers list) (perform B.memory (B.state bus.old) (reads from (listed_registers list))).values s.old }
    ensures state { B.state bus.new ≡ (perform B.memory (B.state bus.old) (reads from (listed_registers list))).state }
    ensures last { result ≡ last_of (perform B.memory (B.state bus.old) (reads from (listed_registers list))).values }
    ensures same { B.identity bus.new ≡ B.identity bus.old }
{
    let mut at = from;
    let mut last = 0;
    for r in 0..16_u8 {
        if has(list, r) {
            last = bus.read(at, Width::Word);
            load_one(s, bank, r, last);
            at = at.wrapping_add(4);
        }
    }
    last
}

/// A register of a list has a value; r15 is left to what comes after the list.
#[inline(always)]
fn load_one(s: &mut Registers, bank: Bank, r: u8, value: u32)
    requires { r < 16 }
    ensures { s.new ≡ loaded bank (r ∷ []) (value ∷ []) s.old }
{
    if r < 15 {
        s.set_in(bank, r, value);
    }
}

/// r15 is loaded. (ARM manual, A4.1 "LDM"; that ARMv5 sets T by bit 0 where nothing is restored is our choice.)
#[inline(always)]
fn load_r15(arch: Arch, s: &mut Registers, user: bool, value: u32)
    ensures { s.new ≡ loaded_r15 arch user value s.old }
{
    let restores = user && (arch == Arch::V4 || s.bank().saved_place().is_some());
    if restores {
        s.restore();
        s.jump(value);
    } else {
        load_plain_r15(arch, s, value);
    }
}

/// r15 is loaded where no status is restored.
#[inline(always)]
fn load_plain_r15(arch: Arch, s: &mut Registers, value: u32)
    ensures { s.new ≡ loaded_r15 arch false value s.old }
{
    match arch {
        Arch::V4 => s.jump(value),
        Arch::V5 => exchange_to(s, value),
    }
}

/// The bank whose registers an LDM or STM reaches.
#[inline(always)]
fn reached_bank(s: &Registers, to_user: bool) -> Bank
    ensures { result ≡ reached_bank s.now to_user }
{
    if to_user { Bank::System } else { s.bank() }
}

/// Loads a list, writes the base back if it is `written` back, and goes to r15 if that was loaded.
#[inline(always)]
fn load_from<B: Bus>(
    arch: Arch,
    s: &mut Registers,
    bus: &mut B,
    user: bool,
    from: u32,
    list: u16,
) -> u32
    ensures registers { s.new
        ≡ loaded (reached_bank s.old (reaches_user user list)) (listed_registers list)
        (perform B.memory (B.state bus.old) (reads from (listed_registers list))).values (next s.old) }
    ensures state { B.state bus.new ≡ (perform B.memory (B.state bus.old) (reads from (listed_registers list))).state }
    ensures last { result ≡ last_of (perform B.memory (B.state bus.old) (reads from (listed_registers list))).values }
    ensures same { B.identity bus.new ≡ B.identity bus.old }
{
    known!(arch);
    let bank = reached_bank(s, user && !has(list, 15));
    s.go_on();
    load_list(s, bus, bank, from, list)
}

/// LDM; registers below r15 are User mode's with `user` (ARM manual, A4.1 "LDM (1)" to "LDM (3)").
#[tactic(auto, using(crate::proofs::Lists::reads_go))]
#[inline]
pub fn load_multiple<B: Bus>(
    arch: Arch,
    s: &mut Registers,
    bus: &mut B,
    pre: bool,
    up: bool,
    user: bool,
    writes_back: bool,
    rn: u8,
    list: u16,
) -> Stepped
    requires { rn < 16 }
    ensures registers { s.new
        ≡ (carried_out B.memory arch s.old (B.state bus.old) (load_multiple_meaning arch s.old pre up user writes_back rn list)).registers }
    ensures state { B.state bus.new
        ≡ (carried_out B.memory arch s.old (B.state bus.old) (load_multiple_meaning arch s.old pre up user writes_back rn list)).state }
    ensures stepped { result
        ≡ (carried_out B.memory arch s.old (B.state bus.old) (load_multiple_meaning arch s.old pre up user writes_back rn list)).stepped }
    ensures same { B.identity bus.new ≡ B.identity bus.old }
{
    let base = s.get(rn);
    let bytes = list_bytes(list);
    let moved = moved_base(up, base, bytes);
    let written = writes_back && rn != 15 && keeps_base(arch, rn, list);
    let moves = transferred(arch, list);
    let jumps = has(moves, 15);
    let last = load_from(arch, s, bus, user, lowest(pre, up, base, bytes), moves);
    write_back(s, written, rn, moved);
    if jumps {
        load_r15(arch, s, user, last);
    }
    Stepped::Cost(Class::LoadMultiple(list.count_ones()).cost(arch, jumps))
}

/// What is stored of a register: the base as it is after the instruction where that is stored, and the base is written back.
#[inline(always)]
fn stored_value(s: &Registers, bank: Bank, rn: u8, written: bool, new_base: u32, r: u8) -> u32
    requires rn { rn < 16 }
    requires base { IsTrue written → rn < 15 }
    requires r { r < 16 }
    ensures { result ≡ stored_value s.now bank rn written new_base r }
{
    if written && r == rn && bank.place(r) == s.bank().place(rn) {
        new_base
    } else {
        s.get_late_in(bank, r)
    }
}

/// Stores the registers of a list from an address up, until a write is refused.
#[inline(always)]
fn store_list<B: Bus>(
    s: &Registers,
    bus: &mut B,
    bank: Bank,
    rn: u8,
    written: bool,
    new_base: u32,
    from: u32,
    list: u16,
) -> Option<Stop>
    requires rn { rn < 16 }
    requires base { IsTrue written → rn < 15 }
    ensures stop { result
        ≡ (perform B.memory (B.state bus.old) (writes from (map (stored_value s.now bank rn written new_base) (listed_registers list)))).stop }
    ensures state { B.state bus.new
        ≡ (perform B.memory (B.state bus.old) (writes from (map (stored_value s.now bank rn written new_base) (listed_registers list)))).state }
    ensures same { B.identity bus.new ≡ B.identity bus.old }
{
    let mut at = from;
    for r in 0..16_u8 {
        if has(list, r) {
            let value = stored_value(s, bank, rn, written, new_base, r);
            if let Some(stop) = bus.write(at, Width::Word, value) {
                return Some(stop);
            }
            at = at.wrapping_add(4);
        }
    }
    None
}

/// STM; registers are User mode's with `user` (ARM manual, A4.1 "STM (1)", "STM (2)").
#[inline]
pub fn store_multiple<B: Bus>(
    arch: Arch,
    s: &mut Registers,
    bus: &mut B,
    pre: bool,
    up: bool,
    user: bool,
    writes_back: bool,
    rn: u8,
    list: u16,
) -> Stepped
    requires { rn < 16 }
    ensures registers { s.new
        ≡ (carried_out B.memory arch s.old (B.state bus.old) (store_multiple_meaning arch s.old pre up user writes_back rn list)).registers }
    ensures state { B.state bus.new
        ≡ (carried_out B.memory arch s.old (B.state bus.old) (store_multiple_meaning arch s.old pre up user writes_back rn list)).state }
    ensures stepped { result
        ≡ (carried_out B.memory arch s.old (B.state bus.old) (store_multiple_meaning arch s.old pre up user writes_back rn list)).stepped }
    ensures same { B.identity bus.new ≡ B.identity bus.old }
{
    let base = s.get(rn);
    let bytes = list_bytes(list);
    let moved = moved_base(up, base, bytes);
    let written = writes_back && rn != 15;
    let bank = reached_bank(s, user);
    let new_base = written && stores_new_base(arch, rn, list);
    let from = lowest(pre, up, base, bytes);
    match store_list(
        s,
        bus,
        bank,
        rn,
        new_base,
        moved,
        from,
        transferred(arch, list),
    ) {
        Some(stop) => Stepped::Left(stop),
        None => {
            s.go_on();
            write_back(s, written, rn, moved);
            Stepped::Cost(Class::StoreMultiple(list.count_ones()).cost(arch, false))
        }
    }
}

/// LDM and STM.
#[inline]
pub fn multiple<B: Bus>(
    arch: Arch,
    s: &mut Registers,
    bus: &mut B,
    pre: bool,
    up: bool,
    user: bool,
    writes_back: bool,
    load: bool,
    rn: u8,
    list: u16,
) -> Stepped
    requires { rn < 16 }
    ensures registers { s.new
        ≡ (carried_out B.memory arch s.old (B.state bus.old) (multiple_meaning arch s.old pre up user writes_back load rn list)).registers }
    ensures state { B.state bus.new
        ≡ (carried_out B.memory arch s.old (B.state bus.old) (multiple_meaning arch s.old pre up user writes_back load rn list)).state }
    ensures stepped { result
        ≡ (carried_out B.memory arch s.old (B.state bus.old) (multiple_meaning arch s.old pre up user writes_back load rn list)).stepped }
    ensures same { B.identity bus.new ≡ B.identity bus.old }
{
    if load {
        load_multiple(arch, s, bus, pre, up, user, writes_back, rn, list)
    } else {
        store_multiple(arch, s, bus, pre, up, user, writes_back, rn, list)
    }
}
