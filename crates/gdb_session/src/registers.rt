//! Registers by gdb's numbers.

ghost use Rattle.std.specs.Prelude.{◌≤◌};

/// Where a register stands in the order of `Deck::registers`, by its number and a mode's: r0 to r15 of that mode.
fn present(number: u32, mode: u32) -> u32 {
    match number {
        8..=12 => second_of(number, mode),
        13 => stack_of(mode),
        14 => stack_of(mode) + 1,
        15 => 30,
        _ => number,
    }
}

/// Where one of r8 to r12 of a mode stands.
fn second_of(number: u32, mode: u32) -> u32
    requires { number ≤ 12 }
{
    if mode == 0x11 { number + 5 } else { number }
}

/// Where r13 of a mode stands; r14 is the next one.
fn stack_of(mode: u32) -> u32
    ensures { result ≤ 28 }
{
    match mode {
        0x11 => 20,
        0x13 => 22,
        0x17 => 24,
        0x12 => 26,
        0x1b => 28,
        _ => 18,
    }
}

/// Where a banked register stands, by its number from 0: r8 to r14 of User, r8 to r14 of FIQ, r13 and r14 of Supervisor and of IRQ, and SPSR of FIQ,
/// Supervisor and IRQ.
fn banked(number: u32) -> Option<u32> {
    match number {
        0..=4 => Some(number + 8),
        5 | 6 => Some(number + 13),
        7..=11 => Some(number + 6),
        12 | 13 => Some(number + 8),
        14 | 15 => Some(number + 8),
        16 | 17 => Some(number + 10),
        18 => Some(32),
        19 => Some(33),
        20 => Some(35),
        _ => None,
    }
}

/// Where a register stands in the order of `Deck::registers`, by gdb's number and CPSR; None where there is no such register.
fn place_of(number: u32, cpsr: u32) -> Option<u32> {
    match number {
        0..=15 => Some(present(number, cpsr % 32)),
        25 => Some(31),
        26..=46 => banked(number - 26),
        _ => None,
    }
}

/// A register by gdb's number, of all of them.
pub fn register(all: &[u32; 37], number: u32) -> Option<u32> {
    let place = place_of(number, all[31])? as usize;
    if place < 37 { Some(all[place]) } else { None }
}
