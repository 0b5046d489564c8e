//! What gdb is told of the registers.

use gdb_packets::Answer;
use std::alloc::AllocError;

/// The names of the banked registers, by gdb's numbers from 26 on.
const BANKED: [&[u8]; 21] = [
    b"r8_usr",
    b"r9_usr",
    b"r10_usr",
    b"r11_usr",
    b"r12_usr",
    b"r13_usr",
    b"r14_usr",
    b"r8_fiq",
    b"r9_fiq",
    b"r10_fiq",
    b"r11_fiq",
    b"r12_fiq",
    b"r13_fiq",
    b"r14_fiq",
    b"r13_svc",
    b"r14_svc",
    b"r13_irq",
    b"r14_irq",
    b"spsr_fiq",
    b"spsr_svc",
    b"spsr_irq",
];

/// The registers of the present mode but the first thirteen.
const LAST: [&[u8]; 4] = [
    b"<reg name=\"sp\" bitsize=\"32\" type=\"data_ptr\"/>",
    b"<reg name=\"lr\" bitsize=\"32\"/>",
    b"<reg name=\"pc\" bitsize=\"32\" type=\"code_ptr\"/>",
    b"<reg name=\"cpsr\" bitsize=\"32\" regnum=\"25\"/>",
];

/// What stands before them.
const HEAD: [&[u8]; 3] = [
    b"<?xml version=\"1.0\"?><!DOCTYPE target SYSTEM \"gdb-target.dtd\">",
    b"<target version=\"1.0\"><architecture>armv5te</architecture>",
    b"<feature name=\"org.gnu.gdb.arm.core\">",
];

/// Puts the thirteen first registers.
fn put_first(into: &mut Answer) -> Result<(), AllocError> {
    for number in 0u64..13 {
        into.put(b"<reg name=\"r")?;
        into.put_number(number)?;
        into.put(b"\" bitsize=\"32\" type=\"uint32\"/>")?;
    }
    Ok(())
}

/// Puts a banked register.
fn put_banked(into: &mut Answer, name: &[u8], number: u64) -> Result<(), AllocError> {
    into.put(b"<reg name=\"")?;
    into.put(name)?;
    into.put(b"\" bitsize=\"32\" regnum=\"")?;
    into.put_number(number)?;
    into.put(b"\" group=\"banked\" save-restore=\"no\"/>")
}

/// Puts texts, one behind the other.
fn put_all(into: &mut Answer, texts: &[&[u8]]) -> Result<(), AllocError> {
    for text in texts {
        into.put(text)?;
    }
    Ok(())
}

/// Puts the description of both processors' registers: those of the present mode, and the banked ones in a group of their own. (The GDB manual,
/// "Target Descriptions", "ARM Features".)
pub fn put_target(into: &mut Answer) -> Result<(), AllocError> {
    put_all(into, &HEAD)?;
    put_first(into)?;
    put_all(into, &LAST)?;
    into.put(b"</feature><feature name=\"nds.banked\">")?;
    for place in 0..21usize {
        put_banked(into, BANKED[place], place as u64 + 26)?;
    }
    into.put(b"</feature></target>")
}
