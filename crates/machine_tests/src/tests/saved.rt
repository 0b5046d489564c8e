//! A booted machine in bytes: 326 of the processors and CP15, 5,017,609 of the memories, 209 of the small units, 336 of the DMA channels and their
//! fill words, 393,425 of the display, 4,676 of geometry with empty lists and nothing waiting, and 29 of the card.

ghost use Rattle.std.specs.Prelude.{◌<◌, ℕ, slice_index};

use super::told::file;
use ds_base::{Keys, Tick};
use ds_header::Cart;
use ds_machine::Machine;
use ds_state::{Packer, Unpacked, Unpacker};
use std::alloc::{AllocError, Global};

/// How many bytes there are, and where some of their fields begin.
const COUNT: usize = 5_416_610;

const HALTED_NINE: usize = 148;

const DUE_NINE: usize = 149;

const HALTED_SEVEN: usize = 305;

const DUE_SEVEN: usize = 306;

const WRAMCNT: usize = 5_017_935;

const IE_NINE: usize = 5_017_937;

const IE_SEVEN: usize = 5_017_946;

const IF_SEVEN: usize = 5_017_950;

const PRESSED: usize = 5_018_138;

const CONTROL_OF_NINE: usize = 5_018_152;

const LEFT_OF_NINE: usize = 5_018_164;

const RUNNING_OF_SEVEN: usize = 5_018_443;

const SELECTOR: usize = 5_416_564;

const WAITING: usize = 5_416_565;

const CARD_DUE: usize = 5_416_602;

/// Does nothing; its contract tells that the elements of a slice of bytes are bytes.
fn are_narrow(bytes: &[u8])
    ensures { (i : ℕ) → slice_index bytes.now i < 256 }
{
    let _ = bytes;
}

fn packed(alloc: Global, machine: &Machine) -> Result<Vec<u8>, AllocError> {
    let mut packer = Packer::new(alloc);
    machine.pack(&mut packer)?;
    Ok(packer.finish())
}

/// So many bytes, where those of a machine are the first of these.
fn place_of(alloc: Global, machine: &Machine, some: &[u8], place: u32) -> Result<u32, AllocError> {
    let again = packed(alloc, machine)?;
    let (front, _) = some.split_at(some.len().min(again.len()));
    Ok(if again.as_slice() == front { place } else { 98 })
}

/// How many bytes were taken, where they are those of what is taken; or 10,000,000 and where a field fails. (A machine is held where it is made and
/// let go alone: a test that held one beside its assertion would take minutes to prove.)
fn taken(alloc: Global, cart: &Cart, bytes: &[u8], at: u64) -> Result<u32, AllocError> {
    let (some, _) = bytes.split_at(bytes.len().min(0x100_0000));
    are_narrow(some);
    let mut from = Unpacker::new(some);
    let at = Tick(at % 0x1_0000);
    match Machine::unpack(
        alloc,
        cart.bytes(),
        Keys::new(alloc),
        [0, 0, 0],
        &mut from,
        at,
    ) {
        Ok(machine) => place_of(alloc, &machine, some, from.place()),
        Err(Unpacked::Bad { offset }) => Ok(offset.saturating_add(10_000_000)),
        Err(Unpacked::NoMemory) => Ok(97),
    }
}

/// Bytes that are changed to others, how many bytes there are, the tick, and what comes.
type Row = ([(usize, u8); 4], usize, u64, u32);

const NONE: (usize, u8) = (COUNT, 7);

#[rattlefmt::skip]
const ROWS: [Row; 16] = [
    // all of it, and a byte behind it
    ([NONE, NONE, NONE, NONE], COUNT, 0, 5_416_610), ([NONE, NONE, NONE, NONE], COUNT + 1, 0, 5_416_610),
    // cut
    ([NONE, NONE, NONE, NONE], COUNT - 1, 0, 15_416_602), ([NONE, NONE, NONE, NONE], 0, 0, 10_000_000),
    // no flag; a due tick while halted; one that is too late
    ([(HALTED_NINE, 2), NONE, NONE, NONE], COUNT, 0, 10_000_148), ([(HALTED_NINE, 1), (DUE_NINE, 1), NONE, NONE], COUNT, 0, 10_000_149),
    ([(DUE_NINE + 4, 1), (DUE_NINE, 1), NONE, NONE], COUNT, 0, 10_000_149),
    // WRAMCNT, and thirteen keys
    ([(WRAMCNT, 4), NONE, NONE, NONE], COUNT, 0, 15_017_935), ([(PRESSED + 1, 0x10), NONE, NONE, NONE], COUNT, 0, 15_018_138),
    // ARM7 halted, with a bit in its IE and IF both
    ([(HALTED_SEVEN, 1), (IE_SEVEN, 1), (IF_SEVEN, 1), NONE], COUNT, 0, 15_017_950),
    // ARM9 halted, which hears that the geometry FIFO is empty
    ([(HALTED_NINE, 1), (IE_NINE + 2, 0x20), (SELECTOR, 2), NONE], COUNT, 0, 15_416_565),
    // a channel that waits for the geometry FIFO though it is empty
    ([(CONTROL_OF_NINE + 3, 0xB8), (LEFT_OF_NINE, 1), NONE, NONE], COUNT, 0, 15_416_565),
    // both are due before tick 100; ARM9 alone; none
    ([NONE, NONE, NONE, NONE], COUNT, 100, 15_018_443), ([(DUE_SEVEN, 100), NONE, NONE, NONE], COUNT, 100, 15_416_565),
    ([(DUE_SEVEN, 100), (DUE_NINE, 100), NONE, NONE], COUNT, 100, 5_416_610),
    // a card that is due without a transfer
    ([(CARD_DUE, 0), NONE, NONE, NONE], COUNT, 0, 15_416_602),
];

/// Bytes with changes, and one more behind them.
fn changed(alloc: Global, bytes: &[u8], changes: &[(usize, u8); 4]) -> Result<Vec<u8>, AllocError> {
    let mut other = Vec::with_capacity(alloc, bytes.len().saturating_add(1))?;
    other.extend_from_slice(bytes)?;
    other.push(7)?;
    for (at, byte) in changes {
        if *at < other.len() {
            other[*at] = *byte;
        }
    }
    Ok(other)
}

/// The first row that doesn't come so, and what came.
fn wrong(alloc: Global, cart: &Cart, bytes: &[u8]) -> Result<(usize, u32), AllocError> {
    for (number, (changes, count, tick, wanted)) in ROWS.iter().enumerate() {
        let other = changed(alloc, bytes, changes)?;
        let (front, _) = other.as_slice().split_at(other.len().min(*count));
        let got = taken(alloc, cart, front, *tick)?;
        if got != *wanted {
            return Ok((number, got));
        }
    }
    Ok((ROWS.len(), 0))
}

/// The bytes of a machine at boot.
fn booted(alloc: Global, cart: &Cart) -> Result<Vec<u8>, AllocError> {
    let machine = Machine::new(alloc, cart, Keys::new(alloc))?;
    packed(alloc, &machine)
}

/// How many bytes a machine at boot has, and the first row that doesn't come so, with what came.
fn tried(alloc: Global, cart: &Cart) -> Result<(usize, usize, u32), AllocError> {
    let bytes = booted(alloc, cart)?;
    let (number, came) = wrong(alloc, cart, bytes.as_slice())?;
    Ok((bytes.len(), number, came))
}

/// The same of two programs; no bytes where they make no cartridge.
fn tried_loops(alloc: Global) -> Result<(usize, usize, u32), AllocError> {
    match Cart::read(file(alloc, &[LOOP], &[LOOP])?) {
        Ok(cart) => tried(alloc, &cart),
        Err(_) => Ok((0, 0, 0)),
    }
}

/// A branch to itself.
const LOOP: u32 = 0xEAFF_FFFE;

#[test]
fn a_booted_machine_in_bytes(rt: HostRuntime) -> Result<(), AllocError> {
    let (count, number, came) = tried_loops(rt.alloc())?;
    assert!(rt;
        count == COUNT && number == ROWS.len(),
        "{count} bytes, row {number}: {came}"
    );
    Ok(())
}
