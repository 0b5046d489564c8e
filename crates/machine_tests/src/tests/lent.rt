//! A machine with an empty slot, which is lent its cartridge.

use super::told::file;
use ds_base::Keys;
use ds_header::Cart;
use ds_machine::{Done, Machine, running_laws};
use std::alloc::{AllocError, Global};

/// Whether the first step of a machine is taken with a cartridge that is lent to it.
fn steps(alloc: Global, cart: &Cart) -> Result<bool, AllocError> {
    let mut machine = Machine::new(alloc, cart, Keys::new(alloc))?;
    running_laws();
    let due = machine.due();
    if due.tick.0 > 0x10_0000 {
        return Ok(false);
    }
    Ok(matches!(machine.step(cart, due.rank), Done::Made))
}

/// The same of two programs.
fn steps_loops(alloc: Global) -> Result<bool, AllocError> {
    match Cart::read(file(alloc, &[0xEAFF_FFFE], &[0xEAFF_FFFE])?) {
        Ok(cart) => steps(alloc, &cart),
        Err(_) => Ok(false),
    }
}

#[test]
fn a_cartridge_is_lent(rt: HostRuntime) -> Result<(), AllocError> {
    let steps = steps_loops(rt.alloc())?;
    assert!(rt; steps);
    Ok(())
}
