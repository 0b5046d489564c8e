//! Which ports show how far geometry is, give it something to do, or make it heard.

ghost use Rattle.std.specs.Prelude.{◌≡◌};
ghost use Rattle.ds_base.specs.declared.processors.Proc.TheVariants.{Nine};
ghost use Rattle.ds_map.specs.ObservedPorts.{is_observed_port, is_observed_register, is_observed_slot};
ghost use Rattle.ds_ports.specs.RegisterMap.{slot_of};
ghost use Rattle.gx_fifo.specs.GxPorts.{is_engine_port};

use ds_base::Proc;
use ds_ports::{DMA0FILL, Register, slot_of};
use gx_fifo::{DISP3DCNT, ENGINE_PAST, GXFIFO};

/// Whether a register is geometry's, or a DMA channel's control.
fn is_observed_register(register: Register) -> bool
    ensures { result ≡ is_observed_register register }
{
    matches!(
        register,
        Register::GxWord | Register::GxCommand | Register::Dmacnt
    )
}

/// Whether a byte of such a register of ARM9's stands at an offset.
#[inline(never)]
fn is_observed_byte(at: u32) -> bool
    ensures { result ≡ is_observed_slot (slot_of Nine at) }
{
    match slot_of(Proc::Nine, at) {
        Some(slot) => is_observed_register(slot.register),
        None => false,
    }
}

/// Whether an offset is among geometry's ports.
#[inline(always)]
fn is_engine_port(at: u32) -> bool
    ensures { result ≡ is_engine_port at }
{
    at >= GXFIFO && at < ENGINE_PAST
}

/// Whether a port of ARM9's is of such a register, by its offset from 4000000h, or among geometry's. (Our choice of which.) Those that are
/// read most are below all of these, or between them.
#[inline(always)]
#[tactic(auto, using(crate::proofs::ObservedPorts::unobserved_below, crate::proofs::ObservedPorts::observed_above))]
pub fn is_observed_port(at: u32) -> bool
    ensures { result ≡ is_observed_port at }
{
    if at < DISP3DCNT {
        return false;
    }
    if at < DMA0FILL {
        return is_observed_byte(at);
    }
    is_engine_port(at)
}
