//! Ports of which a read changes no unit and shows nothing of geometry: loads from them are taken as those of RAM are. Programs that wait for
//! something make them again and again.

ghost use Rattle.std.specs.Prelude.{◌≡◌, true};
ghost use Rattle.arm_ops.specs.Meanings.{is_ram};
ghost use Rattle.ds_machine.specs.SteadyPorts as ports;

use arm_ops::Near;
use ds_base::{Proc, Width};
use ds_map::{NineView, SevenView};
use ds_places::{PORTS_FIRST, is_main, is_own};
use ds_ports::DMA0FILL;
use gx_fifo::{DISP3DCNT, ENGINE_PAST, GXFIFO};

/// Whether no port is observed at an offset from 4000000h, nor near it: those that are lie from DISP3DCNT up to DMA's last control, and from GXFIFO
/// on. It is asked at each load, so it makes no call.
#[inline(always)]
fn is_apart(at: u32) -> bool
    ensures { result ≡ ports.is_apart at }
{
    at < DISP3DCNT || (at >= DMA0FILL && (at < GXFIFO || at >= ENGINE_PAST))
}

/// Whether an address names ports of which a read changes nothing, and isn't observed: from 4000000h to 40FFFFFh all but those of which one may
/// be.
#[inline(always)]
fn is_steady_port(at: u32) -> bool
    ensures { result ≡ ports.is_steady_port at }
{
    at >= PORTS_FIRST && at < PORTS_FIRST + 0x10_0000 && is_apart(at - PORTS_FIRST)
}

/// Whether an address is of ARM7's own work RAM or of main memory.
#[inline(always)]
#[tactic(auto, using(crate::proofs::RamAccesses::main_region_is_ram, crate::proofs::RamAccesses::own_region_is_ram))]
fn is_near_seven(at: u32) -> bool
    ensures { result ≡ true → is_ram at ≡ true }
{
    is_own(at) || is_main(at)
}

/// Loads from them are near.
pub enum SteadyPorts {}

impl Near<NineView<'_>> for SteadyPorts {
    ghost near = { ports.is_steady_port };

    #[inline(always)]
    fn is_near(at: u32) -> bool
        ensures { result ≡ ports.is_steady_port at }
    {
        is_steady_port(at)
    }

    #[inline(always)]
    #[tactic(auto, using(crate::proofs::RamAccesses::main_is_ram))]
    fn read_near(bus: &mut NineView<'_>, at: u32, width: Width) -> Option<u32> {
        if !bus.cp.is_main_read(at) {
            return None;
        }
        let given = bus.map.main_given(Proc::Nine, at, width);
        bus.waits = bus.waits.wrapping_add(given.waits);
        Some(given.number)
    }

    #[inline(always)]
    #[tactic(auto, using(crate::proofs::RamAccesses::main_is_ram))]
    fn write_near(bus: &mut NineView<'_>, at: u32, width: Width, value: u32) -> bool {
        if !bus.cp.is_main_write(at) {
            return false;
        }
        let waits = bus.map.put_main(Proc::Nine, at, width, value);
        bus.waits = bus.waits.wrapping_add(waits);
        true
    }
}

impl Near<SevenView<'_>> for SteadyPorts {
    ghost near = { ports.is_steady_port };

    #[inline(always)]
    fn is_near(at: u32) -> bool
        ensures { result ≡ ports.is_steady_port at }
    {
        is_steady_port(at)
    }

    #[inline(always)]
    fn read_near(bus: &mut SevenView<'_>, at: u32, width: Width) -> Option<u32> {
        if !is_near_seven(at) {
            return None;
        }
        let Some(given) = bus.map.near_given(Proc::Seven, at, width) else {
            return None;
        };
        bus.waits = bus.waits.wrapping_add(given.waits);
        Some(given.number)
    }

    #[inline(always)]
    #[tactic(auto, using(ds_map::proofs::Guards::seven_refusal, ds_map::proofs::Guards::seven_written))]
    fn write_near(bus: &mut SevenView<'_>, at: u32, width: Width, value: u32) -> bool {
        if !is_near_seven(at) {
            return false;
        }
        let Some(waits) = bus.map.put_near(Proc::Seven, at, width, value) else {
            return false;
        };
        bus.waits = bus.waits.wrapping_add(waits);
        true
    }
}
