//! What boot copies.

ghost use Rattle.std.specs.Prelude.{◌≡◌, ◌+◌, ◌<◌, ◌≤◌, length};
ghost use Rattle.ds_places.specs.AddressTables.{main_region, ports_region};
ghost use Rattle.ds_machine.specs.Boots.{copied, stored};
ghost use Rattle.ds_machine.specs.Booted.{with_header, with_image};

use crate::parts::Parts;
use ds_base::{Proc, Tick, Width};
use ds_header::Cart;

/// The first bytes of the header, and where boot leaves them in main memory. (GBATEK, "DS Cartridge Header".)
const HEADER_BYTES: usize = 0x170;

const HEADER_PLACE: u32 = 0x027F_FE00;

impl Parts {
    /// Stores a byte in RAM where a processor sees it, at tick 0.
    #[tactic(auto, using(crate::proofs::RamAccesses::ram_unguarded))]
    fn store(&mut self, proc: Proc, at: u32, byte: u8)
        requires low { main_region.first ≤ at }
        requires high { at < ports_region.first }
        ensures { self.new ≡ stored proc self.old at byte }
    {
        let _ = self
            .map
            .put(&mut self.io, proc, Tick(0), at, Width::Byte, byte as u32);
    }

    /// Copies bytes to where a processor sees them in RAM, from an address on.
    fn copy(&mut self, proc: Proc, at: u32, bytes: &[u8])
        requires low { main_region.first ≤ at }
        requires high { at + length bytes.now ≤ ports_region.first }
        ensures { self.new ≡ copied proc self.old at bytes.now }
    {
        for (i, byte) in bytes.iter().enumerate() {
            self.store(proc, at + i as u32, *byte);
        }
    }

    /// Copies the image of a processor to where its header says. That is RAM, so no unit changes.
    pub fn copy_image(&mut self, cart: &Cart, proc: Proc)
        ensures copied { self.new ≡ with_image proc self.old cart.now }
        ensures units { self.new.io ≡ self.old.io }
    {
        self.copy(proc, cart.place(proc), cart.image(proc));
    }

    /// Leaves the header in main memory. No unit changes.
    pub fn copy_header(&mut self, cart: &Cart)
        ensures copied { self.new ≡ with_header self.old cart.now }
        ensures units { self.new.io ≡ self.old.io }
    {
        let file = cart.bytes();
        self.copy(Proc::Nine, HEADER_PLACE, &file[..HEADER_BYTES]);
    }
}
