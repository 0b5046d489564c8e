//! Interrupts.

ghost use Rattle.std.specs.Prelude.{◌≡◌};
ghost use Rattle.ds_base.specs.Interrupts.{interrupt_bit};

/// An interrupt of either processor (GBATEK, "DS Interrupts", 4000210h and 4000214h). Those that nothing here raises aren't listed:
/// 7 SIO, 13 GBA slot, 20 card line, 22 to 24 hinge, SPI and wireless.
#[derive(Clone, Copy, PartialEq, Eq)]
pub enum Interrupt {
    /// Bit 0: line 192 begins.
    VBlank,
    /// Bit 1: a line's H-blank.
    HBlank,
    /// Bit 2: the line that DISPSTAT chooses begins.
    VCount,
    /// Bit 3: timer 0 overflows.
    Timer0,
    /// Bit 4: timer 1 overflows.
    Timer1,
    /// Bit 5: timer 2 overflows.
    Timer2,
    /// Bit 6: timer 3 overflows.
    Timer3,
    /// Bit 8: DMA channel 0 ends.
    Dma0,
    /// Bit 9: DMA channel 1 ends.
    Dma1,
    /// Bit 10: DMA channel 2 ends.
    Dma2,
    /// Bit 11: DMA channel 3 ends.
    Dma3,
    /// Bit 12: the keys that KEYCNT chooses are pressed.
    Keys,
    /// Bit 16: the other processor asks by IPCSYNC.
    IpcSync,
    /// Bit 17: the send FIFO becomes empty.
    SendFifoEmpty,
    /// Bit 18: the receive FIFO stops being empty.
    ReceiveFifoNotEmpty,
    /// Bit 19: a card transfer ends.
    CardTransfer,
    /// Bit 21: GXSTAT's condition holds; a level of ARM9's alone.
    GeometryFifo,
}

impl Interrupt {
    /// The interrupt's bit, in its place in IE and IF.
    pub const fn bit(self) -> u32
        ensures { result ≡ interrupt_bit self }
    {
        match self {
            Interrupt::VBlank => 1 << 0,
            Interrupt::HBlank => 1 << 1,
            Interrupt::VCount => 1 << 2,
            Interrupt::Timer0 => 1 << 3,
            Interrupt::Timer1 => 1 << 4,
            Interrupt::Timer2 => 1 << 5,
            Interrupt::Timer3 => 1 << 6,
            Interrupt::Dma0 => 1 << 8,
            Interrupt::Dma1 => 1 << 9,
            Interrupt::Dma2 => 1 << 10,
            Interrupt::Dma3 => 1 << 11,
            Interrupt::Keys => 1 << 12,
            Interrupt::IpcSync => 1 << 16,
            Interrupt::SendFifoEmpty => 1 << 17,
            Interrupt::ReceiveFifoNotEmpty => 1 << 18,
            Interrupt::CardTransfer => 1 << 19,
            Interrupt::GeometryFifo => 1 << 21,
        }
    }
}
