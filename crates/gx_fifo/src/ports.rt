//! The table of ports.

ghost use Rattle.std.specs.Prelude.{◌≡◌};
ghost use Rattle.gx_fifo.specs.GxPorts.{gx_port};

/// DISP3DCNT's offset from 4000000h.
pub const DISP3DCNT: u32 = 0x060;

/// GXFIFO's. The engine's other ports stand behind it.
pub const GXFIFO: u32 = 0x400;

/// Where the engine's ports end: from GXFIFO up to here no other unit has any.
pub const ENGINE_PAST: u32 = 0x700;

/// A port of the geometry engine, a whole word (GBATEK, "DS I/O Maps"). Numbers count words from the first one of a register.
#[derive(Clone, Copy)]
pub enum GxPort {
    /// DISP3DCNT.
    Display,
    /// GXFIFO, packed words and their parameters.
    Fifo,
    /// A command's own port, by the command's code.
    Direct(u8),
    /// GXSTAT.
    Status,
    /// RAM_COUNT.
    Lengths,
    /// POS_RESULT, four words.
    Position(u8),
    /// VEC_RESULT, three halves in two words.
    Vector(u8),
    /// CLIPMTX_RESULT, sixteen words.
    Clip(u8),
    /// VECMTX_RESULT, nine words.
    VectorMatrix(u8),
    /// None of these.
    Unlisted,
}

/// The port of an offset from 4000000h.
#[inline(always)]
#[tactic(auto, unfolding(crate::specs::GxPorts::gx_port))]
pub fn port_at(at: u32) -> GxPort
    ensures { result ≡ gx_port at }
{
    match at {
        DISP3DCNT..=0x063 => GxPort::Display,
        GXFIFO..=0x43F => GxPort::Fifo,
        0x440..=0x5FF => GxPort::Direct((0x10 + (at - 0x440) / 4) as u8),
        0x600..=0x603 => GxPort::Status,
        0x604..=0x607 => GxPort::Lengths,
        0x620..=0x62F => GxPort::Position(((at - 0x620) / 4) as u8),
        0x630..=0x637 => GxPort::Vector(((at - 0x630) / 4) as u8),
        0x640..=0x67F => GxPort::Clip(((at - 0x640) / 4) as u8),
        0x680..=0x6A3 => GxPort::VectorMatrix(((at - 0x680) / 4) as u8),
        _ => GxPort::Unlisted,
    }
}
