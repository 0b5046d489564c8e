//! The bytes of the card's ports, by their offsets above 4000000h.

ghost use Rattle.std.specs.Prelude.{◌≡◌, ◌≤◌, ◌+◌, ◌<◌, ◌^◌, slice_index_or, true};
ghost use Rattle.ds_base.specs.Numbers.{aligned_down, number_at, width_bytes};
ghost use Rattle.ds_base.specs.declared.memories.Width.TheVariants.{Half, Word};
ghost use Rattle.ds_card.specs.CardPorts.{with_byte, overwritten, kept_auxspicnt, kept_romctrl, shown_romctrl, starts_at, words_of_size, block_words};
ghost use Rattle.ds_card.specs.Saved.{keeps_auxspicnt};

use ds_base::Width;

/// Where AUXSPICNT stands, two bytes.
pub const AUXSPICNT: u32 = 0x1A0;
/// Where ROMCTRL stands, four bytes.
pub const ROMCTRL: u32 = 0x1A4;
/// Where the eight command bytes stand.
pub const COMMAND: u32 = 0x1A8;
/// Where words are taken.
pub const DATA: u32 = 0x10_0010;

fn put_byte(port: &mut [u8], base: u32, place: u32, byte: u8)
    ensures { port.new ≡ with_byte base place byte port.old }
{
    if place >= base && ((place - base) as usize) < port.len() {
        port[(place - base) as usize] = byte;
    }
}

/// An offset, aligned down to an access's width.
pub fn aligned(width: Width, at: u32) -> u32
    ensures aligned { result ≡ aligned_down width at }
    ensures room { result + width_bytes width ≤ 2 ^ 32 }
{
    match width {
        Width::Byte => at,
        Width::Half => at - at % 2,
        Width::Word => at - at % 4,
    }
}

/// An access writes those bytes of a port that it covers.
pub fn overwrite(port: &mut [u8], base: u32, width: Width, at: u32, value: u32)
    requires { at + width_bytes width ≤ 2 ^ 32 }
    ensures { port.new ≡ overwritten base port.old width at value }
{
    match width {
        Width::Byte => put_byte(port, base, at, (value % 256) as u8),
        Width::Half => {
            put_byte(port, base, at, (value % 256) as u8);
            put_byte(port, base, at + 1, (value / 256 % 256) as u8);
        }
        Width::Word => {
            put_byte(port, base, at, (value % 256) as u8);
            put_byte(port, base, at + 1, (value / 256 % 256) as u8);
            put_byte(port, base, at + 2, (value / 65536 % 256) as u8);
            put_byte(port, base, at + 3, (value / 16777216 % 256) as u8);
        }
    }
}

/// The number that the bytes of a port stand for.
pub fn word(port: &[u8; 4]) -> u32
    ensures { result ≡ number_at Word port.now 0 }
{
    u32::from_le_bytes(*port)
}

/// How many words a transfer has, by ROMCTRL.
pub fn block_words(port: &[u8; 4]) -> u32
    ensures words { result ≡ block_words port.now }
    ensures most { result ≤ 4096 }
{
    match word(port) / 16777216 % 8 {
        0 => 0,
        1 => 128,
        2 => 256,
        3 => 512,
        4 => 1024,
        5 => 2048,
        6 => 4096,
        _ => 1,
    }
}

/// Bits that AUXSPICNT doesn't keep become 0.
#[tactic(auto, using(crate::proofs::KeptBits::auxspicnt_kept))]
pub fn keep_auxspicnt(port: &mut [u8; 2])
    ensures value { port.new ≡ kept_auxspicnt port.old }
    ensures kept { keeps_auxspicnt 0 port.new ≡ true }
{
    port[0] = 0;
    port[1] = port[1] / 32 * 32;
}

/// Bits that ROMCTRL doesn't keep become 0.
pub fn keep_romctrl(port: &mut [u8; 4])
    ensures { port.new ≡ kept_romctrl port.old }
{
    port[2] = port[2] % 128;
    port[3] = port[3] % 128;
}

/// ROMCTRL with the bits that show how a transfer stands.
pub fn shown_romctrl(port: &[u8; 4], ready: bool, busy: bool) -> [u8; 4]
    requires { (slice_index_or port.now 2 0 < 128) × (slice_index_or port.now 3 0 < 128) }
    ensures { result ≡ shown_romctrl port.now ready busy }
{
    let mut shown = *port;
    shown[2] = shown[2] + if ready { 128 } else { 0 };
    shown[3] = shown[3] + if busy { 128 } else { 0 };
    shown
}

/// Whether a write that left a port's bytes so starts a transfer: it covers the top byte, and bit 31 is set.
pub fn starts(width: Width, at: u32, port: &[u8; 4]) -> bool
    requires { at + width_bytes width ≤ 2 ^ 32 }
    ensures { result ≡ starts_at width at port.now }
{
    at <= ROMCTRL + 3 && ROMCTRL + 3 - at < width.bytes() && word(port) >> 31 & 1 == 1
}
