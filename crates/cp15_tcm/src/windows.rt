//! Where the tightly coupled memories answer.

ghost use Rattle.std.specs.Prelude.{◌≡◌, ◌<◌, ◌≤◌, ◌*◌, ◌^◌};
ghost use Rattle.ds_base.specs.Bits.{bit};
ghost use Rattle.cp15_tcm.specs.Registers.{Cp15State};
ghost use Rattle.cp15_tcm.specs.TightlyCoupled.{answers, covered, dtcm_base};
ghost use Rattle.cp15_tcm.specs.Windows.{itcm_long, dtcm_long, main_long, windows_of};

/// How many addresses each memory covers, for reads and fetches and for writes, and where DTCM begins; 0 where a memory doesn't answer. And how many
/// addresses of main memory from its first one on lie past both, for fetches, reads and writes.
#[derive(Clone, Copy)]
pub(crate) struct Windows {
    pub(crate) itcm_read: u64,
    pub(crate) itcm_write: u64,
    pub(crate) dtcm_base: u32,
    pub(crate) dtcm_read: u64,
    pub(crate) dtcm_write: u64,
    pub(crate) main_fetch: u32,
    pub(crate) main_read: u32,
    pub(crate) main_write: u32,
}

/// The first address of main memory. (GBATEK, "DS Memory Map"; so is the last.)
pub(crate) const MAIN_FIRST: u32 = 0x0200_0000;

/// The last address of main memory.
const MAIN_LAST: u32 = 0x02FF_FFFF;

/// 512 shifted left.
#[tactic(auto, using(crate::proofs::Covering::no_wrap))]
fn shifted(count: u32) -> u64
    requires { count < 32 }
    ensures { result ≡ 512 * 2 ^ count }
{
    512 << count
}

/// How many addresses a region register covers.
fn covered(register: u32) -> u64
    ensures { result ≡ covered register }
{
    let addresses = shifted((register >> 1) & 31);
    if addresses < 1 << 32 {
        addresses
    } else {
        1 << 32
    }
}

/// Whether a memory answers.
fn answers(on: bool, load_mode: bool, writing: bool) -> bool
    ensures { result ≡ answers on load_mode writing }
{
    on && (writing || !load_mode)
}

/// How many addresses ITCM covers.
fn itcm_long(control: u32, itcm: u32, writing: bool) -> u64
    ensures { result ≡ itcm_long (record { control = control; dtcm = 0; itcm = itcm }) writing }
{
    if answers((control >> 18) & 1 == 1, (control >> 19) & 1 == 1, writing) {
        covered(itcm)
    } else {
        0
    }
}

/// How many DTCM covers, up to the last address.
fn dtcm_long(control: u32, dtcm: u32, writing: bool) -> u64
    ensures { result ≡ dtcm_long (record { control = control; dtcm = dtcm; itcm = 0 }) writing }
{
    if answers((control >> 16) & 1 == 1, (control >> 17) & 1 == 1, writing) {
        covered(dtcm).min((1 << 32) - base(dtcm) as u64)
    } else {
        0
    }
}

/// DTCM's first address.
fn base(dtcm: u32) -> u32
    ensures { result ≡ dtcm_base dtcm }
{
    dtcm >> 12 << 12
}

/// How many addresses of main memory from its first one on lie past both memories, where they cover so many addresses and DTCM begins at a base.
fn main_long(itcm: u64, base: u32, dtcm: u64) -> u32
    requires { dtcm ≤ 2 ^ 32 }
    ensures { result ≡ main_long itcm base dtcm }
{
    if itcm > MAIN_FIRST as u64 {
        return 0;
    }
    if dtcm == 0 || base > MAIN_LAST || base as u64 + dtcm <= MAIN_FIRST as u64 {
        return MAIN_LAST - MAIN_FIRST + 1;
    }
    base.saturating_sub(MAIN_FIRST)
}

impl Windows {
    /// The windows by CP15's kept numbers.
    pub(crate) fn new(control: u32, dtcm: u32, itcm: u32) -> Windows
        ensures { result ≡ windows_of (record { control = control; dtcm = dtcm; itcm = itcm }) }
    {
        let itcm_read = itcm_long(control, itcm, false);
        let itcm_write = itcm_long(control, itcm, true);
        let dtcm_base = base(dtcm);
        let dtcm_read = dtcm_long(control, dtcm, false);
        let dtcm_write = dtcm_long(control, dtcm, true);
        Windows {
            itcm_read,
            itcm_write,
            dtcm_base,
            dtcm_read,
            dtcm_write,
            main_fetch: main_long(itcm_read, dtcm_base, 0),
            main_read: main_long(itcm_read, dtcm_base, dtcm_read),
            main_write: main_long(itcm_write, dtcm_base, dtcm_write),
        }
    }
}
