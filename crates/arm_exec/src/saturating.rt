//! QADD, QSUB, QDADD, QDSUB, and the Q flag.

ghost use Rattle.std.specs.Prelude.{◌≡◌, ◌<◌, []};
ghost use Rattle.arm_core.specs.Effects.{cost_of};
ghost use Rattle.arm_core.specs.Saturating.{saturating_meaning, with_lost};

use arm_core::{Class, Registers, saturating_result};
use ds_base::Arch;

/// Sets Q where a result was lost; otherwise it stays (ARM manual, A2.5.3 "The Q flag").
#[inline(always)]
pub(crate) fn set_lost(s: &mut Registers, lost: bool)
    ensures { s.new ≡ with_lost lost s.old }
{
    if lost {
        s.set_cpsr(s.cpsr() | 0x0800_0000);
    }
}

/// QADD, QSUB (`subtract`), QDADD (`double`) and QDSUB (ARM manual, A4.1 "QADD", "QDADD", "QDSUB", "QSUB"). Gives their cost in the
/// processor's own clocks.
#[inline]
pub fn saturate(
    arch: Arch,
    s: &mut Registers,
    double: bool,
    subtract: bool,
    rd: u8,
    rm: u8,
    rn: u8,
) -> u32
    requires rd { rd < 16 }
    requires rm { rm < 16 }
    requires rn { rn < 16 }
    ensures registers { s.new ≡ (saturating_meaning s.old double subtract rd rm rn).after [] }
    ensures cost { result ≡ cost_of arch (saturating_meaning s.old double subtract rd rm rn) }
{
    let held = saturating_result(double, subtract, s.get(rm), s.get(rn));
    s.go_on();
    set_lost(s, held.lost);
    s.set(rd, held.value);
    Class::Processing.cost(arch, rd == 15)
}
