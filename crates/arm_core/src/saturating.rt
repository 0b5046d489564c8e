//! Saturating sums and differences.

ghost use Rattle.std.specs.Prelude.{◌≡◌};
ghost use Rattle.arm_core.specs.Saturating.{exact, saturating_result, signed_sat};

/// A word that a number was held to, and whether the number was none.
#[derive(Clone, Copy, PartialEq, Eq)]
pub struct Saturated {
    /// The word.
    pub value: u32,
    /// Whether it isn't the number: Q is set.
    pub lost: bool,
}

/// The word that is nearest to a number (ARM manual, glossary, "SignedSat", "SignedDoesSat").
#[inline(always)]
fn signed_sat(x: i64) -> Saturated
    ensures { result ≡ signed_sat x }
{
    if x < -0x8000_0000 {
        Saturated {
            value: 0x8000_0000,
            lost: true,
        }
    } else if x > 0x7FFF_FFFF {
        Saturated {
            value: 0x7FFF_FFFF,
            lost: true,
        }
    } else {
        Saturated {
            value: (x as i32).cast_unsigned(),
            lost: false,
        }
    }
}

/// The sum of two signed words, or with `subtract` their difference.
#[inline(always)]
fn exact(subtract: bool, a: u32, b: u32) -> i64
    ensures { result ≡ exact subtract a b }
{
    if subtract {
        a.cast_signed() as i64 - b.cast_signed() as i64
    } else {
        a.cast_signed() as i64 + b.cast_signed() as i64
    }
}

/// What QADD, QSUB (`subtract`), QDADD (`double`) and QDSUB give of `rm` and `rn` (ARM manual, A4.1 under each name).
#[inline(always)]
pub fn saturating_result(double: bool, subtract: bool, rm: u32, rn: u32) -> Saturated
    ensures { result ≡ saturating_result double subtract rm rn }
{
    if !double {
        return signed_sat(exact(subtract, rm, rn));
    }
    let doubled = signed_sat(exact(false, rn, rn));
    let held = signed_sat(exact(subtract, rm, doubled.value));
    Saturated {
        value: held.value,
        lost: doubled.lost || held.lost,
    }
}
