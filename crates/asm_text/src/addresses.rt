//! Where branches go.

ghost use Rattle.std.specs.Prelude.{◌≡◌, ◌<◌, ◌≤◌, ◌*◌, ◌^◌};
ghost use Rattle.asm_text.specs.Addresses.{arm_target, half_target, signed, thumb_target};

fn signed(half: u32, n: u32) -> u32
    requires half { (1 ≤ half) }
    requires top { half < 2 ^ 31 }
    requires n { n < 2 * half }
    ensures { result ≡ signed half n }
{
    if n < half {
        n
    } else {
        n + (u32::MAX - (2 * half - 1))
    }
}

pub fn arm_target(at: u32, offset: u32) -> u32
    requires { offset < 2 ^ 24 }
    ensures { result ≡ arm_target at offset }
{
    at.wrapping_add(8)
        .wrapping_add(signed(0x80_0000, offset).wrapping_mul(4))
}

pub fn half_target(at: u32, offset: u32) -> u32
    requires { offset < 2 ^ 24 }
    ensures { result ≡ half_target at offset }
{
    at.wrapping_add(10)
        .wrapping_add(signed(0x80_0000, offset).wrapping_mul(4))
}

pub fn thumb_target(at: u32, half: u32, offset: u32) -> u32
    requires half { 1 ≤ half }
    requires top { half < 2 ^ 31 }
    requires offset { offset < 2 * half }
    ensures { result ≡ thumb_target at half offset }
{
    at.wrapping_add(4)
        .wrapping_add(signed(half, offset).wrapping_mul(2))
}
