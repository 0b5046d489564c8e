//! Which words and halves are canonical.

use arm_words::{Spelling, canonical, decode_arm, encode};
use ds_base::Arch;
use std::process::Abort;

#[test]
fn bits_that_are_not_looked_at_become_what_they_should_be(rt: HostRuntime) {
    let words = [
        (0xE120_0011, 0xE12F_FF11),
        (0xE12F_0F33, 0xE12F_FF33),
        (0xE160_1012, 0xE16F_1F12),
        (0xE102_0F51, 0xE102_0051),
        (0xE121_F3A2, 0xE121_03A2),
        (0xE161_F3E2, 0xE161_03E2),
        (0xE001_F392, 0xE001_0392),
        (0xE103_1F92, 0xE103_1092),
        (0xE100_1F0F, 0xE10F_1000),
        (0xE129_0F01, 0xE129_F001),
        (0xE328_020F, 0xE328_F20F),
        (0xE351_F002, 0xE351_0002),
        (0xE3AF_14FF, 0xE3A0_14FF),
        (0xE112_1FB3, 0xE112_10B3),
    ];
    for (word, spelled) in words {
        match decode_arm(Arch::V5, word) {
            Some(instr) => assert!(rt; encode(&instr) == Spelling::Word(spelled), "at {word:#X}"),
            None => assert!(rt; false, "at {word:#X}"),
        }
        assert!(rt;
            canonical(Arch::V5, Spelling::Word(word)).is_none(),
            "at {word:#X}"
        );
        assert!(rt;
            canonical(Arch::V5, Spelling::Word(spelled)).is_some(),
            "at {spelled:#X}"
        );
    }
}

fn is_canonical(rt: &impl Abort, words: &[u32], wanted: bool) {
    for word in words {
        assert!(rt;
            canonical(Arch::V5, Spelling::Word(*word)).is_some() == wanted,
            "at {word:#X}"
        );
    }
}

/// MOV, then MSR, CMP and ADD. A rotation of 1 to 12 is the least where the byte is no multiple of 4; one of 13, 14 or 15 shifts left
/// by 6, 4 or 2, so that a byte below 4, 16 or 64 gives a byte again, which has rotation 0.
#[test]
fn immediates_have_the_least_rotation(rt: HostRuntime) {
    let least = [
        0xE3A0_0000,
        0xE3A0_0004,
        0xE3A0_00FF,
        0xE3A0_0101,
        0xE3A0_01FF,
        0xE3A0_04FF,
        0xE3A0_0C01,
        0xE3A0_0C03,
        0xE3A0_0D05,
        0xE3A0_0DFF,
        0xE3A0_0E11,
        0xE3A0_0F41,
        0xE3A0_0FFF,
        0xE328_F20F,
        0xE328_FD05,
        0xE351_0F41,
        0xE281_2F41,
    ];
    is_canonical(&rt, &least, true);
    let others = [
        0xE3A0_0100,
        0xE3A0_0104,
        0xE3A0_0C00,
        0xE3A0_0C04,
        0xE3A0_0D03,
        0xE3A0_0D04,
        0xE3A0_0E0F,
        0xE3A0_0E10,
        0xE3A0_0F01,
        0xE3A0_0F3F,
        0xE3A0_0F40,
        0xE3A0_0FFC,
        0xE328_F13C,
        0xE328_FD03,
        0xE351_0F3F,
        0xE281_2F3F,
    ];
    is_canonical(&rt, &others, false);
}

#[test]
fn some_instructions_are_never_canonical(rt: HostRuntime) {
    let rows = [
        (Arch::V5, Spelling::Word(0xE0F2_10B4), false),
        (Arch::V5, Spelling::Word(0xE0D2_10B4), true),
        (Arch::V5, Spelling::Word(0xE1F2_10B4), true),
        (Arch::V5, Spelling::Word(0xE0E1_40D8), false),
        (Arch::V5, Spelling::Word(0xE0C1_40D8), true),
        (Arch::V5, Spelling::Word(0xE1E1_40D8), true),
        (Arch::V5, Spelling::Word(0xE4B2_1000), true),
        (Arch::V4, Spelling::Word(0xF000_0000), false),
        (Arch::V5, Spelling::Half(0x4771), false),
        (Arch::V5, Spelling::Half(0x4777), false),
        (Arch::V5, Spelling::Half(0x4770), true),
    ];
    for (arch, spelling, wanted) in rows {
        assert!(rt; canonical(arch, spelling).is_some() == wanted);
    }
}
