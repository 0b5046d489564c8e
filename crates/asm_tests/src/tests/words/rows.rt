//! Words and halves just outside of a row or of its side condition, which have none.

use arm_words::{decode_arm, decode_thumb};
use ds_base::Arch;

#[test]
fn words_without_a_row(rt: HostRuntime) {
    let words = [
        (Arch::V5, 0xE300_F0D3),
        (Arch::V5, 0xE341_0002),
        (Arch::V5, 0xE0E2_10D3),
        (Arch::V5, 0xE792_1013),
        (Arch::V5, 0xEE07_1F80),
        (Arch::V4, 0xEE07_1F90),
        (Arch::V5, 0xED92_1F04),
        (Arch::V5, 0xFC00_0001),
        (Arch::V5, 0xF3A0_0001),
        (Arch::V5, 0xF751_F192),
        (Arch::V5, 0xF5D1_E008),
        (Arch::V5, 0xF5F1_F008),
        (Arch::V4, 0xE12F_FF33),
        (Arch::V5, 0xE12F_FF21),
        (Arch::V5, 0x0121_2374),
        (Arch::V4, 0xE121_2374),
        (Arch::V4, 0xE16F_1F12),
        (Arch::V5, 0xE16F_1F22),
        (Arch::V4, 0xE102_0051),
        (Arch::V4, 0xE101_43C2),
        (Arch::V4, 0xE121_03A2),
        (Arch::V4, 0xE142_1483),
        (Arch::V4, 0xE161_03E2),
        (Arch::V5, 0xE042_1493),
        (Arch::V5, 0xE123_1092),
        (Arch::V5, 0xE130_0090),
        (Arch::V5, 0xE1C1_30D8),
        (Arch::V5, 0xE081_50F2),
        (Arch::V4, 0xE1C1_20D8),
    ];
    for (arch, word) in words {
        assert!(rt; decode_arm(arch, word).is_none(), "at {word:#X}");
    }
}

#[test]
fn halves_without_a_row(rt: HostRuntime) {
    let halves = [
        (Arch::V4, 0x47F0),
        (Arch::V5, 0xB100),
        (Arch::V5, 0xB600),
        (Arch::V4, 0xBE12),
        (Arch::V5, 0xDE00),
        (Arch::V5, 0xE803),
        (Arch::V4, 0xE802),
    ];
    for (arch, half) in halves {
        assert!(rt; decode_thumb(arch, half).is_none(), "at {half:#X}");
    }
}
