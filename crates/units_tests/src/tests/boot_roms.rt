//! The words of the boot ROM stubs, as the manual's encodings give them.

use ds_base::Proc;
use ds_places::rom_word;

/// Words of the stub of both processors, by their offset: vectors, the six words of which each has its own, a few others, the last, and
/// what stands past it.
const WORDS: [(u32, u32, u32); 25] = [
    (0x000, 0xeaff_fffe, 0xeaff_fffe), // b 0
    (0x004, 0xeaff_fffe, 0xeaff_fffe), // b 4
    (0x008, 0xea00_000d, 0xea00_000d), // b 44
    (0x018, 0xea00_0000, 0xea00_0000), // b 20
    (0x01c, 0xeaff_fffe, 0xeaff_fffe), // b 1c
    (0x020, 0xe92d_500f, 0xe92d_500f), // stmdb r13!, {r0,r1,r2,r3,r12,r14}
    (0x024, 0xee19_0f11, 0xe3a0_0301), // mrc p15, 0, r0, c9, c1, 0 and mov r0, #0x4000000
    (0x030, 0xe280_0901, 0xe1a0_0000), // add r0, r0, #0x4000 and mov r0, r0
    (0x038, 0xe510_f004, 0xe510_f004), // ldr r15, [r0, #-0x4]
    (0x044, 0xe92d_5800, 0xe92d_5800), // stmdb r13!, {r11,r12,r14}
    (0x090, 0x0b00_0042, 0x0b00_0042), // bleq 1a0
    (0x0c8, 0xee19_3f11, 0xe3a0_3301), // mrc p15, 0, r3, c9, c1, 0 and mov r3, #0x4000000
    (0x0d4, 0xe283_3901, 0xe1a0_0000), // add r3, r3, #0x4000 and mov r0, r0
    (0x104, 0xee07_2f90, 0xe5c4_2301), // mcr p15, 0, r2, c7, c0, 4 and strb r2, [r4, #0x301]
    (0x130, 0xee07_2f90, 0xe5cb_2301), // mcr p15, 0, r2, c7, c0, 4 and strb r2, [r11, #0x301]
    (0x138, 0xe92d_0030, 0xe92d_0030), // stmdb r13!, {r4,r5}
    (0x1a0, 0xe92d_0018, 0xe92d_0018), // stmdb r13!, {r3,r4}
    (0x1dc, 0xe8bd_0018, 0xe8bd_0018), // ldmia r13!, {r3,r4}
    (0x1e0, 0xe12f_ff1e, 0xe12f_ff1e), // bx r14
    (0x1e4, 0, 0),
    (0x1e8, 0, 0),
    (0x784, 0, 0),
    (0x4000, 0, 0),
    (0xfffc, 0, 0),
    (0xffff_fffc, 0, 0),
];

#[test]
fn the_boot_rom_has_its_words_at_their_offsets(rt: HostRuntime) {
    for (at, nine, seven) in WORDS {
        let at = at / 4 * 4;
        let got = (rom_word(Proc::Nine, at), rom_word(Proc::Seven, at));
        assert!(rt; got == (nine, seven), "at {at:x}: {:x}, {:x}", got.0, got.1);
    }
}
