//! The words of the boot ROM stub.

ghost use Rattle.std.specs.Prelude.{◌≡◌, ◌/◌, ◌%◌, ◌≤◌, length, slice_index_or};
ghost use Rattle.ds_places.specs.BootRom.{boot_rom, boot_word};

use ds_base::Proc;

/// A processor's stub, from the six words of which each has its own. Each word has its offset and statement beside it, with branch
/// targets as offsets.
macro_rules! stub {
    ($handler_base:literal, $handler_offset:literal, $flags_base:literal, $flags_offset:literal, $wait:literal, $halt:literal) => {
        [
            0xeaff_fffe, // 000 b 0
            0xeaff_fffe, // 004 b 4
            0xea00_000d, // 008 b 44
            0xeaff_fffe, // 00c b c
            0xeaff_fffe, // 010 b 10
            0xeaff_fffe, // 014 b 14
            0xea00_0000, // 018 b 20
            0xeaff_fffe, // 01c b 1c
            0xe92d_500f, // 020 stmdb r13!, {r0,r1,r2,r3,r12,r14}
            $handler_base, // 024
            0xe1a0_0620, // 028 mov r0, r0, lsr #0xc
            0xe1a0_0600, // 02c mov r0, r0, lsl #0xc
            $handler_offset, // 030
            0xe28f_e000, // 034 add r14, r15, #0x0
            0xe510_f004, // 038 ldr r15, [r0, #-0x4]
            0xe8bd_500f, // 03c ldmia r13!, {r0,r1,r2,r3,r12,r14}
            0xe25e_f004, // 040 subs r15, r14, #0x4
            0xe92d_5800, // 044 stmdb r13!, {r11,r12,r14}
            0xe55e_c002, // 048 ldrb r12, [r14, #-0x2]
            0xe14f_b000, // 04c mrs r11, spsr
            0xe92d_0800, // 050 stmdb r13!, {r11}
            0xe20b_b080, // 054 and r11, r11, #0x80
            0xe38b_b01f, // 058 orr r11, r11, #0x1f
            0xe121_f00b, // 05c msr cpsr_c, r11
            0xe92d_4004, // 060 stmdb r13!, {r2,r14}
            0xe35c_0003, // 064 cmp r12, #0x3
            0x0b00_0010, // 068 bleq b0
            0xe35c_0004, // 06c cmp r12, #0x4
            0x0b00_0013, // 070 bleq c4
            0xe35c_0005, // 074 cmp r12, #0x5
            0x0b00_000f, // 078 bleq bc
            0xe35c_0006, // 07c cmp r12, #0x6
            0x0b00_0028, // 080 bleq 128
            0xe35c_0009, // 084 cmp r12, #0x9
            0x0b00_002a, // 088 bleq 138
            0xe35c_000b, // 08c cmp r12, #0xb
            0x0b00_0042, // 090 bleq 1a0
            0xe8bd_4004, // 094 ldmia r13!, {r2,r14}
            0xe3a0_c093, // 098 mov r12, #0x93
            0xe121_f00c, // 09c msr cpsr_c, r12
            0xe8bd_0800, // 0a0 ldmia r13!, {r11}
            0xe16f_f00b, // 0a4 msr spsr_fsxc, r11
            0xe8bd_5800, // 0a8 ldmia r13!, {r11,r12,r14}
            0xe1b0_f00e, // 0ac movs r15, r14
            0xe250_0001, // 0b0 subs r0, r0, #0x1
            0xcaff_fffd, // 0b4 bgt b0
            0xe12f_ff1e, // 0b8 bx r14
            0xe3a0_0001, // 0bc mov r0, #0x1
            0xe3a0_1001, // 0c0 mov r1, #0x1
            0xe92d_4018, // 0c4 stmdb r13!, {r3,r4,r14}
            $flags_base, // 0c8
            0xe1a0_3623, // 0cc mov r3, r3, lsr #0xc
            0xe1a0_3603, // 0d0 mov r3, r3, lsl #0xc
            $flags_offset, // 0d4
            0xe3a0_4301, // 0d8 mov r4, #0x4000000
            0xe350_0000, // 0dc cmp r0, #0x0
            0x1513_b008, // 0e0 ldrne r11, [r3, #-0x8]
            0x11cb_b001, // 0e4 bicne r11, r11, r1
            0x1503_b008, // 0e8 strne r11, [r3, #-0x8]
            0xe3a0_2000, // 0ec mov r2, #0x0
            0xe584_2208, // 0f0 str r2, [r4, #0x208]
            0xe513_b008, // 0f4 ldr r11, [r3, #-0x8]
            0xe01b_2001, // 0f8 ands r2, r11, r1
            0x1a00_0004, // 0fc bne 114
            0xe3a0_2080, // 100 mov r2, #0x80
            $wait, // 104
            0xe3a0_2001, // 108 mov r2, #0x1
            0xe584_2208, // 10c str r2, [r4, #0x208]
            0xeaff_fff5, // 110 b ec
            0xe1cb_b002, // 114 bic r11, r11, r2
            0xe503_b008, // 118 str r11, [r3, #-0x8]
            0xe3a0_2001, // 11c mov r2, #0x1
            0xe584_2208, // 120 str r2, [r4, #0x208]
            0xe8bd_8018, // 124 ldmia r13!, {r3,r4,r15}
            0xe3a0_b301, // 128 mov r11, #0x4000000
            0xe3a0_2080, // 12c mov r2, #0x80
            $halt, // 130
            0xe12f_ff1e, // 134 bx r14
            0xe92d_0030, // 138 stmdb r13!, {r4,r5}
            0xe1a0_4000, // 13c mov r4, r0
            0xe020_5001, // 140 eor r5, r0, r1
            0xe350_0000, // 144 cmp r0, #0x0
            0xb260_0000, // 148 rsblt r0, r0, #0x0
            0xe351_0000, // 14c cmp r1, #0x0
            0xb261_1000, // 150 rsblt r1, r1, #0x0
            0xe3a0_3000, // 154 mov r3, #0x0
            0xe3a0_2000, // 158 mov r2, #0x0
            0xe3a0_b020, // 15c mov r11, #0x20
            0xe090_0000, // 160 adds r0, r0, r0
            0xe0a2_2002, // 164 adc r2, r2, r2
            0xe1a0_3083, // 168 mov r3, r3, lsl #0x1
            0xe152_0001, // 16c cmp r2, r1
            0x2042_2001, // 170 subcs r2, r2, r1
            0x2383_3001, // 174 orrcs r3, r3, #0x1
            0xe25b_b001, // 178 subs r11, r11, #0x1
            0x1aff_fff7, // 17c bne 160
            0xe355_0000, // 180 cmp r5, #0x0
            0xe1a0_0003, // 184 mov r0, r3
            0xb263_0000, // 188 rsblt r0, r3, #0x0
            0xe354_0000, // 18c cmp r4, #0x0
            0xe1a0_1002, // 190 mov r1, r2
            0xb262_1000, // 194 rsblt r1, r2, #0x0
            0xe8bd_0030, // 198 ldmia r13!, {r4,r5}
            0xe12f_ff1e, // 19c bx r14
            0xe92d_0018, // 1a0 stmdb r13!, {r3,r4}
            0xe1a0_b582, // 1a4 mov r11, r2, lsl #0xb
            0xe1b0_b5ab, // 1a8 movs r11, r11, lsr #0xb
            0x0a00_000a, // 1ac beq 1dc
            0xe312_0301, // 1b0 tst r2, #0x4000000
            0x1590_3000, // 1b4 ldrne r3, [r0, #0x0]
            0x1481_3004, // 1b8 strne r3, [r1], #0x4
            0x13a0_4004, // 1bc movne r4, #0x4
            0x01d0_30b0, // 1c0 ldrheq r3, [r0, #0x0]
            0x00c1_30b2, // 1c4 strheq r3, [r1], #0x2
            0x03a0_4002, // 1c8 moveq r4, #0x2
            0xe312_0401, // 1cc tst r2, #0x1000000
            0x0080_0004, // 1d0 addeq r0, r0, r4
            0xe25b_b001, // 1d4 subs r11, r11, #0x1
            0x1aff_fff4, // 1d8 bne 1b0
            0xe8bd_0018, // 1dc ldmia r13!, {r3,r4}
            0xe12f_ff1e, // 1e0 bx r14
        ]
    };
}

/// The words of ARM9's stub.
const NINE: [u32; 121] = stub!(
    0xee19_0f11, // mrc p15, 0, r0, c9, c1, 0
    0xe280_0901, // add r0, r0, #0x4000
    0xee19_3f11, // mrc p15, 0, r3, c9, c1, 0
    0xe283_3901, // add r3, r3, #0x4000
    0xee07_2f90, // mcr p15, 0, r2, c7, c0, 4
    0xee07_2f90 // mcr p15, 0, r2, c7, c0, 4
);

/// The words of ARM7's stub.
const SEVEN: [u32; 121] = stub!(
    0xe3a0_0301, // mov r0, #0x4000000
    0xe1a0_0000, // mov r0, r0
    0xe3a0_3301, // mov r3, #0x4000000
    0xe1a0_0000, // mov r0, r0
    0xe5c4_2301, // strb r2, [r4, #0x301]
    0xe5cb_2301 // strb r2, [r11, #0x301]
);

/// The words of a processor's stub.
#[tactic(auto, unfolding(crate::specs::BootRom::boot_rom))]
fn stub_of(proc: Proc) -> &'static [u32]
    ensures words { result.now ≡ boot_rom proc }
    ensures length { length result.now ≡ 121 }
{
    match proc {
        Proc::Nine => &NINE,
        Proc::Seven => &SEVEN,
    }
}

/// The word at an index, and 0 where there is none.
fn word_or_zero(words: &[u32], index: usize) -> u32
    ensures word { result ≡ slice_index_or words.now index 0 }
    ensures past { length words.now ≤ index → result ≡ 0 }
{
    words.get(index).copied().unwrap_or(0)
}

/// The word of a processor's boot ROM at an offset from where the ROM begins, a multiple of 4; past the stub's words it is 0.
pub fn rom_word(proc: Proc, at: u32) -> u32
    requires aligned { at % 4 ≡ 0 }
    ensures word { result ≡ boot_word proc at }
    ensures zeros { 0x1E4 ≤ at → result ≡ 0 }
{
    word_or_zero(stub_of(proc), at as usize / 4)
}
