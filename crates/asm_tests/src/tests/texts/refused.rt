//! Texts that no word or half has as its statement.

use super::AT;
use arm_words::Spelling;
use asm_lines::{NotText, read_line};
use asm_text::Set;
use ds_base::Arch;
use std::process::Abort;

fn refuses(rt: &impl Abort, arch: Arch, set: Set, texts: &[&str]) {
    for text in texts {
        let read = read_line(arch, set, AT, text);
        assert!(rt; read == Err(NotText), "{text}");
    }
}

#[test]
fn near_misses_of_words(rt: HostRuntime) {
    let spelled_otherwise = [
        "MOV r0, #0x1",
        "mov R0, #0x1",
        "mov r0, #0X1",
        "mov r0, #0x01",
        "mov r0, #0x",
        "mov r0, #1",
        "mov  r0, #0x1",
        "mov r0,  #0x1",
        "mov r0,#0x1",
        "mov r00, #0x1",
        "mov r0, #0x1 ",
        " mov r0, #0x1",
        "mov r0, #0x1\n",
        "moval r0, #0x1",
        "mov r0, r1, lsl #0x0",
        "mov r0, r1, ror #0x0",
        "mov r0, #0x0 ",
        "mov r0",
        "mov",
        "",
    ];
    refuses(&rt, Arch::V5, Set::Arm, &spelled_otherwise);
    let no_such_number = [
        "mov r0, #0x102",
        "mov r0, #0x100000001",
        "mov r16, #0x1",
        "ldr r0, [r1, #0x1000]",
        "ldrh r0, [r1, #0x100]",
        "swi 0x1000000",
        "swi #0x1",
        "bkpt 0x10000",
        "mov r0, r1, lsl #0x20",
        "mov r0, r1, lsr #0x21",
        "mrc p16, 0, r0, c0, c0, 0",
        "mrc p15, 8, r0, c0, c0, 0",
        "ldrd r1, [r2, #0x0]",
    ];
    refuses(&rt, Arch::V5, Set::Arm, &no_such_number);
}

#[test]
fn near_misses_of_targets_lists_and_words_themselves(rt: HostRuntime) {
    let targets = [
        "b 0x2000002",
        "b 0x4000008",
        "b 0x02000008",
        "b #0x2000008",
        "blxeq 0x2000008",
        "blx 0x2000009",
    ];
    refuses(&rt, Arch::V5, Set::Arm, &targets);
    let lists = [
        "ldmia r0, {r1, r2}",
        "ldmia r0, {r2,r1}",
        "ldmia r0, {r1-r2}",
        "ldmia r0, {r1,r1}",
        "ldmia r0, {r1,}",
        "ldm r0, {r1}",
        "ldmiaeq r0!, {r1}^ ",
        "msr cpsr, r0",
        "msr cpsr_cf, r0",
    ];
    refuses(&rt, Arch::V5, Set::Arm, &lists);
    let numbers = [
        ".word 0xe3a00001",
        ".word 0xE3A00F40",
        ".word 0xe3a00f4",
        ".word 0x0e3a00f40",
        ".word e3a00f40",
        ".half 0x4771",
        ".byte 0x12",
    ];
    refuses(&rt, Arch::V5, Set::Arm, &numbers);
}

#[test]
fn statements_of_the_other_architecture_or_set(rt: HostRuntime) {
    let five = [
        "clz r1, r2",
        "blx r3",
        "bkpt 0x1234",
        "blx 0x2000008",
        "mcr p15, 0, r0, c7, c0, 4",
    ];
    refuses(&rt, Arch::V4, Set::Arm, &five);
    let thumb = [
        "movh r8, r8",
        "addh r0, r1",
        "blh #0x1",
        "push {r0}",
        "add r0, #0x1",
        "neg r0, r1",
    ];
    refuses(&rt, Arch::V5, Set::Arm, &thumb);
    let arm = [
        "mov r0, r1",
        "add r0, r1, r2, lsl #0x1",
        "moveq r0, #0x1",
        "bl 0x2000004",
        "mrs r0, cpsr",
    ];
    refuses(&rt, Arch::V5, Set::Thumb, &arm);
}

#[test]
fn near_misses_of_halves(rt: HostRuntime) {
    let texts = [
        "movh r8,r8",
        "mov r8, r8",
        ".half 0x46c0",
        ".half 0x0046c0",
        "push {r14,r4}",
        "push {r4,r15}",
        "pop {r4,r14}",
        "add r0, r0, #0x8",
        "add r13, #0x2",
        "ldr r0, [r15, #0x2]",
        "ldr r0, [r13, #0x400]",
        "ldrh r0, [r1, #0x1]",
        "b 0x2000001",
        "b 0x2000804",
        "beq 0x2000104",
        "blxl #0x1",
        "blh 0x1",
        "bal 0x2000000",
        "lsl r0, r1, #0x20",
        "lsr r0, r1, #0x0",
    ];
    refuses(&rt, Arch::V5, Set::Thumb, &texts);
}

#[test]
fn zero_added_is_not_zero_taken_away(rt: HostRuntime) {
    let added = read_line(Arch::V5, Set::Arm, AT, "ldr r0, [r1, #0x0]");
    assert!(rt; added == Ok(Spelling::Word(0xE591_0000)));
    let taken = read_line(Arch::V5, Set::Arm, AT, "ldr r0, [r1, #-0x0]");
    assert!(rt; taken == Ok(Spelling::Word(0xE511_0000)));
}
