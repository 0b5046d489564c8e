//! The divider and the square root unit, by GBATEK's "DS Maths" and by arithmetic.

use ds_base::Tick;
use ds_math::{Divider, Quotient, Root, RootSeen};

/// Mode, numerator and denominator, then quotient, remainder and the flag of a zero denominator (GBATEK, "DS Maths").
const DIVISIONS: [(u8, u64, u64, u64, u64, bool); 23] = [
    // the four pairs of signs, rounded towards zero: 7 by 2, -7 by 2, 7 by -2, -7 by -2
    (0, 7, 2, 3, 1, false),
    (
        0,
        0xFFFF_FFF9,
        2,
        0xFFFF_FFFF_FFFF_FFFD,
        0xFFFF_FFFF_FFFF_FFFF,
        false,
    ),
    (1, 7, 0xFFFF_FFFE, 0xFFFF_FFFF_FFFF_FFFD, 1, false),
    (0, 0xFFFF_FFF9, 0xFFFF_FFFE, 3, 0xFFFF_FFFF_FFFF_FFFF, false),
    // which bits each mode takes: 32 by 32, 64 by 32, 64 by 64, and 3 as 1
    (0, 0x1_0000_0007, 0x5_0000_0002, 3, 1, false),
    (1, 0x1_0000_0000, 0x5_0000_0002, 0x8000_0000, 0, false),
    (2, 0xA_0000_0005, 0x5_0000_0002, 2, 1, false),
    (3, 0x1_0000_0000, 0x5_0000_0002, 0x8000_0000, 0, false),
    // the quotients that don't fit: -2^31 by -1 in 32 bits, -2^63 by -1
    (0, 0x8000_0000, 0xFFFF_FFFF, 0x8000_0000, 0, false),
    (
        2,
        0x8000_0000_0000_0000,
        0xFFFF_FFFF_FFFF_FFFF,
        0x8000_0000_0000_0000,
        0,
        false,
    ),
    // by zero in mode 0: a positive numerator, 0, and a negative one
    (0, 5, 0, 0xFFFF_FFFF, 5, true),
    (0, 0, 0, 0xFFFF_FFFF, 0, true),
    (
        0,
        0xFFFF_FFFB,
        0,
        0xFFFF_FFFF_0000_0001,
        0xFFFF_FFFF_FFFF_FFFB,
        true,
    ),
    // by zero in the others
    (1, 5, 0, 0xFFFF_FFFF_FFFF_FFFF, 5, true),
    (1, 0x8000_0000_0000_0000, 0, 1, 0x8000_0000_0000_0000, true),
    (2, 0, 0, 0xFFFF_FFFF_FFFF_FFFF, 0, true),
    (3, 0xFFFF_FFFF_FFFF_FFFB, 0, 1, 0xFFFF_FFFF_FFFF_FFFB, true),
    // the flag asks all 64 bits of the denominator, whatever the mode divides by: bit 32, 40 or 63 alone, and bit 0 alone
    (0, 5, 0x1_0000_0000, 0xFFFF_FFFF, 5, false),
    (1, 5, 0x1_0000_0000, 0xFFFF_FFFF_FFFF_FFFF, 5, false),
    (3, 5, 0x100_0000_0000, 0xFFFF_FFFF_FFFF_FFFF, 5, false),
    (0, 5, 0x8000_0000_0000_0000, 0xFFFF_FFFF, 5, false),
    (2, 5, 0x8000_0000_0000_0000, 0, 5, false),
    (2, 5, 1, 5, 0, false),
];

/// Each division is started before the one before it shows: until it is done, those results stand.
#[test]
fn divisions_show_the_old_results_until_they_are_done(rt: HostRuntime) {
    let mut divider = Divider::new();
    let mut old = Quotient {
        mode: 0,
        numerator: 0,
        denominator: 0,
        quotient: 0,
        remainder: 0,
        busy: false,
        zero: true,
    };
    assert!(rt; divider.read() == old && divider.due().is_none(), "at boot");
    for (row, (mode, numerator, denominator, quotient, remainder, zero)) in DIVISIONS
        .iter()
        .enumerate()
    {
        divider.start(*mode % 4, *numerator, *denominator, Tick(100));
        divider.laws();
        let shown = divider.read();
        if divider.due().is_some() {
            divider.finish();
        }
        let done = divider.read();
        let running = Quotient {
            mode: *mode,
            numerator: *numerator,
            denominator: *denominator,
            busy: true,
            zero: *zero,
            ..old
        };
        old = Quotient {
            quotient: *quotient,
            remainder: *remainder,
            busy: false,
            ..running
        };
        assert!(rt;
            shown == running && done == old && divider.due().is_none(),
            "row {row}: {:x}, {:x}",
            done.quotient,
            done.remainder
        );
    }
}

/// 18 bus clocks in mode 0 and 34 in the others, of 2 ticks each, from the last start on: mode, tick of the start, and due tick.
const DUE: [(u8, u32, u64); 6] = [
    (0, 100, 136),
    (1, 100, 168),
    (2, 100, 168),
    (3, 100, 168),
    (0, 100, 136),
    (0, 110, 146),
];

#[test]
fn a_division_is_due_by_its_mode(rt: HostRuntime) {
    let mut divider = Divider::new();
    for (mode, now, due) in DUE {
        divider.start(mode % 4, 1, 1, Tick(now.into()));
        assert!(rt; divider.due() == Some(Tick(due)), "mode {mode}");
    }
}

/// Whether all 64 bits count, the value, and the root rounded down.
const ROOTS: [(bool, u64, u32); 8] = [
    (true, 0xFFFF_FFFF_FFFF_FFFF, 0xFFFF_FFFF),
    (true, 0x1_0000_0000, 0x1_0000),
    (false, 0x1_0000_0003, 1),
    (false, 0xFFFF_FFFF, 0xFFFF),
    (true, 15, 3),
    (true, 16, 4),
    (false, 17, 4),
    (false, 0, 0),
];

#[test]
fn roots_round_down_and_take_the_lower_word_unless_wide(rt: HostRuntime) {
    let mut unit = Root::new();
    let mut old = RootSeen {
        wide: false,
        value: 0,
        root: 0,
        busy: false,
    };
    assert!(rt; unit.read() == old && unit.due().is_none(), "at boot");
    for (wide, value, root) in ROOTS {
        unit.start(wide, value, Tick(9));
        unit.start(wide, value, Tick(10));
        unit.laws();
        let shown = (unit.read(), unit.due());
        if unit.due().is_some() {
            unit.finish();
        }
        let done = (unit.read(), unit.due());
        let running = RootSeen {
            wide,
            value,
            busy: true,
            ..old
        };
        old = RootSeen {
            root,
            busy: false,
            ..running
        };
        assert!(rt;
            shown == (running, Some(Tick(36))) && done == (old, None),
            "{value}: {}",
            done.0.root
        );
    }
}
