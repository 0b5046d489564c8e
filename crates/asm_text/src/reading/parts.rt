//! The parts of a statement, as they stand in a text. Nothing is refused: what is read is listed again and compared.

ghost use Rattle.std.specs.Prelude.{◌≡◌, ◌+◌, ◌*◌, ◌<◌, ◌≤◌, ◌^◌, drop, slice_index};
ghost use Rattle.arm_words.specs.Canonical.{turned_back};
ghost use Rattle.arm_words.specs.Fields.{HasOffset, HasOperand};
ghost use Rattle.asm_text.specs.Reader.Parts.{address_at, as_offset, by_shift, decimal_at, digit_value, fields_at, four_at, hex_at, is_decimal, is_digit, is_spsr, letter_at, marked_at, member_at, next_at, numeral, offset_at, one_at, operand_at, register_at, registers_at, rotation_of, shift_at, shifted_at, three_at, two_at, unsigned_at};

use arm_words::{FieldMask, Offset, Operand, Shift};

/// The byte at a place, and 0 past the end.
pub(crate) fn byte(text: &[u8], at: usize) -> u8
    ensures { result ≡ slice_index text.now at }
{
    if at < text.len() { text[at] } else { 0 }
}

/// What stands after so many bytes.
pub(crate) fn past(text: &[u8], count: usize) -> &[u8]
    ensures { result.now ≡ drop count text.now }
{
    if count < text.len() {
        &text[count..]
    } else {
        &[]
    }
}

fn digit_value(b: u8) -> u32
    ensures { result ≡ digit_value b }
{
    if b < 64 {
        (b % 16) as u32
    } else {
        (b % 16) as u32 + 9
    }
}

fn is_decimal(b: u8) -> bool
    ensures { result ≡ is_decimal b }
{
    48 <= b && b <= 57
}

fn is_digit(b: u8) -> bool
    ensures { result ≡ is_digit b }
{
    is_decimal(b) || 97 <= b && b <= 102
}

fn numeral(text: &[u8]) -> (u32, &[u8])
    ensures value { result.0 ≡ (numeral 0 text.now).0 }
    ensures rest { result.1.now ≡ (numeral 0 text.now).1 }
{
    let mut n: u32 = 0;
    let mut rest = text;
    while let [b, more @ ..] = rest {
        if !is_digit(*b) {
            break;
        }
        n = n.wrapping_mul(16).wrapping_add(digit_value(*b));
        rest = more;
    }
    (n, rest)
}

/// A number after `0x`.
#[tactic(auto, unfolding(crate::specs::Reader::Parts::hex_at))]
pub(crate) fn hex_at(text: &[u8]) -> (u32, &[u8])
    ensures value { result.0 ≡ (hex_at text.now).0 }
    ensures rest { result.1.now ≡ (hex_at text.now).1 }
{
    numeral(past(text, 2))
}

/// A number after `#0x`.
#[tactic(auto, unfolding(crate::specs::Reader::Parts::marked_at))]
pub(crate) fn marked_at(text: &[u8]) -> (u32, &[u8])
    ensures value { result.0 ≡ (marked_at text.now).0 }
    ensures rest { result.1.now ≡ (marked_at text.now).1 }
{
    numeral(past(text, 3))
}

/// A decimal number below 16.
#[tactic(auto, unfolding(crate::specs::Reader::Parts::decimal_at))]
pub(crate) fn decimal_at(text: &[u8]) -> (u8, &[u8])
    ensures value { result.0 ≡ (decimal_at text.now).0 }
    ensures rest { result.1.now ≡ (decimal_at text.now).1 }
    ensures bound { result.0 < 16 }
{
    let b = byte(text, 1);
    if is_decimal(b) {
        ((10 + b % 16) % 16, past(text, 2))
    } else {
        (byte(text, 0) % 16, past(text, 1))
    }
}

/// A register.
pub(crate) fn register_at(text: &[u8]) -> (u8, &[u8])
    ensures value { result.0 ≡ (register_at text.now).0 }
    ensures rest { result.1.now ≡ (register_at text.now).1 }
    ensures bound { result.0 < 16 }
{
    decimal_at(past(text, 1))
}

fn next_at(text: &[u8]) -> (u8, &[u8])
    ensures value { result.0 ≡ (next_at text.now).0 }
    ensures rest { result.1.now ≡ (next_at text.now).1 }
    ensures bound { result.0 < 16 }
{
    register_at(past(text, 2))
}

/// One register, whatever follows.
pub(crate) fn one_at(text: &[u8]) -> u8
    ensures value { result ≡ one_at text.now }
    ensures bound { result < 16 }
{
    register_at(text).0
}

/// Two registers with a comma and a blank between them.
pub(crate) fn two_at(text: &[u8]) -> (u8, u8)
    ensures value { result ≡ two_at text.now }
    ensures first { result.0 < 16 }
    ensures second { result.1 < 16 }
{
    let (a, rest) = register_at(text);
    (a, next_at(rest).0)
}

/// Three registers.
pub(crate) fn three_at(text: &[u8]) -> (u8, u8, u8)
    ensures value { result ≡ three_at text.now }
    ensures first { result.0 < 16 }
    ensures second { result.1 < 16 }
    ensures third { result.2 < 16 }
{
    let (a, rest) = register_at(text);
    let (b, rest) = next_at(rest);
    (a, b, next_at(rest).0)
}

/// Four registers.
pub(crate) fn four_at(text: &[u8]) -> (u8, u8, u8, u8)
    ensures value { result ≡ four_at text.now }
    ensures first { result.0 < 16 }
    ensures second { result.1 < 16 }
    ensures third { result.2 < 16 }
    ensures fourth { result.3 < 16 }
{
    let (a, rest) = register_at(text);
    let (b, rest) = next_at(rest);
    let (c, rest) = next_at(rest);
    (a, b, c, next_at(rest).0)
}

/// A shift, by its name.
#[tactic(auto, unfolding(crate::specs::Reader::Parts::shift_at))]
pub(crate) fn shift_at(text: &[u8]) -> Shift
    ensures { result ≡ shift_at text.now }
{
    if byte(text, 0) == b'l' {
        if byte(text, 2) == b'l' {
            Shift::Lsl
        } else {
            Shift::Lsr
        }
    } else if byte(text, 0) == b'a' {
        Shift::Asr
    } else {
        Shift::Ror
    }
}

#[tactic(auto, unfolding(crate::specs::Reader::Parts::by_shift))]
fn by_shift(rm: u8, shift: Shift, text: &[u8]) -> (Operand, &[u8])
    requires { rm < 16 }
    ensures value { result.0 ≡ (by_shift rm shift text.now).0 }
    ensures rest { result.1.now ≡ (by_shift rm shift text.now).1 }
    ensures fields { HasOperand result.0 }
{
    if byte(text, 0) != b' ' {
        return (
            Operand::Shifted {
                rm,
                shift,
                amount: 0,
            },
            text,
        );
    }
    if byte(text, 1) == b'#' {
        let (n, rest) = marked_at(past(text, 1));
        return (
            Operand::Shifted {
                rm,
                shift,
                amount: (n % 32) as u8,
            },
            rest,
        );
    }
    let (rs, rest) = register_at(past(text, 1));
    (Operand::ShiftedByRegister { rm, shift, rs }, rest)
}

#[tactic(auto, unfolding(crate::specs::Reader::Parts::shifted_at))]
fn shifted_at(text: &[u8]) -> (Operand, &[u8])
    ensures value { result.0 ≡ (shifted_at text.now).0 }
    ensures rest { result.1.now ≡ (shifted_at text.now).1 }
    ensures fields { HasOperand result.0 }
{
    let (rm, rest) = register_at(text);
    if byte(rest, 0) != b',' {
        return (
            Operand::Shifted {
                rm,
                shift: Shift::Lsl,
                amount: 0,
            },
            rest,
        );
    }
    by_shift(rm, shift_at(past(rest, 2)), past(rest, 5))
}

/// The byte of which a number is made by a rotation, if it is one.
fn turned_back(rotate: u32, n: u32) -> u64
    requires { rotate < 16 }
    ensures { result ≡ turned_back rotate n }
{
    ((n as u64) << (2 * rotate)) % 0x1_0000_0000 + ((n as u64) >> (32 - 2 * rotate))
}

/// The least rotation that gives a number, and its byte; anything where none does.
#[tactic(auto, unfolding(crate::specs::Reader::Parts::rotation_of))]
pub(crate) fn rotation_of(n: u32) -> (u8, u8)
    ensures value { result ≡ rotation_of n }
    ensures bound { result.0 < 16 }
{
    for rotate in 0..16u32 {
        let immed = turned_back(rotate, n);
        if immed < 256 {
            return (rotate as u8, immed as u8);
        }
    }
    (0, 0)
}

/// The last operand of data processing.
#[tactic(auto, unfolding(crate::specs::Reader::Parts::operand_at))]
pub(crate) fn operand_at(text: &[u8]) -> Operand
    ensures value { result ≡ operand_at text.now }
    ensures fields { HasOperand result }
{
    if byte(text, 0) == b'#' {
        let (rotate, immed) = rotation_of(marked_at(text).0);
        return Operand::Immediate { rotate, immed };
    }
    shifted_at(text).0
}

fn as_offset(operand: Operand) -> Offset
    requires { HasOperand operand }
    ensures value { result ≡ as_offset operand }
    ensures fields { HasOffset result }
{
    match operand {
        Operand::Immediate { .. } => Offset::Number { offset: 0 },
        Operand::Shifted { rm, shift, amount } => Offset::Register { rm, shift, amount },
        Operand::ShiftedByRegister { rm, shift, .. } => Offset::Register {
            rm,
            shift,
            amount: 0,
        },
    }
}

#[tactic(auto, unfolding(crate::specs::Reader::Parts::unsigned_at))]
fn unsigned_at(marked: bool, text: &[u8]) -> (Offset, &[u8])
    ensures value { result.0 ≡ (unsigned_at marked text.now).0 }
    ensures rest { result.1.now ≡ (unsigned_at marked text.now).1 }
    ensures fields { HasOffset result.0 }
{
    if marked {
        let (n, rest) = hex_at(text);
        return (
            Offset::Number {
                offset: (n % 4096) as u16,
            },
            rest,
        );
    }
    let (operand, rest) = shifted_at(text);
    (as_offset(operand), rest)
}

/// Whether an offset is added, the offset, and what follows it.
#[tactic(auto, unfolding(crate::specs::Reader::Parts::offset_at))]
fn offset_at(text: &[u8]) -> (bool, Offset, &[u8])
    ensures up { result.0 ≡ (offset_at text.now).0 }
    ensures value { result.1 ≡ (offset_at text.now).1 }
    ensures rest { result.2.now ≡ (offset_at text.now).2 }
    ensures fields { HasOffset result.1 }
{
    let marked = byte(text, 0) == b'#';
    let rest = if marked { past(text, 1) } else { text };
    let minus = byte(rest, 0) == b'-';
    let (offset, rest) = unsigned_at(marked, if minus { past(rest, 1) } else { rest });
    (!minus, offset, rest)
}

/// An address of a transfer.
#[derive(Clone, Copy)]
pub(crate) struct Address {
    /// The offset is added before the access.
    pub(crate) pre: bool,
    /// It is added, not taken away.
    pub(crate) up: bool,
    /// There is a mark of write-back.
    pub(crate) write_back: bool,
    pub(crate) rn: u8,
    pub(crate) offset: Offset,
}

/// An address in brackets, or with its offset after them.
#[tactic(auto, unfolding(crate::specs::Reader::Parts::address_at))]
pub(crate) fn address_at(text: &[u8]) -> Address
    ensures value { result ≡ address_at text.now }
    ensures rn { result.rn < 16 }
    ensures fields { HasOffset result.offset }
{
    let (rn, rest) = register_at(past(text, 1));
    let pre = byte(rest, 0) != b']';
    let (up, offset, rest) = offset_at(past(rest, if pre { 2 } else { 3 }));
    Address {
        pre,
        up,
        write_back: pre && byte(rest, 1) == b'!',
        rn,
        offset,
    }
}

#[tactic(auto, unfolding(crate::specs::Reader::Parts::member_at))]
fn member_at(text: &[u8]) -> (u32, &[u8])
    ensures value { result.0 ≡ (member_at text.now).0 }
    ensures rest { result.1.now ≡ (member_at text.now).1 }
    ensures bound { result.0 < 2 ^ 16 }
{
    let next = if byte(text, 0) == b',' {
        past(text, 1)
    } else {
        text
    };
    if byte(next, 0) != b'r' {
        return (0, text);
    }
    let (r, rest) = register_at(next);
    (1 << r, rest)
}

/// The registers of a list after its brace, as bits.
pub(crate) fn registers_at(text: &[u8]) -> (u16, &[u8])
    ensures value { result.0 ≡ (registers_at text.now).0 }
    ensures rest { result.1.now ≡ (registers_at text.now).1 }
{
    let mut sum: u32 = 0;
    let mut rest = text;
    for _ in 0..16u32 {
        let (bit, more) = member_at(rest);
        sum = (sum + bit) % 0x1_0000;
        rest = more;
    }
    (sum as u16, rest)
}

fn letter_at(letter: u8, text: &[u8]) -> (bool, &[u8])
    ensures value { result.0 ≡ (letter_at letter text.now).0 }
    ensures rest { result.1.now ≡ (letter_at letter text.now).1 }
{
    if byte(text, 0) == letter {
        (true, past(text, 1))
    } else {
        (false, text)
    }
}

/// The letters of the status fields that are written.
#[tactic(auto, unfolding(crate::specs::Reader::Parts::fields_at))]
pub(crate) fn fields_at(text: &[u8]) -> (FieldMask, &[u8])
    ensures value { result.0 ≡ (fields_at text.now).0 }
    ensures rest { result.1.now ≡ (fields_at text.now).1 }
{
    let (f, rest) = letter_at(b'f', text);
    let (s, rest) = letter_at(b's', rest);
    let (x, rest) = letter_at(b'x', rest);
    let (c, rest) = letter_at(b'c', rest);
    (FieldMask { f, s, x, c }, rest)
}

/// Whether a status register is the saved one.
pub(crate) fn is_spsr(text: &[u8]) -> bool
    ensures { result ≡ is_spsr text.now }
{
    byte(text, 0) == b's'
}
