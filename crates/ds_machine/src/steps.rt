//! The step of a processor over what it reaches, and of it what is fast: one function each for both processors.

ghost use Rattle.std.specs.Prelude.{◌≡◌, ◌<◌, ◌≤◌, ◌+◌, ◌*◌, ◌%◌, ◌^◌, if◌then◌else◌, ℕ, false, true, IfSome};
ghost use Rattle.arm_core.specs.Registers.{is_thumb};
ghost use Rattle.arm_core.specs.Steps.{enters, fetched};
ghost use Rattle.ds_base.specs.declared.memories.Width.TheVariants.{Half, Word};
ghost use Rattle.arm_core.specs.declared.outcomes.Stepped.TheVariants.{Cost};
ghost use Rattle.decode_cache.specs.Known.{arch_of};
ghost use Rattle.arm_ops.specs.Operations.{is_other, operation_of, HasOperation};
ghost use Rattle.arm_words.specs.Fields.{HasFields};
ghost use Rattle.arm_words.specs.ThumbTable.{decoded_thumb};
ghost use Rattle.arm_ops.specs.Meanings.{access_made, operation_meaning};
ghost use Rattle.ds_machine.specs.Private.{AllReachPrivate};
ghost use Rattle.ds_machine.specs.PrivateSides.{side_taken, side_waits};
ghost use Rattle.ds_machine.specs.Sides.{data_waits, next_fetch};
ghost use Rattle.ds_machine.specs.Touching.{access_stays, DataIsNear, DataStays, GoesByWords};

use crate::sides::Side;
use arm_core::{Registers, Stepped};
use arm_exec::{Fetched, decoded_half, decoded_word, enters, interrupt};
use arm_ops::{Op, Operation, Runner, access_made, first_word, is_list, is_other, loads};
use decode_cache::Decoder;
use ds_base::{Width, known};
use ds_map::Given;

/// A half of Thumb code at an address, decoded.
#[inline(always)]
fn half_at<const VERSION: u32>(decoder: &mut Decoder<VERSION>, at: u32, half: u32) -> &Operation
    ensures operation { result.now ≡ operation_of (decoded_thumb (arch_of VERSION) (half % 2 ^ 16)) }
    ensures fields { HasOperation result.now }
{
    decoder.thumb_operation(at, (half % 0x1_0000) as u16)
}

/// What is fetched at r15, and how many ticks that waits.
#[inline(always)]
fn next_fetch<V: Side>(s: &Registers, view: &V) -> Given
    ensures number { result.number ≡ V.memory.fetch_value (V.state view.now) s.now.pc (if is_thumb s.now then Half else Word) }
    ensures waits { result.waits ≡ V.side.step.wait (V.state view.now) (next_fetch s.now) }
    ensures most { result.waits ≤ 8 }
{
    let at = s.pc();
    if s.is_thumb() {
        return view.fetched(at, Width::Half);
    }
    view.fetched(at, Width::Word)
}

/// What was fetched at r15, decoded.
#[inline(always)]
fn next_operation<'a, V: Side, const VERSION: u32>(
    s: &Registers,
    decoder: &'a mut Decoder<VERSION>,
    view: &V,
    number: u32,
) -> &'a Operation
    requires version { arch_of VERSION ≡ V.side.step.arch }
    requires number { number ≡ V.memory.fetch_value (V.state view.now) s.now.pc (if is_thumb s.now then Half else Word) }
    ensures operation { result.now ≡ operation_of (fetched V.memory V.side.step.arch s.now (V.state view.now)).instr }
    ensures fields { HasOperation result.now }
{
    known!(view);
    let at = s.pc();
    if s.is_thumb() {
        half_at(decoder, at, number)
    } else {
        decoder.arm_operation(at, number)
    }
}

/// What is fetched at r15, decoded.
fn next_decoded<V: Side>(s: &Registers, view: &V) -> Fetched
    ensures number { result.number ≡ (fetched V.memory V.side.step.arch s.now (V.state view.now)).number }
    ensures instr { result.instr ≡ (fetched V.memory V.side.step.arch s.now (V.state view.now)).instr }
    ensures low { result.number < 16 }
    ensures fields { IfSome result.instr HasFields }
{
    let at = s.pc();
    let arch = view.arch();
    if s.is_thumb() {
        return decoded_half(arch, view.fetched(at, Width::Half).number);
    }
    decoded_word(arch, view.fetched(at, Width::Word).number)
}

/// The step of an instruction that isn't decoded, where no interrupt is entered.
#[inline(never)]
fn take_other<V: Side>(s: &mut Registers, view: &mut V, line: bool) -> Stepped
    requires none { enters line s.old ≡ false }
    requires room { V.finds_room (V.state view.old) }
    requires begins { V.waits view.old ≡ 0 }
    ensures registers { s.new ≡ (side_taken V.memory V.side line s.old (V.state view.old)).registers }
    ensures state { V.state view.new ≡ (side_taken V.memory V.side line s.old (V.state view.old)).state }
    ensures stepped { result ≡ (side_taken V.memory V.side line s.old (V.state view.old)).stepped }
    ensures waits { V.waits view.new ≡ data_waits V.memory V.side.step s.old (V.state view.old) }
    ensures brief { V.waits view.new ≤ 128 }
    ensures same { V.identity view.new ≡ V.identity view.old }
{
    known!(line);
    let next = next_decoded(s, view);
    view.execute(s, next)
}

/// The step of an instruction that was decoded, where no interrupt is entered.
#[inline(always)]
fn take_operation<V: Side>(s: &mut Registers, view: &mut V, line: bool, next: &Operation) -> Stepped
    requires none { enters line s.old ≡ false }
    requires operation { next.now ≡ operation_of (fetched V.memory V.side.step.arch s.old (V.state view.old)).instr }
    requires fields { HasOperation next.now }
    requires known { is_other next.now.op ≡ false }
    requires room { V.finds_room (V.state view.old) }
    requires begins { V.waits view.old ≡ 0 }
    ensures registers { s.new ≡ (side_taken V.memory V.side line s.old (V.state view.old)).registers }
    ensures state { V.state view.new ≡ (side_taken V.memory V.side line s.old (V.state view.old)).state }
    ensures stepped { result ≡ (side_taken V.memory V.side line s.old (V.state view.old)).stepped }
    ensures waits { V.waits view.new ≡ data_waits V.memory V.side.step s.old (V.state view.old) }
    ensures brief { V.waits view.new ≤ 128 }
    ensures same { V.identity view.new ≡ V.identity view.old }
{
    known!(line);
    let access = access_made(s, next);
    view.run(s, next, access)
}

/// What a step came to.
#[derive(Clone, Copy)]
pub struct Came {
    /// What it costs by its class, in clocks, or why it stopped.
    pub stepped: Stepped,
    /// How many ticks its accesses waited.
    pub waits: u32,
}

/// The step.
#[inline(always)]
#[tactic(auto, using(crate::proofs::Taken::taken_entered, crate::proofs::Taken::waits_entered, crate::proofs::Taken::waits_fetched))]
pub fn take_in_view<V: Side, const VERSION: u32>(
    s: &mut Registers,
    decoder: &mut Decoder<VERSION>,
    view: &mut V,
    line: bool,
) -> Came
    requires version { arch_of VERSION ≡ V.side.step.arch }
    requires room { V.finds_room (V.state view.old) }
    requires begins { V.waits view.old ≡ 0 }
    ensures registers { s.new ≡ (side_taken V.memory V.side line s.old (V.state view.old)).registers }
    ensures state { V.state view.new ≡ (side_taken V.memory V.side line s.old (V.state view.old)).state }
    ensures stepped { result.stepped ≡ (side_taken V.memory V.side line s.old (V.state view.old)).stepped }
    ensures waits { result.waits ≡ side_waits V.memory V.side line s.old (V.state view.old) }
    ensures same { V.identity view.new ≡ V.identity view.old }
{
    let entered = enters(s, line);
    if entered {
        let base = view.base();
        let stepped = Stepped::Cost(interrupt(view.arch(), s, base));
        return Came { stepped, waits: 0 };
    }
    let fetch = next_fetch(s, view);
    let next = next_operation(s, decoder, view, fetch.number);
    if is_other(next) {
        let stepped = take_other(s, view, line);
        let waits = fetch.waits + view.waited();
        return Came { stepped, waits };
    }
    let stepped = take_operation(s, view, line, next);
    let waits = fetch.waits + view.waited();
    Came { stepped, waits }
}

/// What came of a fast step.
#[derive(Clone, Copy)]
pub struct Fast {
    /// What it costs by its class, in clocks; 0 where it wasn't taken.
    pub clocks: u32,
    /// How many ticks its accesses waited.
    pub waits: u32,
    /// Whether it wasn't taken since it reaches past private places.
    pub leaves: bool,
    /// Whether it wasn't taken since it is LDM or STM, which is tried as such.
    pub list: bool,
}

/// A step that wasn't taken.
#[inline(always)]
fn not_taken(leaves: bool) -> Fast
    ensures { result ≡ record { clocks = 0; waits = 0; leaves = leaves; list = false } }
{
    Fast {
        clocks: 0,
        waits: 0,
        leaves,
        list: false,
    }
}

/// Whether an operation's access of data is to a private place, if it makes one. Of what isn't decoded, or makes more accesses than one, it tells
/// nothing: true, since `run_fast` doesn't run that.
#[inline(always)]
fn access_stays<V: Side>(s: &Registers, view: &V, next: &Operation) -> bool
    requires { HasOperation next.now }
    ensures stays { result ≡ access_stays V.side (V.state view.now) (access_made s.now next.now) }
    ensures address { IfSome (access_made s.now next.now) (λ access. access.to.address < 2 ^ 32) }
    ensures other { is_other next.now.op ≡ true → result ≡ true }
{
    match access_made(s, next) {
        Some(it) => view.is_private(it.to.address, !loads(it.op), false),
        None => true,
    }
}

/// Whether so many words from an address up are each in a private place, as writes or reads reach them.
#[inline(always)]
fn words_stay<V: Side>(view: &V, first: u32, count: u32, writing: bool) -> bool
    requires { count ≤ 16 }
    ensures { result ≡ true → (i : ℕ) → i < count → V.side.is_private (V.state view.now) writing false ((first + 4 * i) % 2 ^ 32) ≡ true }
{
    for i in 0..count {
        if !view.is_private(first.wrapping_add(4 * i), writing, false) {
            return false;
        }
    }
    true
}

/// Whether the words of LDM or STM are; of another operation it tells nothing: false.
#[inline(always)]
#[tactic(auto, using(crate::proofs::DecodedStays::reach_list))]
fn list_stays<V: Side>(s: &Registers, view: &V, next: &Operation) -> bool
    requires { HasOperation next.now }
    ensures { GoesByWords V.side → result ≡ true
        → AllReachPrivate V.side (V.state view.now) (operation_meaning V.side.step.arch s.now next.now).accesses }
{
    match next.op {
        Op::Multiple(it) => words_stay(view, first_word(s, it), it.list.count_ones(), !it.load),
        _ => false,
    }
}

/// Whether an operation's accesses of data are to private places: of one that makes one at most, or of LDM or STM, as it is told.
#[inline(always)]
fn data_stays<V: Side>(s: &Registers, view: &V, next: &Operation, lists: bool) -> bool
    requires { HasOperation next.now }
    ensures stays { lists ≡ false → result ≡ access_stays V.side (V.state view.now) (access_made s.now next.now) }
    ensures address { lists ≡ false → IfSome (access_made s.now next.now) (λ access. access.to.address < 2 ^ 32) }
    ensures other { lists ≡ false → is_other next.now.op ≡ true → result ≡ true }
    ensures list { lists ≡ true → result ≡ true
        → AllReachPrivate V.side (V.state view.now) (operation_meaning V.side.step.arch s.now next.now).accesses }
    ensures words { GoesByWords V.side }
{
    known!(view.place_laws());
    if lists {
        return list_stays(s, view, next);
    }
    access_stays(s, view, next)
}

/// Whether an operation is LDM or STM, which wasn't taken as it costs nothing.
#[inline(always)]
fn is_list_left(next: &Operation, clocks: u32) -> bool {
    clocks == 0 && is_list(next)
}

/// The step, where it is fast: a frequent instruction, which reaches RAM alone, or loads from a port that changes no unit and isn't observed; where
/// it is ahead of its turn (AHEAD is 1), it also has to reach private places alone. Where it isn't taken nothing is changed. No unit changes. Who
/// runs it says whether it makes one access at most, or is LDM or STM.
#[inline]
pub fn take_fast_in_view<V: Side, const VERSION: u32, R: Runner, const AHEAD: u32>(
    s: &mut Registers,
    decoder: &mut Decoder<VERSION>,
    view: &mut V,
    line: bool,
) -> Fast
    requires version { arch_of VERSION ≡ V.side.step.arch }
    requires room { V.finds_room (V.state view.old) }
    requires begins { V.waits view.old ≡ 0 }
    ensures none { result.clocks ≡ 0 → (s.new ≡ s.old) × (V.state view.new ≡ V.state view.old) }
    ensures registers { 0 < result.clocks → s.new ≡ (side_taken V.memory V.side line s.old (V.state view.old)).registers }
    ensures state { 0 < result.clocks → V.state view.new ≡ (side_taken V.memory V.side line s.old (V.state view.old)).state }
    ensures stepped { 0 < result.clocks → (side_taken V.memory V.side line s.old (V.state view.old)).stepped ≡ Cost result.clocks }
    ensures waits { 0 < result.clocks → result.waits ≡ side_waits V.memory V.side line s.old (V.state view.old) }
    ensures stays { AHEAD ≡ 1 → 0 < result.clocks → DataStays V.memory V.side s.old (V.state view.old) }
    ensures leaves { result.leaves ≡ true → DataStays V.memory V.side s.old (V.state view.old) → ⊥ }
    ensures left { result.leaves ≡ true → (result.clocks ≡ 0) × (AHEAD ≡ 1) }
    ensures near { 0 < result.clocks → DataIsNear V.memory V.side s.old (V.state view.old) }
    ensures io { V.io (V.state view.new) ≡ V.io (V.state view.old) }
    ensures same { V.identity view.new ≡ V.identity view.old }
{
    if enters(s, line) {
        return not_taken(false);
    }
    let fetch = next_fetch(s, view);
    let next = next_operation(s, decoder, view, fetch.number);
    let lists = R::lists();
    let ahead = AHEAD == 1;
    if ahead && !data_stays(s, view, next, lists) {
        return not_taken(!lists);
    }
    let clocks = view.run_fast::<R>(s, next);
    let waits = fetch.waits + view.waited();
    Fast {
        clocks,
        waits,
        leaves: false,
        list: is_list_left(next, clocks),
    }
}
