//! What the words of a command line ask for.

ghost use Rattle.std.specs.Prelude.{◌≡◌, ◌<◌, ◌↔◌, ℕ, List, Option, IfSome, IfNone, IsTrue, codes, [], ◌∷◌, map, option_map};
ghost use Rattle.std.specs.String.{string_bytes};
ghost use Rattle.nds_words.specs.Words.{IsName, IsScriptName, Asks, AskNothing, keys_word};
ghost use Rattle.nds_words.specs.Inside.{AreOf, AskForRun};
ghost use Rattle.nds_words.specs.CommandLaws.{asked_by};

use crate::choices::{image_of_word, keep_of, memory_of, proc_of};
use crate::commands::{Command, RunFiles};
use crate::numbers::number;

/// The greatest tick to which a run may be asked for.
const MOST_TICKS: u64 = 100_000_000_000;

/// The greatest number of steps that a trace may be asked for.
const MOST_STEPS: u64 = 1_000_000;

/// The greatest number of bytes that may be peeked at.
const MOST_PEEKED: u64 = 4_096;

/// The greatest number of a demo.
const MOST_NUMBER: u64 = 0xFFFF_FFFF;

/// Whether a word may name a file.
fn is_name(word: &str) -> bool
    ensures { IsTrue result ↔ IsName word.now }
{
    let bytes = word.as_bytes();
    !bytes.is_empty() && bytes[0] != b'-'
}

/// The key script that a word for keys names: each names one but `none`.
fn script_of(keys: &str) -> Option<&str>
    requires { IsName keys.now }
    ensures word { keys.entry.now ≡ keys_word (option_map (λ name. name.now) result) }
    ensures allowed { IsScriptName (option_map (λ name. name.now) result) }
{
    if keys == "none" { None } else { Some(keys) }
}

/// The files of a run and its tick.
#[tactic(auto, using(crate::proofs::WordLists::keys_named))]
fn run_words<'a>(cart: &'a str, keys: &'a str, ticks: &str) -> Option<(RunFiles<'a>, u64)>
    ensures some { IfSome result
        (λ run. AskForRun cart.entry.now keys.entry.now ticks.now run.0.cart.now (option_map (λ name. name.now) run.0.keys) run.1) }
    ensures none { IfNone result ((file : List ℕ) → (script : Option (List ℕ)) → (end : ℕ)
        → ¬ AskForRun cart.entry.now keys.entry.now ticks.now file script end) }
{
    if !is_name(cart) || !is_name(keys) {
        return None;
    }
    let ticks = number(ticks, 1, MOST_TICKS)?;
    let keys = script_of(keys);
    Some((RunFiles { cart, keys }, ticks))
}

/// What the words after `run` ask for.
fn run_of<'a>(cart: &'a str, keys: &'a str, ticks: &str, keep: &str) -> Option<Command<'a>>
    ensures some { IfSome result (λ c. Asks (codes "run" ∷ cart.entry.now ∷ keys.entry.now ∷ ticks.now ∷ keep.now ∷ []) (asked_by c)) }
    ensures none { IfNone result (AskNothing (codes "run" ∷ cart.entry.now ∷ keys.entry.now ∷ ticks.now ∷ keep.now ∷ [])) }
{
    let (files, ticks) = run_words(cart, keys, ticks)?;
    let keep = keep_of(keep)?;
    Some(Command::Run { files, ticks, keep })
}

/// What the words after `list` ask for.
fn list_of<'a>(cart: &'a str, image: &str) -> Option<Command<'a>>
    ensures some { IfSome result (λ c. Asks (codes "list" ∷ cart.entry.now ∷ image.now ∷ []) (asked_by c)) }
    ensures none { IfNone result (AskNothing (codes "list" ∷ cart.entry.now ∷ image.now ∷ [])) }
{
    if !is_name(cart) {
        return None;
    }
    let (proc, set) = image_of_word(image)?;
    Some(Command::List { cart, proc, set })
}

/// What the word after `asm` asks for.
fn asm_of(file: &str) -> Option<Command<'_>>
    ensures some { IfSome result (λ c. Asks (codes "asm" ∷ file.entry.now ∷ []) (asked_by c)) }
    ensures none { IfNone result (AskNothing (codes "asm" ∷ file.entry.now ∷ [])) }
{
    if !is_name(file) {
        return None;
    }
    Some(Command::Asm { file })
}

/// What the words after `trace` ask for.
fn trace_of<'a>(
    cart: &'a str,
    keys: &'a str,
    ticks: &str,
    proc: &str,
    count: &str,
) -> Option<Command<'a>>
    ensures some { IfSome result (λ c. Asks (codes "trace" ∷ cart.entry.now ∷ keys.entry.now ∷ ticks.now ∷ proc.now ∷ count.now ∷ []) (asked_by c)) }
    ensures none { IfNone result (AskNothing (codes "trace" ∷ cart.entry.now ∷ keys.entry.now ∷ ticks.now ∷ proc.now ∷ count.now ∷ [])) }
{
    let (files, ticks) = run_words(cart, keys, ticks)?;
    let proc = proc_of(proc)?;
    let count = number(count, 1, MOST_STEPS)? as u32;
    Some(Command::Trace {
        files,
        ticks,
        proc,
        count,
    })
}

/// What the words after `peek` ask for.
fn peek_of<'a>(
    cart: &'a str,
    keys: &'a str,
    ticks: &str,
    memory: &str,
    place: &str,
    count: &str,
) -> Option<Command<'a>>
    ensures some { IfSome result (λ c. Asks (codes "peek" ∷ cart.entry.now ∷ keys.entry.now ∷ ticks.now ∷ memory.now ∷ place.now ∷ count.now
        ∷ []) (asked_by c)) }
    ensures none { IfNone result (AskNothing (codes "peek" ∷ cart.entry.now ∷ keys.entry.now ∷ ticks.now ∷ memory.now ∷ place.now ∷ count.now ∷ [])) }
{
    let (files, ticks) = run_words(cart, keys, ticks)?;
    let memory = memory_of(memory)?;
    let size = memory.size();
    let place = number(place, 0, size as u64)? as usize;
    let count = number(count, 1, MOST_PEEKED)? as usize;
    if size - place < count {
        return None;
    }
    Some(Command::Peek {
        files,
        ticks,
        memory,
        place,
        count,
    })
}

/// What the words after `demo` ask for.
fn demo_of(word: &str, ticks: &str) -> Option<Command<'static>>
    ensures some { IfSome result (λ c. Asks (codes "demo" ∷ word.now ∷ ticks.now ∷ []) (asked_by c)) }
    ensures none { IfNone result (AskNothing (codes "demo" ∷ word.now ∷ ticks.now ∷ [])) }
{
    let made_of = number(word, 0, MOST_NUMBER)? as u32;
    let ticks = number(ticks, 1, MOST_TICKS)?;
    Some(Command::Demo {
        number: made_of,
        ticks,
    })
}

/// What the words after `save` ask for.
fn save_of<'a>(cart: &'a str, keys: &'a str, ticks: &str) -> Option<Command<'a>>
    ensures some { IfSome result (λ c. Asks (codes "save" ∷ cart.entry.now ∷ keys.entry.now ∷ ticks.now ∷ []) (asked_by c)) }
    ensures none { IfNone result (AskNothing (codes "save" ∷ cart.entry.now ∷ keys.entry.now ∷ ticks.now ∷ [])) }
{
    let (files, ticks) = run_words(cart, keys, ticks)?;
    Some(Command::Save { files, ticks })
}

/// What the words after `resume` ask for.
fn resume_of<'a>(
    state: &'a str,
    cart: &'a str,
    keys: &'a str,
    ticks: &str,
    keep: &str,
) -> Option<Command<'a>>
    ensures some { IfSome result (λ c. Asks (codes "resume" ∷ state.entry.now ∷ cart.entry.now ∷ keys.entry.now ∷ ticks.now ∷ keep.now ∷ [])
        (asked_by c)) }
    ensures none { IfNone result (AskNothing (codes "resume" ∷ state.entry.now ∷ cart.entry.now ∷ keys.entry.now ∷ ticks.now ∷ keep.now ∷ [])) }
{
    if !is_name(state) {
        return None;
    }
    let (files, ticks) = run_words(cart, keys, ticks)?;
    let keep = keep_of(keep)?;
    Some(Command::Resume {
        state,
        files,
        ticks,
        keep,
    })
}

/// Whether words have a command's name and are as many as it has.
fn are_of(words: &[String], name: &str, count: usize) -> bool
    requires { 0 < count }
    ensures { IsTrue result ↔ AreOf name.now count (map string_bytes words.now) }
{
    if words.len() != count {
        return false;
    }
    words[0].as_str() == name
}

/// What the words of a trace ask for.
fn trace_words(words: &[String]) -> Option<Command<'_>>
    requires { AreOf (codes "trace") 6 (map string_bytes words.now) }
    ensures some { IfSome result (λ c. Asks (map string_bytes words.entry.now) (asked_by c)) }
    ensures none { IfNone result (AskNothing (map string_bytes words.entry.now)) }
{
    trace_of(
        words[1].as_str(),
        words[2].as_str(),
        words[3].as_str(),
        words[4].as_str(),
        words[5].as_str(),
    )
}

/// What the words of a peek ask for.
fn peek_words(words: &[String]) -> Option<Command<'_>>
    requires { AreOf (codes "peek") 7 (map string_bytes words.now) }
    ensures some { IfSome result (λ c. Asks (map string_bytes words.entry.now) (asked_by c)) }
    ensures none { IfNone result (AskNothing (map string_bytes words.entry.now)) }
{
    peek_of(
        words[1].as_str(),
        words[2].as_str(),
        words[3].as_str(),
        words[4].as_str(),
        words[5].as_str(),
        words[6].as_str(),
    )
}

/// What the words of a run that goes on from a saved state ask for.
fn resume_words(words: &[String]) -> Option<Command<'_>>
    requires { AreOf (codes "resume") 6 (map string_bytes words.now) }
    ensures some { IfSome result (λ c. Asks (map string_bytes words.entry.now) (asked_by c)) }
    ensures none { IfNone result (AskNothing (map string_bytes words.entry.now)) }
{
    resume_of(
        words[1].as_str(),
        words[2].as_str(),
        words[3].as_str(),
        words[4].as_str(),
        words[5].as_str(),
    )
}

/// What the words ask for, where they ask for something: exactly the command that they are the words of. The program's own name
/// isn't among them.
pub fn read_words(words: &[String]) -> Option<Command<'_>>
    ensures some { IfSome result (λ c. Asks (map string_bytes words.entry.now) (asked_by c)) }
    ensures none { IfNone result (AskNothing (map string_bytes words.entry.now)) }
{
    if are_of(words, "run", 5) {
        return run_of(
            words[1].as_str(),
            words[2].as_str(),
            words[3].as_str(),
            words[4].as_str(),
        );
    }
    if are_of(words, "list", 3) {
        return list_of(words[1].as_str(), words[2].as_str());
    }
    if are_of(words, "asm", 2) {
        return asm_of(words[1].as_str());
    }
    if are_of(words, "trace", 6) {
        return trace_words(words);
    }
    if are_of(words, "peek", 7) {
        return peek_words(words);
    }
    if are_of(words, "demo", 3) {
        return demo_of(words[1].as_str(), words[2].as_str());
    }
    if are_of(words, "save", 4) {
        return save_of(words[1].as_str(), words[2].as_str(), words[3].as_str());
    }
    if are_of(words, "resume", 6) {
        return resume_words(words);
    }
    None
}
