//! A line of a script.

ghost use Rattle.std.specs.Prelude.{◌≡◌, ◌≤◌, ◌+◌, ◌<◌, drop, length, IfErr, IfOk};
ghost use Rattle.ds_base.specs.Texts.{HasNoFeed};
ghost use Rattle.nds_words.specs.Scripts.{line_text, IsLine, IsNoLine};
ghost use Rattle.nds_words.specs.Reader.Lines.{further, keys_from};
ghost use Rattle.nds_words.specs.Reader.Scripts.{IsParted};

use crate::names::{common, read_names};
use crate::ticks::read_tick;
use ds_base::{KeyLine, Tick};

/// The keys that the rest of a line tells of; or how many bytes of the line can be the front of a line.
#[tactic(auto, unfolding(crate::specs::Reader::Lines::keys_from))]
fn read_keys(line: &[u8], from: usize) -> Result<u16, usize>
    requires from { from ≤ length line.now }
    requires few { from ≤ 11 }
    ensures is { result ≡ further from (keys_from (drop from line.now)) }
    ensures few { IfErr result (λ count. count < 100) }
{
    if common(b" -", &line[from..]) < 2 {
        return read_names(line, from);
    }
    if line.len() == from + 2 {
        Ok(0)
    } else {
        Err(from + 2)
    }
}

/// A text as a line of a script; or how many bytes its longest front has with which a line begins.
pub(crate) fn read_line(text: &[u8]) -> Result<KeyLine, usize>
    ensures good { IfOk result (λ line. IsLine line) }
    ensures is { IfOk result (λ line. text.now ≡ line_text line) }
    ensures none { IfErr result (λ count. IsNoLine text.now (count + 1)) }
    ensures few { IfErr result (λ count. count < 100) }
{
    let (tick, count) = read_tick(text);
    if count == 0 {
        return Err(0);
    }
    let pressed = read_keys(text, count)?;
    Ok(KeyLine {
        tick: Tick(tick),
        pressed,
    })
}

/// The bytes before the first line feed, and those after it.
pub(crate) fn first_line(text: &[u8]) -> (&[u8], &[u8])
    ensures plain { HasNoFeed result.0.now }
    ensures is { IsParted text.now result.0.now result.1.now }
{
    let mut end = 0;
    while end < text.len() && text[end] != b'\n' {
        end += 1;
    }
    if end < text.len() {
        (&text[..end], &text[end + 1..])
    } else {
        (text, &[])
    }
}
