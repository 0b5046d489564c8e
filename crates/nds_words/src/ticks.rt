//! The tick of a line.

ghost use Rattle.nds_words.specs.Reader.Ticks.{IsTick};

/// The tick that a line begins with, and how many digits it has; there are none where the line begins with something else.
pub(crate) fn read_tick(line: &[u8]) -> (u64, usize)
    ensures { IsTick line.now result.0 result.1 }
{
    let mut tick: u64 = 0;
    let mut count = 0;
    while count < line.len() && count < 11 && line[count].is_ascii_digit() {
        if count == 1 && tick == 0 {
            break;
        }
        tick = tick * 10 + (line[count] - b'0') as u64;
        count += 1;
    }
    (tick, count)
}
