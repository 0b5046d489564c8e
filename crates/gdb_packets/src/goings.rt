//! How the program is to go on.

use crate::readers::Reader;
use ds_base::Proc;

/// How a processor is to go on. (The GDB manual, "Packets", `vCont`.)
#[derive(Clone, Copy, PartialEq, Eq, Debug)]
pub enum How {
    /// On and on; with the number of a signal, 0 for none.
    On {
        /// The signal.
        signal: u32,
    },
    /// One step.
    Step,
    /// Steps while its address lies from the first to before the second.
    Range {
        /// The first address.
        from: u32,
        /// The address after the last.
        to: u32,
    },
}

/// How the program is to go on. Both processors always run; it is about one of them where one is to step.
#[derive(Clone, Copy, PartialEq, Eq, Debug)]
pub struct Going {
    /// The processor that it is about; None where that is the one that was chosen before (`Hc`).
    pub proc: Option<Proc>,
    /// How that goes on.
    pub how: How,
    /// Whether the other one was given no action, so that the answer has to be of this one.
    pub is_alone: bool,
}

/// One action of a list.
fn read_action(from: &mut Reader) -> Option<How> {
    if from.passes(b'c') {
        return Some(How::On { signal: 0 });
    }
    if from.passes(b's') {
        return Some(How::Step);
    }
    if from.passes(b'C') {
        let signal = from.number()?;
        return Some(How::On { signal });
    }
    if from.passes(b'S') {
        from.number()?;
        return Some(How::Step);
    }
    if !from.passes(b'r') {
        return None;
    }
    let first = from.number()?;
    if !from.passes(b',') {
        return None;
    }
    let to = from.number()?;
    Some(How::Range { from: first, to })
}

/// Whether an action is about one step or a range of them.
fn is_stepping(how: Option<How>) -> bool {
    matches!(how, Some(How::Step) | Some(How::Range { from: _, to: _ }))
}

/// The actions of both processors as one: the one that steps, ARM9 first.
fn joined(nine: Option<How>, seven: Option<How>) -> Option<Going> {
    let proc = if is_stepping(nine) || (nine.is_some() && !is_stepping(seven)) {
        Proc::Nine
    } else {
        Proc::Seven
    };
    let (own, other) = match proc {
        Proc::Nine => (nine, seven),
        Proc::Seven => (seven, nine),
    };
    Some(Going {
        proc: Some(proc),
        how: own?,
        is_alone: other.is_none(),
    })
}

/// The list of actions behind `vCont`: of each processor the first that names it, or names none.
pub fn read_goings(text: &[u8]) -> Option<Going> {
    let mut from = Reader::new(text);
    let mut nine = None;
    let mut seven = None;
    for _ in 0..8 {
        if from.is_at_end() {
            return joined(nine, seven);
        }
        if !from.passes(b';') {
            return None;
        }
        let how = read_action(&mut from)?;
        let thread = if from.passes(b':') {
            from.thread()?
        } else {
            None
        };
        if nine.is_none() && thread != Some(Proc::Seven) {
            nine = Some(how);
        }
        if seven.is_none() && thread != Some(Proc::Nine) {
            seven = Some(how);
        }
    }
    None
}

/// The older packets `c`, `C`, `s` and `S`, without an address.
pub fn read_older(text: &[u8]) -> Option<Going> {
    let mut from = Reader::new(text);
    let how = read_action(&mut from)?;
    if !from.is_at_end() {
        return None;
    }
    Some(Going {
        proc: None,
        how,
        is_alone: false,
    })
}
