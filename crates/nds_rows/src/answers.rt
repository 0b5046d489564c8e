//! What calls came to.

use std::alloc::Global;

/// What a call came to.
#[derive(Drop)]
pub struct Came {
    /// Its status's number, where there was a call.
    pub status: Option<u8>,
    /// What was put to the notes.
    pub note: Vec<u8>,
    /// What was put to the output.
    pub out: Vec<u8>,
    /// Whether that is all that was put.
    pub is_told: bool,
    /// Where in the output its records begin, behind those of frames.
    pub from: usize,
}

impl Came {
    /// There was no call.
    pub fn new(alloc: Global) -> Came {
        Came {
            status: None,
            note: Vec::new(alloc),
            out: Vec::new(alloc),
            is_told: false,
            from: 0,
        }
    }
}
