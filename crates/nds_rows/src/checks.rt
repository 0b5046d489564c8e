//! Holding what is seen beside what is wanted.

use crate::answers::Came;
use crate::consoles::views_of;
use crate::differences::{text_differs, views_differ};
use crate::facts::Fact;
use run_ahead::Console;
use std::alloc::{AllocError, Global};

/// How what a call came to differs from a fact, where it does.
pub fn fact_differs(
    alloc: Global,
    came: &Came,
    console: Option<&Console>,
    kept: &[u8],
    fact: &Fact,
) -> Result<Option<String>, AllocError> {
    match fact {
        Fact::Numbers { of, wanted } => {
            let views = views_of(alloc, came, console, kept, *of, wanted.len())?;
            views_differ(alloc, &views, wanted.as_slice())
        }
        Fact::Bytes { of, wanted } => text_differs(alloc, came, *of, wanted.as_slice()),
    }
}
