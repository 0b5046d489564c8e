//! Putting values into lists.

use std::alloc::AllocError;

/// Puts a value behind others.
pub fn push<T: Drop>(values: &mut Vec<T>, value: T) -> Result<(), AllocError> {
    values.push(value)?;
    Ok(())
}
