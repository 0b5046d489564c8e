//! What code says to the proof alone.

/// Marks what is there for the proof alone: the call of a function that does nothing and whose contract tells what is known here, or a value
/// whose type bounds it. Nothing is left of it as it runs.
#[macro_export]
macro_rules! known {
    ($told:expr) => {
        let _ = $told;
    };
}
