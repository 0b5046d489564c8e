//! Tests.

mod answers;
mod framing;
mod requests;
