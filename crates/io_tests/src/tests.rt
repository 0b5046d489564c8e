//! What no clause says: that calls succeed where there is memory, what the system's files and streams answer, and rows worked by hand.

mod edges;
mod headers;
mod scripts;
mod shelves;
mod sinks;
