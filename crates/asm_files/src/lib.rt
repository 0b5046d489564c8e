//! Whole listings: the text of an image, a statement a line, and the image that a text is the listing of. `specs/Listings.antt` says
//! what a listing is, and which line of another text is the first bad one.
//!
//! Proved: `write_listing` appends exactly the listing of an image to a sink and nothing else, or a front of it where the sink's count of
//! faults rose. `assemble` puts the image whose listing a text is at the front of the text's own place (clause `ok`), or names the text's
//! first bad line exactly by its definition (`bad`, `IsFirstBad`): the lines before it begin some listing, and with it they begin none, or
//! it lacks its line feed. `listing_laws`: a text is the listing of one image at most; a listing has no bad line, and any other text has
//! one first bad line at most. Neither takes memory.
//!
//! Only tested, in `asm_tests`: worked texts in both sets and of both processors, both ways, with one, two and three bytes left over and
//! with addresses past 2^32; the first bad line of texts that are none, carriage returns and lines longer than any statement among them.
#![tactic(auto)]

mod laws;
mod pages;
mod places;
mod reading;
mod writing;

pub use laws::listing_laws;
pub use reading::{BadLine, assemble};
pub use writing::write_listing;
