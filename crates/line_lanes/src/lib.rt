//! Kernels over rows of pixels and over packed nibbles, eight or sixteen at a time: blending, brightening, darkening, master
//! brightness, and 16-colour tiles made into a byte a pixel. Each is its plain definition at each place, for every length. And kernels
//! of matrices, four at a time: a row times a column, and a row times a matrix.
//!
//! A pixel is a word of the palettes (GBATEK, "LCD Color Palettes"): red in bits 0 to 4, green in bits 5 to 9, blue in bits 10
//! to 14. Bit 15 is no colour: every kernel leaves it as it was.
//!
//! Blending and both brightnesses are one thing: a mix of a first target with a second, by factors in sixteenths; brightening mixes with
//! white, darkening mixes with black and rounds up. So one function splits channels off and mixes them in eight lanes, one joins them
//! again, and one loop walks a row: blocks of eight, then the rest one by one. `unpack4` takes sixteen bytes at a time. Nothing allocates,
//! and no index is checked at run time.
//!
//! Proved, for every length: `blend` is `zip2 (blended eva evb)` of both rows, which are of one length; `brighten`, `darken`, `master` are
//! `map` of `brightened evy`, `darkened evy`, `mastered value` over the old row; all leave bit 15 clear where it was clear (clause
//! `clear`); `unpack4` gives `nibbles` of the packed bytes, place 2i the low nibble of byte i. For all words: `dot4` is floor(sum / 4096)
//! of the exact sum of four products, wrapped to a signed word (the lanes have 64 bits and wrap, which bits 12 to 43 of the sum don't
//! show); `transform4` is `dot4` with each column of the matrix.
//!
//! Only tested, in `rows2d_tests`: that the definitions mean what GBATEK says, on rows worked by hand (each row at nine places; each kernel
//! also at each length around a block; rows times columns at each place, and sums at 2^43, 2^44, 2^63 and 2^64). Neither proved nor tested:
//! speed (docs/bench).
#![tactic(auto)]

mod effects;
mod lanes;
mod matrices;
mod mixes;
mod nibbles;
mod products;
mod seconds;

pub use effects::{blend, brighten, darken, master};
pub use matrices::Matrix;
pub use nibbles::unpack4;
pub use products::{dot4, transform4};
