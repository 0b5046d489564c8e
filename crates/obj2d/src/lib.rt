//! The row of the 2D engines' objects (GBATEK, "LCD OBJ - OAM Attributes", "LCD OBJ - VRAM Character (Tile) Mapping", "DS Video OBJs").
//!
//! The definitions are pixel by pixel and know no row: `specs/Attributes` has an object's fields, `specs/Places` the places that its box
//! covers and the point that is shown there, `specs/ObjectPixels` the pixel of one object, `specs/ObjectLayer` that of all together. The
//! code draws each object's strip of the line by tiles, by a table of its colours' pixels, and lays it over the row.
//!
//! Proved of `object_row`, whatever video memory and attributes hold and however banks overlap: at each of the 256 places the pixel is
//! `object_pixel`, object laid over object (clause `value`); that is the pixel of the opaque object that isn't of mode 2 with the least
//! priority and, of those, the least number, or a blank one, and the place lies in the object window exactly where an object of mode 2 is
//! opaque (`stands`); an opaque pixel has bit 15 set, a blank one neither priority nor blending (`form`). `object_lanes`: the same in rows of
//! lanes (`row`), with the places that objects of each priority are within (`within`), of which `span_of` tells two ends. `covers_line` tells exactly
//! whether an object covers a line, whatever its mode; `object_mode` and `is_mosaic_object` read its mode and its mosaic bit. No call takes
//! memory.
//!
//! Only tested, in `rows2d_tests`: that the definitions are the console's, on rows worked by hand from GBATEK's tables. Neither proved nor
//! tested: speed (docs/bench).
#![tactic(auto)]

mod attributes;
mod lanes;
mod layers;
mod lines;
mod objects;
mod pixels;
mod places;
mod strips;
mod tables;

pub use layers::{
    ObjectLanes, ObjectPixel, ObjectRow, Spans, covers_line, is_mosaic_object, no_objects,
    no_spans, object_lanes, object_mode, object_row, span_of,
};
