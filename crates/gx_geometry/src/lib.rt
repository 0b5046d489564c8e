//! The geometry engine: commands to vertices and polygons (GBATEK, "DS 3D Geometry Commands" and the chapters that it leads to). It keeps
//! the matrices, the current vertex, colour and texture coordinates, the material and the lights, and adds to the open lists of
//! vertices and polygons, which a swap gives out. All memory is taken by `Geometry::new`.
//!
//! `specs/` has the numbers that are kept (Records), what each command leaves (Changes), the formulas (Numbers, Lights, Coordinates, Boxes,
//! Polygons), the lists of a swap from all that was done since the one before (Lists), the engine as a whole (States), and what holds at every
//! time (Bounds). How the code finds a polygon's corners stands apart (Backs), and so do the numbers that its structs stand for (RecordsKept).
//!
//! Proved. `Geometry::command` leaves exactly `command_taken geometry_after`, for every command with its number of parameters, while the
//! run has at most 2^56 vertices: matrices, the current vertex, colour and texture coordinates, material and lights, the run, the results
//! of tests, the open lists, and that all else stays. Sums of products are exact whole numbers in the definitions; the code sums in 64 bits
//! that wrap where only low bits count, and in 128 bits for lighting and for the determinant, whose sign is that of the exact one.
//! `Geometry::swap`, clause `lists`: what it gives out are those of all commands and clearings since the swap before: whatever empty engine
//! and history led here, the vertices are those that came, cut at 6,144, and the polygons are those of complete runs without a dropped
//! vertex, kept by the determinant's sign, cut at 2,048; that the lists grow command by command is proved to be the same.
//! `Geometry::results`: the results of tests, the lengths of the open lists and their overflow, which is set exactly where something was
//! dropped since it was cleared last (clause `overflow`). `laws`: at most 6,144 vertices and 2,048 polygons, colours of fifteen bits,
//! palettes' bases of thirteen, at most one vertex a command. `pack` and `unpack`: the engine's bytes and what is read of bytes, by one format
//! (`specs/Saved`); `saved_laws`: the bytes of an engine whose numbers have their bounds (`IsSavedGeometry`) are read as that engine, and
//! bytes that are read as an engine are its bytes. `bounds`: each engine's numbers have those bounds, so its bytes are read back at each tick
//! that is no lower than its run's length and its last swap's tick.
//!
//! Only tested, in `gx_tests`: each command, each lighting term, the texture modes, strips, culling and both limits on values worked by
//! hand, and that `Geometry::new` succeeds with ample memory.
#![tactic(auto)]

mod boxes;
mod capped;
mod changes;
mod coordinates;
mod engine;
mod exact;
mod lights;
mod lists;
mod numbers;
mod outcomes;
mod polygons;
mod results;
mod widths;

pub use engine::{Geometry, saved_laws};
pub use lists::Lists;
pub use numbers::Kind;
pub use polygons::{Polygon, Vertex};
pub use results::Results;
