//! The lists of a swap as bytes.

ghost use Rattle.std.specs.Prelude.{◌≡◌, ◌+◌, ◌*◌, ◌∷◌, ◌++◌, [], length, OnOk};
ghost use Rattle.std.specs.List.{concat};
ghost use Rattle.ds_io.specs.Puts.{Puts};
ghost use Rattle.nds_records.specs.Numbers.{words, halves};
ghost use Rattle.nds_records.specs.Lists.{half_of, lists_head, lists_record, polygon_record, polygon_records, vertex_record, vertex_records, word_of};

use crate::numbers::{long_bytes, low_word_bytes, word_bytes};
use byteorder::{ByteOrder, LittleEndian};
use ds_io::{Failed, Sink, put_all, put_parts};
use gx_geometry::{Lists, Polygon, Vertex};

/// A vertex's coordinates in clip space.
#[tactic(auto, unfolding(crate::specs::Numbers::words))]
fn coordinate_bytes(vertex: &Vertex) -> [u8; 16]
    ensures { result ≡ words (word_of vertex.now.x ∷ word_of vertex.now.y ∷ word_of vertex.now.z ∷ word_of vertex.now.w ∷ []) }
{
    let mut bytes = [0; 16];
    let words = [
        vertex.x.cast_unsigned(),
        vertex.y.cast_unsigned(),
        vertex.z.cast_unsigned(),
        vertex.w.cast_unsigned(),
    ];
    LittleEndian::write_u32_into(&words, &mut bytes);
    bytes
}

/// A vertex's colour and its texture coordinates.
#[tactic(auto, unfolding(crate::specs::Numbers::halves))]
fn colour_bytes(vertex: &Vertex) -> [u8; 6]
    ensures { result ≡ halves (vertex.now.colour ∷ half_of vertex.now.s ∷ half_of vertex.now.t ∷ []) }
{
    let mut bytes = [0; 6];
    let halves = [
        vertex.colour,
        vertex.s.cast_unsigned(),
        vertex.t.cast_unsigned(),
    ];
    LittleEndian::write_u16_into(&halves, &mut bytes);
    bytes
}

/// The record of a vertex.
fn vertex_bytes(vertex: &Vertex) -> [u8; 22]
    ensures { result ≡ concat (vertex_record vertex.now) }
{
    let mut bytes = [0; 22];
    bytes[..16].copy_from_slice(&coordinate_bytes(vertex));
    bytes[16..].copy_from_slice(&colour_bytes(vertex));
    bytes
}

/// A polygon's words.
#[tactic(auto, unfolding(crate::specs::Numbers::words))]
fn attribute_bytes(polygon: &Polygon) -> [u8; 16]
    ensures { result ≡ words (polygon.now.attributes ∷ polygon.now.texture ∷ polygon.now.palette ∷ polygon.now.viewport ∷ []) }
{
    let mut bytes = [0; 16];
    let words = [
        polygon.attributes,
        polygon.texture,
        polygon.palette,
        polygon.viewport,
    ];
    LittleEndian::write_u32_into(&words, &mut bytes);
    bytes
}

/// A polygon's places in the list of vertices.
#[tactic(auto, unfolding(crate::specs::Numbers::halves))]
fn index_bytes(polygon: &Polygon) -> [u8; 8]
    ensures { result ≡ halves polygon.now.indices }
{
    let mut bytes = [0; 8];
    LittleEndian::write_u16_into(&polygon.indices, &mut bytes);
    bytes
}

/// The record of a polygon.
fn polygon_bytes(polygon: &Polygon) -> [u8; 25]
    ensures { result ≡ concat (polygon_record polygon.now) }
{
    let mut bytes = [0; 25];
    bytes[..16].copy_from_slice(&attribute_bytes(polygon));
    bytes[16] = polygon.corners;
    bytes[17..].copy_from_slice(&index_bytes(polygon));
    bytes
}

/// The records of vertices, each from a small buffer.
fn put_vertices<O: Sink>(out: &mut O, vertices: &[Vertex]) -> Result<(), Failed>
    ensures { Puts O.tells O.taken O.faults (vertex_records vertices.now) result out.old out.new }
{
    for vertex in vertices {
        put_all(out, &vertex_bytes(vertex))?;
    }
    Ok(())
}

/// The records of polygons, each from a small buffer.
fn put_polygons<O: Sink>(out: &mut O, polygons: &[Polygon]) -> Result<(), Failed>
    ensures put { Puts O.tells O.taken O.faults (polygon_records polygons.now) result out.old out.new }
    ensures long { OnOk result (length (polygon_records polygons.now) ≡ 25 * length polygons.now) }
{
    for polygon in polygons {
        put_all(out, &polygon_bytes(polygon))?;
    }
    Ok(())
}

/// What comes before the lists: the swap's tick and parameter, and how long the lists are.
fn put_head<O: Sink>(out: &mut O, lists: &Lists) -> Result<(), Failed>
    ensures { Puts O.tells O.taken O.faults (concat (lists_head lists.now)) result out.old out.new }
{
    put_parts(
        out,
        &[
            b"G",
            &long_bytes(lists.tick().0),
            &word_bytes(lists.parameter()),
            &low_word_bytes(lists.vertices().len() as u64),
            &low_word_bytes(lists.polygons().len() as u64),
        ],
    )
}

/// The records of the vertices, and then of the polygons.
fn put_both<O: Sink>(out: &mut O, lists: &Lists) -> Result<(), Failed>
    ensures put { Puts O.tells O.taken O.faults (vertex_records lists.now.vertices ++ polygon_records lists.now.polygons) result out.old out.new }
    ensures long { OnOk result (length (polygon_records lists.now.polygons) ≡ 25 * length lists.now.polygons) }
{
    put_vertices(out, lists.vertices())?;
    put_polygons(out, lists.polygons())
}

/// Puts the record of the lists of a swap to a sink. It fails where a call of the sink fails; a front of the record was put then, and the sink's
/// count of faults rose. The record has 21 bytes, 22 for each vertex, and 25 for each polygon.
pub fn put_lists<O: Sink>(out: &mut O, lists: &Lists) -> Result<(), Failed>
    ensures put { Puts O.tells O.taken O.faults (lists_record lists.now) result out.old out.new }
    ensures long { OnOk result (length (lists_record lists.now) ≡ 21 + 22 * length lists.now.vertices + 25 * length lists.now.polygons) }
{
    put_head(out, lists)?;
    put_both(out, lists)
}
