//! Polygons of each kind, sides, runs and limits.

use super::commands::{BEGIN_VTXS, POLYGON_ATTR, VTX_DIFF, VTX_XY};
use super::{Line, Seen, try_lines};
use Line::{
    Across, ClearOverflow, Corners, Ends, Give, Last, Lists, New, Open, Polygon, Repeat, Side,
    Swap, Swapped, Vtx16,
};
use Seen::{Back, Edge, Front};
use std::alloc::AllocError;

#[rattlefmt::skip]
const THREE_VERTICES_MAKE_A_TRIANGLE_WHERE_ITS_SIDE_IS_SEEN: [Line; 42] = [
    // Side(POLYGON_ATTR, seen from, polygons)   Swapped(tick, parameter)   Lists(vertices, polygons)   Ends(x, y, z, w, colour, s, t)
    // Corners(polygon, how many, which four vertices)   Polygon(polygon, POLYGON_ATTR, TEXIMAGE_PARAM, PLTT_BASE, VIEWPORT)
    Side(0x80, Front, 1), Swapped(77, 1), Lists(3, 1), Ends(0, 0x1000, 0, 0x1000, 0x1F, 0, 0), Corners(0, 3, 0, 1, 2, 0),
    Polygon(0, 0x80, 5, 0x1FFF, 0xBFFF_0000),
    Side(0x40, Front, 0), Swapped(77, 1), Lists(3, 0), Ends(0, 0x1000, 0, 0x1000, 0x1F, 0, 0),
    Side(0x80, Back, 0), Swapped(77, 1), Lists(3, 0), Ends(0x1000, 0, 0, 0x1000, 0x1F, 0, 0),
    Side(0x40, Back, 1), Swapped(77, 1), Lists(3, 1), Ends(0x1000, 0, 0, 0x1000, 0x1F, 0, 0), Corners(0, 3, 0, 1, 2, 0),
    Polygon(0, 0x40, 5, 0x1FFF, 0xBFFF_0000),
    Side(0xC0, Edge, 1), Swapped(77, 1), Lists(3, 1), Ends(0, 0, 0, 0x1000, 0x1F, 0, 0), Corners(0, 3, 0, 1, 2, 0),
    Polygon(0, 0xC0, 5, 0x1FFF, 0xBFFF_0000),
    Side(0x80, Edge, 1), Swapped(77, 1), Lists(3, 1), Ends(0, 0, 0, 0x1000, 0x1F, 0, 0), Corners(0, 3, 0, 1, 2, 0),
    Polygon(0, 0x80, 5, 0x1FFF, 0xBFFF_0000),
    Side(0x40, Edge, 1), Swapped(77, 1), Lists(3, 1), Ends(0, 0, 0, 0x1000, 0x1F, 0, 0), Corners(0, 3, 0, 1, 2, 0),
    Polygon(0, 0x40, 5, 0x1FFF, 0xBFFF_0000),
    Side(0x00, Edge, 0), Swapped(77, 1), Lists(3, 0), Ends(0, 0, 0, 0x1000, 0x1F, 0, 0),
];

#[rattlefmt::skip]
const RUNS_MAKE_POLYGONS_OF_THEIR_KIND: [Line; 77] = [
    // Open(vertices, polygons, overflow)   Lists(vertices, polygons)   Corners(polygon, how many, which four vertices)
    New, Give(POLYGON_ATTR, 0xC0), Give(BEGIN_VTXS, 0), Give(VTX_DIFF, 0), Open(1, 0, false),
    Give(VTX_DIFF, 0), Open(2, 0, false),
    Give(VTX_DIFF, 0), Open(3, 1, false),
    Give(VTX_DIFF, 0), Open(4, 1, false),
    Give(VTX_DIFF, 0), Open(5, 1, false),
    Give(VTX_DIFF, 0), Open(6, 2, false),
    Swap(0), Lists(6, 2), Corners(0, 3, 0, 1, 2, 0), Corners(1, 3, 3, 4, 5, 0),
    New, Give(POLYGON_ATTR, 0xC0), Give(BEGIN_VTXS, 1), Give(VTX_DIFF, 0), Open(1, 0, false),
    Give(VTX_DIFF, 0), Open(2, 0, false),
    Give(VTX_DIFF, 0), Open(3, 0, false),
    Give(VTX_DIFF, 0), Open(4, 1, false),
    Give(VTX_DIFF, 0), Open(5, 1, false),
    Give(VTX_DIFF, 0), Open(6, 1, false),
    Swap(0), Lists(6, 1), Corners(0, 4, 0, 1, 2, 3),
    New, Give(POLYGON_ATTR, 0xC0), Give(BEGIN_VTXS, 2), Give(VTX_DIFF, 0), Open(1, 0, false),
    Give(VTX_DIFF, 0), Open(2, 0, false),
    Give(VTX_DIFF, 0), Open(3, 1, false),
    Give(VTX_DIFF, 0), Open(4, 2, false),
    Give(VTX_DIFF, 0), Open(5, 3, false),
    Give(VTX_DIFF, 0), Open(6, 4, false),
    Swap(0), Lists(6, 4), Corners(0, 3, 0, 1, 2, 0), Corners(1, 3, 2, 1, 3, 0), Corners(2, 3, 2, 3, 4, 0),
    Corners(3, 3, 4, 3, 5, 0),
    New, Give(POLYGON_ATTR, 0xC0), Give(BEGIN_VTXS, 3), Give(VTX_DIFF, 0), Open(1, 0, false),
    Give(VTX_DIFF, 0), Open(2, 0, false),
    Give(VTX_DIFF, 0), Open(3, 0, false),
    Give(VTX_DIFF, 0), Open(4, 1, false),
    Give(VTX_DIFF, 0), Open(5, 1, false),
    Give(VTX_DIFF, 0), Open(6, 2, false),
    Swap(0), Lists(6, 2), Corners(0, 4, 0, 1, 3, 2), Corners(1, 4, 2, 3, 5, 4),
];

#[rattlefmt::skip]
const A_RUN_GOES_ON_ACROSS_A_SWAP_WITHOUT_ITS_EARLIER_VERTICES: [Line; 22] = [
    // Across(kind, vertices before, vertices after, polygons)   Lists(vertices, polygons)
    // Polygon(polygon, POLYGON_ATTR, TEXIMAGE_PARAM, PLTT_BASE, VIEWPORT)   Corners(polygon, how many, which four vertices)
    Across(0, 2, 1, 0), Lists(1, 0),
    Across(0, 2, 4, 1), Lists(4, 1), Polygon(0, 0xC0, 0, 0, 0), Corners(0, 3, 1, 2, 3, 0),
    Across(2, 2, 2, 0), Lists(2, 0),
    Across(2, 2, 3, 1), Lists(3, 1), Polygon(0, 0xC0, 0, 0, 0), Corners(0, 3, 0, 1, 2, 0),
    Across(3, 2, 2, 0), Lists(2, 0),
    Across(3, 2, 4, 1), Lists(4, 1), Polygon(0, 0xC0, 0, 0, 0), Corners(0, 4, 0, 1, 3, 2),
    Across(1, 4, 4, 1), Lists(4, 1), Polygon(0, 0xC0, 0, 0, 0), Corners(0, 4, 0, 1, 2, 3),
];

#[rattlefmt::skip]
const WHAT_COMES_PAST_THE_LIMITS_IS_DROPPED: [Line; 36] = [
    // Repeat(times, command, parameter)   Open(vertices, polygons, overflow)   Lists(vertices, polygons)
    New, Give(POLYGON_ATTR, 0xC0), Give(BEGIN_VTXS, 0), Repeat(6144, VTX_DIFF, 0), Open(6144, 2048, false),
    Give(VTX_DIFF, 0), Open(6144, 2048, true),
    Swap(0), Open(0, 0, true), Lists(6144, 2048),
    ClearOverflow, Open(0, 0, false),
    New, Give(POLYGON_ATTR, 0xC0), Give(BEGIN_VTXS, 2), Repeat(2050, VTX_DIFF, 0), Open(2050, 2048, false),
    Give(VTX_DIFF, 0), Open(2051, 2048, true),
    Swap(0), Open(0, 0, true), Lists(2051, 2048),
    ClearOverflow, Open(0, 0, false),
    New, Give(POLYGON_ATTR, 0xC0), Give(BEGIN_VTXS, 1), Repeat(6144, VTX_DIFF, 0), Open(6144, 1536, false),
    Give(VTX_DIFF, 0), Open(6144, 1536, true),
    Swap(0), Open(0, 0, true), Lists(6144, 1536),
    ClearOverflow, Open(0, 0, false),
];

#[rattlefmt::skip]
const WHAT_WAS_DROPPED_STAYS_KNOWN_AS_DROPPED: [Line; 61] = [
    // Repeat(times, command, parameter)   Open(vertices, polygons, overflow)   Vtx16(x, y, z)   Lists(vertices, polygons)
    // Last(x, y, z, w)   Corners(polygon, how many, which four vertices)
    // quads: after 1,536 whole ones the next vertex is dropped
    Give(POLYGON_ATTR, 0xC0), Give(BEGIN_VTXS, 1), Repeat(6144, VTX_DIFF, 0), Open(6144, 1536, false),
    Vtx16(1, 2, 3), Open(6144, 1536, true),
    // also after the overflow is cleared it is known as dropped: the three vertices after a swap that would make its quad make none
    ClearOverflow, Open(6144, 1536, false),
    Swap(5), Lists(6144, 1536), Open(0, 0, false),
    // what it gave is current: VTX_XY keeps its z
    Give(VTX_XY, 0x0005_0004), Give(VTX_DIFF, 0), Give(VTX_DIFF, 0), Open(3, 0, false),
    // and the run is past it: the next four make one, of places 3 to 6
    Give(VTX_DIFF, 0), Give(VTX_DIFF, 0), Give(VTX_DIFF, 0), Open(6, 0, false),
    Give(VTX_DIFF, 0), Open(7, 1, false), Last(4, 5, 3, 0x1000), Lists(7, 1), Corners(0, 4, 3, 4, 5, 6),
    // triangles: two of a triangle are dropped, and the overflow is set again by each
    New, Give(POLYGON_ATTR, 0xC0), Give(BEGIN_VTXS, 0), Repeat(6143, VTX_DIFF, 0), Open(6143, 2047, false),
    Give(VTX_DIFF, 0), Open(6144, 2048, false),
    Give(VTX_DIFF, 0), Open(6144, 2048, true),
    ClearOverflow, Give(VTX_DIFF, 0), Open(6144, 2048, true),
    ClearOverflow, Swap(6), Give(VTX_DIFF, 0), Open(1, 0, false),
    Repeat(3, VTX_DIFF, 0), Open(4, 1, false),
    // a strip: polygons past the limit are dropped, and their vertices stay
    New, Give(POLYGON_ATTR, 0xC0), Give(BEGIN_VTXS, 2), Repeat(2050, VTX_DIFF, 0), Open(2050, 2048, false),
    Give(VTX_DIFF, 0), Open(2051, 2048, true),
    ClearOverflow, Give(VTX_DIFF, 0), Open(2052, 2048, true),
    Swap(7), Lists(2052, 2048), Corners(2047, 3, 2048, 2047, 2049, 0),
    Give(VTX_DIFF, 0), Open(1, 0, true),
    Give(VTX_DIFF, 0), Open(2, 0, true),
    Give(VTX_DIFF, 0), Open(3, 1, true),
];

#[rattlefmt::skip]
const A_STRIPS_SECOND_QUAD_IS_KEPT_BY_ITS_OWN_CORNERS: [Line; 47] = [
    // Vtx16(x, y, z)   Lists(vertices, polygons)   Corners(polygon, how many, which four vertices)
    // the first quad, of vertices 0, 1 and 3, is seen from the front, the second, of 2, 3 and 5, from behind
    New, Give(POLYGON_ATTR, 0x80), Give(BEGIN_VTXS, 3), Vtx16(0, 0x1000, 0), Vtx16(0, 0, 0), Vtx16(0x1000, 0x1000, 0),
    Vtx16(0x1000, 0, 0), Vtx16(0x2000, 0x1000, 0), Vtx16(0, 0, 0), Swap(0), Lists(6, 1), Corners(0, 4, 0, 1, 3, 2),
    New, Give(POLYGON_ATTR, 0x40), Give(BEGIN_VTXS, 3), Vtx16(0, 0x1000, 0), Vtx16(0, 0, 0), Vtx16(0x1000, 0x1000, 0),
    Vtx16(0x1000, 0, 0), Vtx16(0x2000, 0x1000, 0), Vtx16(0, 0, 0), Swap(0), Lists(6, 1), Corners(0, 4, 2, 3, 5, 4),
    New, Give(POLYGON_ATTR, 0xC0), Give(BEGIN_VTXS, 3), Vtx16(0, 0x1000, 0), Vtx16(0, 0, 0), Vtx16(0x1000, 0x1000, 0),
    Vtx16(0x1000, 0, 0), Vtx16(0x2000, 0x1000, 0), Vtx16(0, 0, 0), Swap(0), Lists(6, 2), Corners(1, 4, 2, 3, 5, 4),
    New, Give(POLYGON_ATTR, 0x00), Give(BEGIN_VTXS, 3), Vtx16(0, 0x1000, 0), Vtx16(0, 0, 0), Vtx16(0x1000, 0x1000, 0),
    Vtx16(0x1000, 0, 0), Vtx16(0x2000, 0x1000, 0), Vtx16(0, 0, 0), Swap(0), Lists(6, 0),
];

#[rattlefmt::skip]
const EACH_BEGIN_STARTS_A_RUN: [Line; 32] = [
    // Open(vertices, polygons, overflow)   Lists(vertices, polygons)   Corners(polygon, how many, which four vertices)
    // Repeat(times, command, parameter)   Polygon(polygon, POLYGON_ATTR, TEXIMAGE_PARAM, PLTT_BASE, VIEWPORT)
    // two of three, and a run begins: its three alone make one
    Give(POLYGON_ATTR, 0xC0), Give(BEGIN_VTXS, 0), Give(VTX_DIFF, 0), Give(VTX_DIFF, 0), Give(BEGIN_VTXS, 0), Give(VTX_DIFF, 0),
    Open(3, 0, false),
    Give(VTX_DIFF, 0), Open(4, 0, false),
    Give(VTX_DIFF, 0), Open(5, 1, false),
    Swap(0), Lists(5, 1), Corners(0, 3, 2, 3, 4, 0),
    // a strip goes by its own run: its second triangle is turned
    Give(BEGIN_VTXS, 0), Give(VTX_DIFF, 0), Give(BEGIN_VTXS, 2), Repeat(4, VTX_DIFF, 0), Swap(0), Lists(5, 2),
    Corners(0, 3, 1, 2, 3, 0), Corners(1, 3, 3, 2, 4, 0),
    // attributes that are set come into force with the next run
    Give(POLYGON_ATTR, 0x80), Give(BEGIN_VTXS, 0), Give(POLYGON_ATTR, 0x3F00_00C0), Repeat(3, VTX_DIFF, 0), Swap(0),
    Polygon(0, 0x80, 0, 0, 0),
    Give(BEGIN_VTXS, 0), Repeat(3, VTX_DIFF, 0), Swap(0), Polygon(0, 0x3F00_00C0, 0, 0, 0),
];

#[test]
fn each_table_holds(rt: HostRuntime) -> Result<(), AllocError> {
    let tables: [(&str, &[Line]); 7] = [
        (
            "three vertices make a triangle where its side is seen",
            &THREE_VERTICES_MAKE_A_TRIANGLE_WHERE_ITS_SIDE_IS_SEEN,
        ),
        (
            "runs make polygons of their kind",
            &RUNS_MAKE_POLYGONS_OF_THEIR_KIND,
        ),
        (
            "a run goes on across a swap without its earlier vertices",
            &A_RUN_GOES_ON_ACROSS_A_SWAP_WITHOUT_ITS_EARLIER_VERTICES,
        ),
        (
            "what comes past the limits is dropped",
            &WHAT_COMES_PAST_THE_LIMITS_IS_DROPPED,
        ),
        (
            "what was dropped stays known as dropped",
            &WHAT_WAS_DROPPED_STAYS_KNOWN_AS_DROPPED,
        ),
        (
            "a strips second quad is kept by its own corners",
            &A_STRIPS_SECOND_QUAD_IS_KEPT_BY_ITS_OWN_CORNERS,
        ),
        ("each begin starts a run", &EACH_BEGIN_STARTS_A_RUN),
    ];
    for (table, lines) in tables {
        try_lines(&rt, rt.alloc(), table, lines)?;
    }
    Ok(())
}
