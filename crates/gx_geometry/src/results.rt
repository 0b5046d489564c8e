//! What the geometry engine's registers show of tests and of the open lists.

/// The results of tests, and how far the open lists are filled.
#[derive(Clone, Copy)]
pub struct Results {
    /// The vertex of the last position test in clip space: x, y, z, w, and 0 before (GBATEK, POS_RESULT).
    pub position: [i32; 4],
    /// The vector of the last vector test, with 12 fractional bits, and 0 before (GBATEK, VEC_RESULT).
    pub vector: [i16; 3],
    /// Whether the last box test saw its box, and false before (GBATEK, GXSTAT bit 1).
    pub inside: bool,
    /// How many vertices the open list has, at most 6,144.
    pub vertices: u16,
    /// How many polygons the open list has, at most 2,048.
    pub polygons: u16,
    /// Whether a vertex or a polygon was dropped since this was cleared (GBATEK, DISP3DCNT bit 13).
    pub overflow: bool,
}
