//! Matrices of the geometry engine.
ghost use Rattle.std.specs.Prelude.{◌≡◌, ◌<◌};
ghost use Rattle.line_lanes.specs.Matrices.{row_of, column_of};

/// A matrix of 4 by 4 signed numbers with 12 fractional bits, row by row: the cell of row r and column c stands at 4 r + c
/// (GBATEK, "DS 3D Matrix Types").
#[derive(Clone, Copy, PartialEq, Eq, Debug)]
pub struct Matrix {
    /// The sixteen cells.
    pub cells: [i32; 16],
}

impl Matrix {
    /// A row, by its number.
    #[inline(always)]
    pub fn row(&self, r: usize) -> [i32; 4]
        requires { r < 4 }
        ensures { result ≡ row_of self.now r }
    {
        [
            self.cells[4 * r],
            self.cells[4 * r + 1],
            self.cells[4 * r + 2],
            self.cells[4 * r + 3],
        ]
    }

    /// A column, by its number.
    #[inline(always)]
    pub fn column(&self, c: usize) -> [i32; 4]
        requires { c < 4 }
        ensures { result ≡ column_of self.now c }
    {
        [
            self.cells[c],
            self.cells[4 + c],
            self.cells[8 + c],
            self.cells[12 + c],
        ]
    }
}
