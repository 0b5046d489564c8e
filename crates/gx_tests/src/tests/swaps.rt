//! A swap's parameter, which the swap uses up.

use super::commands::{SWAP_BUFFERS, VTX_DIFF};
use super::{Line, try_lines};
use Line::{Give, Lists, New, Open, Swap, Swapped};
use std::alloc::AllocError;

#[rattlefmt::skip]
const A_SWAP_USES_ITS_PARAMETER_UP: [Line; 19] = [
    // Swapped(tick, parameter)   Open(vertices, polygons, overflow)   Lists(vertices, polygons)
    // one that was asked for has the last parameter that came; before that the last lists are none
    Swapped(0, 0),
    Give(SWAP_BUFFERS, 1), Give(SWAP_BUFFERS, 3), Swapped(0, 0),
    Swap(100), Swapped(100, 3),
    // another that nothing asked for has 0
    Swap(200), Swapped(200, 0),
    // also where vertices came between them, which it gives out
    Give(SWAP_BUFFERS, 2), Swap(300), Swapped(300, 2),
    Give(VTX_DIFF, 0), Open(1, 0, false),
    Swap(400), Swapped(400, 0), Lists(1, 0),
    // and a new engine has none
    New, Swap(500), Swapped(500, 0),
];

#[test]
fn each_table_holds(rt: HostRuntime) -> Result<(), AllocError> {
    try_lines(
        &rt,
        rt.alloc(),
        "a swap uses its parameter up",
        &A_SWAP_USES_ITS_PARAMETER_UP,
    )
}
