//! Saved states that are taken, and saved again.

ghost use Rattle.std.specs.Prelude.{◌≡◌, ◌<◌, ◌^◌, IsTrue, None, length};

use crate::calls::goes_on;
use crate::chances::Chance;
use crate::scenes::Scene;
use ds_base::{Keys, Tick};
use ds_header::Cart;
use ds_io::{Calls, MemSink};
use nds_top::{empty_seat, let_go, put_resumed, save};
use run_ahead::Console;
use std::alloc::{AllocError, Global};

/// A limit that is greater than the tick of each state here.
const UNTIL: Tick = Tick(100_000_000_000);

/// The greatest length of a state that is taken here, in bytes.
const MOST_BYTES: usize = 8_388_608;

/// What came of a state's bytes.
#[derive(Clone, Copy, PartialEq, Eq)]
pub enum Taken {
    /// They aren't a state of the cartridge.
    Refused,
    /// They are one, and it is saved as the same bytes.
    Same,
    /// They are one, and it is saved as other bytes, or goes on before its tick.
    Other,
}

/// The bytes as which a console that was taken is saved at its tick; none where it isn't.
fn saved_again(alloc: Global, console: &mut Console) -> Result<Option<Vec<u8>>, AllocError> {
    if !goes_on(console) {
        return Ok(None);
    }
    let until = console.limit();
    if until.0 > UNTIL.0 {
        return Ok(None);
    }
    let mut out = MemSink::new(alloc, Calls::new(alloc), MOST_BYTES)?;
    save(alloc, console, until, &mut out)?;
    Ok(Some(Vec::from_slice(alloc, out.bytes())?))
}

/// What came of a state's bytes, by the console that they put into the seat.
fn came_of(alloc: Global, seat: &mut Option<Console>, bytes: &[u8]) -> Result<Taken, AllocError> {
    let Some(console) = seat else {
        return Ok(Taken::Refused);
    };
    match saved_again(alloc, console)? {
        Some(saved) if saved.as_slice() == bytes => Ok(Taken::Same),
        _ => Ok(Taken::Other),
    }
}

/// Puts the console that a state's bytes stand for, without keys, into the seat, which is empty before; none where they are refused.
fn seat_state(
    alloc: Global,
    scene: &Scene,
    bytes: &[u8],
    seat: &mut Option<Console>,
) -> Result<(), AllocError>
    requires few { length bytes.now < 2 ^ 32 }
    requires empty { seat.old ≡ None }
{
    let Ok(cart) = Cart::read(scene.cart(alloc)?) else {
        return Ok(());
    };
    let _ = put_resumed(alloc, cart, Keys::new(alloc), bytes, UNTIL, seat);
    Ok(())
}

/// What comes of a state's bytes with the cartridge of a scene.
pub fn take_state(alloc: Global, scene: &Scene, bytes: &[u8]) -> Result<Taken, AllocError> {
    if bytes.len() > MOST_BYTES {
        return Ok(Taken::Refused);
    }
    let mut seat = empty_seat();
    seat_state(alloc, scene, bytes, &mut seat)?;
    let came = came_of(alloc, &mut seat, bytes);
    let_go(seat);
    came
}

/// How many of so many changes by chance of a state's bytes are taken and aren't saved again as the same bytes, and the first of them, from 1.
pub fn wrong_tries(
    alloc: Global,
    scene: &Scene,
    state: &[u8],
    count: u64,
    seed: u64,
) -> Result<[u64; 2], AllocError> {
    let mut chance = Chance::new(seed);
    let mut wrong = 0u64;
    let mut first = 0;
    for number in 0..count {
        let bytes = chance.changed(alloc, state)?;
        if let Taken::Other = take_state(alloc, scene, bytes.as_slice())? {
            wrong = wrong.saturating_add(1);
            if first == 0 {
                first = number.saturating_add(1);
            }
        }
    }
    Ok([wrong, first])
}
