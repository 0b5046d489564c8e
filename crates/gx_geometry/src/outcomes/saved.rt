//! The results of tests in bytes, and what stands beside them.

ghost use Rattle.std.specs.Prelude.{◌≡◌, ◌≤◌, true, length, IfOk, OnOk};
ghost use Rattle.ds_state.specs.Formats.{bytes_written, number_code};
ghost use Rattle.ds_state.specs.Reading.{GivesRead, read_code, read_format, ruled};
ghost use Rattle.gx_geometry.specs.Bounds.{is_place, is_told};
ghost use Rattle.gx_geometry.specs.BoundLaws.{AreLimited, ArePlaces};
ghost use Rattle.gx_geometry.specs.Polygons.{most_polygons, most_vertices};
ghost use Rattle.gx_geometry.specs.Saved.{holds_recent, place_number, place_of_number};
ghost use Rattle.gx_geometry.specs.SavedKept.{results_format, results_seen};

use crate::capped::Capped;
use crate::lists::{POLYGONS, VERTICES};
use crate::outcomes::Outcome;
use crate::polygons::{Polygon, Vertex};
use crate::results::Results;
use ds_state::{Packer, Unpacked, Unpacker, holds, put_list, take_each};
use std::alloc::AllocError;

/// Puts the results of tests.
#[tactic(auto, unfolding(crate::specs::SavedKept::results_format))]
pub fn put_results(into: &mut Packer, results: &Results) -> Result<(), AllocError>
    ensures { OnOk result (into.new ≡ bytes_written results_format into.old (results_seen results.now)) }
{
    put_list(into, &results.position)?;
    into.put_i16(results.vector[0])?;
    into.put_i16(results.vector[1])?;
    into.put_i16(results.vector[2])?;
    into.put_flag(results.inside)?;
    Ok(())
}

/// Takes the results of tests; the lists' lengths and overflow are 0.
#[tactic(auto, unfolding(crate::specs::SavedKept::results_format))]
pub fn take_results(from: &mut Unpacker, at: u64) -> Result<Results, Unpacked>
    ensures { GivesRead results_seen result from.new (read_format results_format at from.old) }
{
    let mut position = [0i32; 4];
    take_each(from, &mut position, at)?;
    let a = from.take_i16()?;
    let b = from.take_i16()?;
    let c = from.take_i16()?;
    let inside = from.take_flag()?;
    Ok(Results {
        position,
        vector: [a, b, c],
        inside,
        vertices: 0,
        polygons: 0,
        overflow: false,
    })
}

/// The bytes' number of what stands nowhere.
const NOWHERE: u16 = 0xFFFF;

/// The number of a place in bytes.
pub fn place_number(place: Option<u16>) -> u16
    ensures { result ≡ place_number place }
{
    place.unwrap_or(NOWHERE)
}

/// The place that a number in bytes tells.
pub fn place_of_number(number: u16) -> Option<u16>
    ensures { result ≡ place_of_number number }
{
    if number == NOWHERE {
        None
    } else {
        Some(number)
    }
}

/// Takes the number of the place of a run's vertex, the last but so many; one that the run doesn't have stands nowhere.
pub fn take_place(from: &mut Unpacker, run: u64, back: u64) -> Result<u16, Unpacked>
    ensures reads { GivesRead (λ p. p) result from.new
        (ruled (λ n. is_told run back (place_of_number n)) from.old (read_code (number_code 2) from.old)) }
    ensures told { IfOk result (λ n. is_told run back (place_of_number n) ≡ true) }
{
    let offset = from.place();
    let number = from.take_u16()?;
    holds(place_of_number(number).is_none() || back <= run, offset)?;
    Ok(number)
}

fn is_place(long: u32, place: Option<u16>) -> bool
    ensures { result ≡ is_place long place }
{
    match place {
        Some(place) => (place as u32) < long,
        None => true,
    }
}

/// Takes how many vertices the open list has, of which the run's last three are some.
pub fn take_length(from: &mut Unpacker, recent: [Option<u16>; 3]) -> Result<u32, Unpacked>
    ensures reads { GivesRead (λ n. n) result from.new
        (ruled (holds_recent recent 0) from.old (read_code (number_code 4) from.old)) }
    ensures most { IfOk result (λ n. n ≤ most_vertices) }
    ensures places { IfOk result (λ n. ArePlaces n recent) }
{
    let offset = from.place();
    let long = from.take_u32()?;
    let places = is_place(long, recent[0])
        && is_place(long, recent[1])
        && is_place(long, recent[2]);
    holds(long <= VERTICES as u32 && places, offset)?;
    Ok(long)
}

impl Outcome {
    /// The same results with these lists, and where the run's last three vertices stand in them.
    pub fn of(
        results: Results,
        overflow: bool,
        recent: [Option<u16>; 3],
        vertices: Capped<Vertex, VERTICES>,
        polygons: Capped<Polygon, POLYGONS>,
    ) -> Outcome
        requires limited { AreLimited vertices polygons }
        requires places { ArePlaces (length vertices) recent }
        ensures { result ≡ record {
          position = results.position;
          vector = results.vector;
          inside = results.inside;
          vertices = vertices;
          polygons = polygons;
          overflow = overflow;
          recent = recent;
        } }
    {
        Outcome {
            results: Results {
                vertices: vertices.as_slice().len() as u16,
                polygons: polygons.as_slice().len() as u16,
                overflow,
                ..results
            },
            vertices,
            polygons,
            recent,
        }
    }

    /// Where the run's last three vertices stand in the open list.
    pub fn recent(&self) -> [Option<u16>; 3]
        ensures { result ≡ self.now.recent }
    {
        self.recent
    }

    /// The vertices of the open list.
    pub fn vertices(&self) -> &[Vertex]
        ensures value { result.now ≡ self.now.vertices }
        ensures within { length self.now.vertices ≤ most_vertices }
    {
        self.vertices.as_slice()
    }

    /// The polygons of the open list.
    pub fn polygons(&self) -> &[Polygon]
        ensures value { result.now ≡ self.now.polygons }
        ensures within { length self.now.polygons ≤ most_polygons }
    {
        self.polygons.as_slice()
    }
}
