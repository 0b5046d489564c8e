//! What each command leaves of the numbers.

ghost use Rattle.std.specs.Prelude.{◌≡◌, ◌<◌, ◌≤◌, ◌^◌, length};
ghost use Rattle.ds_base.specs.Bits.{bits, bit};
ghost use Rattle.gx_matrix.specs.CommandTable.{HasParameters};
ghost use Rattle.gx_geometry.specs.Coordinates.{transform_mode};
ghost use Rattle.gx_geometry.specs.BoundLaws.{AreSmall};
ghost use Rattle.gx_geometry.specs.Changes.{gives_vertex, numbers_drawn, numbers_lit, numbers_after, normal_given, coordinates_given, vertex_given, diffuse_given, specular_given, light_pointed, light_coloured, run_begun};

use crate::coordinates::{by_coordinates, by_normal, by_vertex};
use crate::lights::{lit_colour, turned};
use crate::numbers::{
    Coordinates, Light, Numbers, high_half, kind_of, low_half, point_after, point_by_halves,
};
use byteorder::{ByteOrder, LittleEndian};
use gx_matrix::GeometryCommand;

fn transform_mode(texture: u32) -> u32
    ensures { result ≡ transform_mode texture }
{
    (texture >> 30) & 3
}

/// Bits 0 to 14 of a word.
fn low_colour(word: u32) -> u16
    ensures { result ≡ bits 0 15 word }
{
    (word & 0x7FFF) as u16
}

/// Bits 16 to 30 of a word.
fn high_colour(word: u32) -> u16
    ensures { result ≡ bits 16 15 word }
{
    ((word >> 16) & 0x7FFF) as u16
}

fn bit_15(word: u32) -> bool
    ensures { result ≡ bit 15 word }
{
    (word >> 15) & 1 == 1
}

fn light_number(word: u32) -> u8
    ensures value { result ≡ bits 30 2 word }
    ensures within { result < 4 }
{
    (word >> 30 & 3) as u8
}

/// Whether a command gives a vertex.
pub fn gives_vertex(command: GeometryCommand) -> bool
    ensures { result ≡ gives_vertex command }
{
    match command {
        GeometryCommand::Vtx16
        | GeometryCommand::Vtx10
        | GeometryCommand::VtxXy
        | GeometryCommand::VtxXz
        | GeometryCommand::VtxYz
        | GeometryCommand::VtxDiff => true,
        _ => false,
    }
}

impl Numbers {
    #[tactic(auto, unfolding(crate::specs::Changes::normal_given))]
    pub fn give_normal(&mut self, word: u32)
        ensures { self.new ≡ normal_given word self.old }
    {
        self.colour = lit_colour(self, &turned(word, &self.stacks.vector()));
        if transform_mode(self.texture) == 2 {
            self.coordinates = by_normal(word, self.raw, &self.stacks.texture());
        }
    }

    #[tactic(auto, using(gx_matrix::proofs::Sums::casts), unfolding(crate::specs::Changes::coordinates_given))]
    pub fn give_coordinates(&mut self, word: u32)
        ensures { self.new ≡ coordinates_given word self.old }
    {
        let raw = Coordinates {
            s: low_half(word),
            t: high_half(word),
        };
        self.raw = raw;
        self.coordinates = if transform_mode(self.texture) == 1 {
            by_coordinates(raw, &self.stacks.texture())
        } else {
            raw
        };
    }

    #[tactic(auto, unfolding(crate::specs::Changes::vertex_given))]
    pub fn give_vertex(&mut self, command: GeometryCommand, params: &[u32])
        requires parameters { HasParameters command params.now }
        requires some { 1 ≤ length params.now }
        requires run { self.old.run ≤ 2 ^ 56 }
        ensures { self.new ≡ vertex_given command params.now self.old }
    {
        self.point = point_after(command, params, self.point);
        if transform_mode(self.texture) == 3 {
            self.coordinates = by_vertex(self.point, self.raw, &self.stacks.texture());
        }
        self.run += 1;
    }

    #[tactic(auto, unfolding(crate::specs::Changes::diffuse_given))]
    pub fn give_diffuse(&mut self, word: u32)
        ensures { self.new ≡ diffuse_given word self.old }
    {
        self.material.diffuse = low_colour(word);
        self.material.ambient = high_colour(word);
        if bit_15(word) {
            self.colour = low_colour(word);
        }
    }

    #[tactic(auto, unfolding(crate::specs::Changes::specular_given))]
    pub fn give_specular(&mut self, word: u32)
        ensures { self.new ≡ specular_given word self.old }
    {
        self.material.specular = low_colour(word);
        self.material.emission = high_colour(word);
        self.material.by_table = bit_15(word);
    }

    #[tactic(auto, using(gx_matrix::proofs::Sums::casts), unfolding(crate::specs::Changes::light_pointed))]
    pub fn point_light(&mut self, word: u32)
        ensures { self.new ≡ light_pointed word self.old }
    {
        let i = light_number(word);
        let [x, y, z, _] = turned(word, &self.stacks.vector());
        let light = self.light(i);
        self.put_light(i, Light { x, y, z, ..light });
    }

    #[tactic(auto, using(gx_matrix::proofs::Sums::casts), unfolding(crate::specs::Changes::light_coloured))]
    pub fn colour_light(&mut self, word: u32)
        ensures { self.new ≡ light_coloured word self.old }
    {
        let i = light_number(word);
        let light = self.light(i);
        let colour = low_colour(word);
        self.put_light(i, Light { colour, ..light });
    }

    #[tactic(auto, unfolding(crate::specs::Changes::run_begun))]
    pub fn begin(&mut self, word: u32)
        ensures { self.new ≡ run_begun word self.old }
    {
        self.kind = kind_of(word & 3);
        self.run = 0;
        self.attributes = self.set;
    }

    /// A vertex, the run, the viewport, a swap's parameter, the point of a test, or the matrices.
    #[tactic(auto, unfolding(crate::specs::Changes::numbers_drawn))]
    fn change_drawn(&mut self, command: GeometryCommand, params: &[u32])
        requires parameters { HasParameters command params.now }
        requires run { self.old.run ≤ 2 ^ 56 }
        ensures { self.new ≡ numbers_drawn command params.now self.old }
    {
        match command {
            GeometryCommand::BeginVtxs => self.begin(params[0]),
            GeometryCommand::SwapBuffers => self.parameter = params[0],
            GeometryCommand::Viewport => self.viewport = params[0],
            GeometryCommand::PosTest => self.point = point_by_halves(params),
            GeometryCommand::Vtx16
            | GeometryCommand::Vtx10
            | GeometryCommand::VtxXy
            | GeometryCommand::VtxXz
            | GeometryCommand::VtxYz
            | GeometryCommand::VtxDiff => self.give_vertex(command, params),
            _ => self.stacks.take_command(command, params),
        }
    }

    /// Lighting, or what isn't it.
    #[tactic(auto, unfolding(crate::specs::Changes::numbers_lit))]
    fn change_lit(&mut self, command: GeometryCommand, params: &[u32])
        requires parameters { HasParameters command params.now }
        requires run { self.old.run ≤ 2 ^ 56 }
        ensures { self.new ≡ numbers_lit command params.now self.old }
    {
        match command {
            GeometryCommand::Normal => self.give_normal(params[0]),
            GeometryCommand::DifAmb => self.give_diffuse(params[0]),
            GeometryCommand::SpeEmi => self.give_specular(params[0]),
            GeometryCommand::LightVector => self.point_light(params[0]),
            GeometryCommand::LightColor => self.colour_light(params[0]),
            GeometryCommand::Shininess => LittleEndian::write_u32_into(params, &mut self.table),
            _ => self.change_drawn(command, params),
        }
    }

    /// What a command leaves of the numbers.
    #[tactic(auto, unfolding(crate::specs::Changes::numbers_after))]
    fn change(&mut self, command: GeometryCommand, params: &[u32])
        requires parameters { HasParameters command params.now }
        requires run { self.old.run ≤ 2 ^ 56 }
        ensures { self.new ≡ numbers_after command params.now self.old }
    {
        match command {
            GeometryCommand::Color => self.colour = low_colour(params[0]),
            GeometryCommand::Texcoord => self.give_coordinates(params[0]),
            GeometryCommand::PolygonAttr => self.set = params[0],
            GeometryCommand::TeximageParam => self.texture = params[0],
            GeometryCommand::PlttBase => self.palette = params[0] & 0x1FFF,
            _ => self.change_lit(command, params),
        }
    }

    /// The same, which keeps what holds of the numbers at every time.
    pub fn renew(&mut self, command: GeometryCommand, params: &[u32])
        requires parameters { HasParameters command params.now }
        requires run { self.old.run ≤ 2 ^ 56 }
        ensures value { self.new ≡ numbers_after command params.now self.old }
        ensures small { AreSmall self.old → AreSmall self.new }
    {
        self.change(command, params);
    }
}
