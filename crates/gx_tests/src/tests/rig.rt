//! What the lines are tried on.

ghost use Rattle.std.specs.Prelude.{◌<◌, ◌≤◌};

use super::commands::{
    BEGIN_VTXS, BOX_TEST, COLOR, DIF_AMB, LIGHT_COLOR, LIGHT_VECTOR, MTX_LOAD_4X4, MTX_MODE,
    NORMAL, PLTT_BASE, POLYGON_ATTR, POS_TEST, SHININESS, SPE_EMI, SWAP_BUFFERS, TEXCOORD,
    TEXIMAGE_PARAM, VIEWPORT, VTX_16, VTX_DIFF,
};
use super::{Line, Seen, Which};
use ds_base::Tick;
use gx_geometry::{Geometry, Polygon, Vertex};
use gx_matrix::{GeometryCommand, Matrix};
use std::alloc::{AllocError, Global};

/// An engine, and the parameters that wait for a command of many.
#[derive(Drop)]
pub struct Rig {
    engine: Geometry,
    words: [u32; 32],
    count: usize,
}

impl Rig {
    pub fn new(alloc: Global) -> Result<Rig, AllocError> {
        Ok(Rig {
            engine: Geometry::new(alloc)?,
            words: [0; 32],
            count: 0,
        })
    }

    /// A new engine.
    fn renew(&mut self, alloc: Global) -> Result<(), AllocError> {
        *self = Rig::new(alloc)?;
        Ok(())
    }

    /// Takes one line, and gives what was seen and what is wanted.
    pub fn seen(&mut self, alloc: Global, line: Line) -> Result<(u32, u32), AllocError> {
        match line {
            Line::New => self.renew(alloc)?,
            Line::Side(attributes, side, made) => {
                self.renew(alloc)?;
                let seen = self.side(attributes, side);
                return Ok(((seen != made) as u32, 0));
            }
            Line::Across(kind, earlier, later, made) => {
                self.renew(alloc)?;
                let seen = self.across(kind, earlier, later);
                return Ok(((seen != made) as u32, 0));
            }
            Line::Lit(attributes, vector, light, first, second, normal, colour) => {
                self.renew(alloc)?;
                let words = [tens(vector), light, first, second, tens(normal)];
                return Ok((self.lit(attributes, words), colour as u32));
            }
            Line::Mapped(mode, normal, x, s, t) => {
                self.renew(alloc)?;
                return Ok((self.mapped(mode, normal, x), halves(s, t)));
            }
            other => return Ok(self.taken(other)),
        }
        Ok((0, 0))
    }

    /// What is done.
    fn taken(&mut self, line: Line) -> (u32, u32) {
        match line {
            Line::Run(code) => (self.run(code, &[]), 1),
            Line::Give(code, word) => (self.run(code, &[word]), 1),
            Line::Pair(code, a, b) => (self.run(code, &[a, b]), 1),
            Line::Triple(code, a, b, c) => (self.run(code, &[a, b, c]), 1),
            Line::Tens(code, x, y, z) => (self.run(code, &[tens([x, y, z])]), 1),
            Line::Vtx16(x, y, z) => (self.run(VTX_16, &[halves(x, y), halves(z, 0)]), 1),
            Line::PosTest(x, y, z) => (self.run(POS_TEST, &[halves(x, y), halves(z, 0)]), 1),
            Line::Four(a, b, c, d) => (self.wait(&[a, b, c, d]), 1),
            Line::Three(a, b, c) => (self.wait(&[a, b, c]), 1),
            Line::Many(code) => (self.many(code), 1),
            Line::Repeat(count, code, word) => (self.repeat(count, code, word), 1),
            asked => self.cleared(asked),
        }
    }

    fn cleared(&mut self, line: Line) -> (u32, u32) {
        match line {
            Line::Swap(tick) => self.engine.swap(Tick(tick)),
            Line::ClearError => self.engine.clear_error(),
            Line::ClearOverflow => self.engine.clear_overflow(),
            Line::Last(x, y, z, w) => {
                let v = self.last();
                return ((v.x != x || v.y != y || v.z != z || v.w != w) as u32, 0);
            }
            Line::Coloured(colour) => return (self.last().colour as u32, colour as u32),
            Line::Textured(s, t) => {
                let v = self.last();
                return (halves(v.s, v.t), halves(s, t));
            }
            Line::Stack(code, word, level, error, diagonal) => {
                return (self.stack(code, word, level, error, diagonal), 0);
            }
            Line::Box(at, sides, inside) => return (self.boxed(at, sides), 2 + inside as u32),
            asked => return self.asked(asked),
        }
        (0, 0)
    }

    /// A box test: 2, and 1 more where the box is seen.
    fn boxed(&mut self, at: [i16; 3], sides: [i16; 3]) -> u32 {
        let [x, y, z] = at;
        let [width, height, depth] = sides;
        let words = [halves(x, y), halves(z, width), halves(height, depth)];
        2 * self.run(BOX_TEST, &words) + self.engine.results().inside as u32
    }

    /// What is asked of the matrices and the list of commands.
    fn asked(&self, line: Line) -> (u32, u32) {
        match line {
            Line::NoCommand(code) => (GeometryCommand::of(code).is_some() as u32, 0),
            Line::Command(code, parameters, clocks) => (
                row_of(code),
                number_of(code, parameters, clocks),
            ),
            Line::Cells(which, row, a, b, c, d) => (self.other_cells(which, row, [a, b, c, d]), 0),
            Line::Diagonal(which, n) => (self.other_diagonal(which, n), 0),
            Line::Levels(levels, error) => {
                let stacks = self.engine.stacks();
                (
                    (stacks.levels() != levels || stacks.error() != error) as u32,
                    0,
                )
            }
            lists => self.listed(lists),
        }
    }

    /// What is asked of the lists and of tests.
    fn listed(&self, line: Line) -> (u32, u32) {
        let results = self.engine.results();
        let lists = self.engine.lists();
        match line {
            Line::Open(vertices, polygons, overflow) => {
                let same = results.vertices == vertices && results.polygons == polygons;
                (
                    same as u32 + 2 * results.overflow as u32,
                    1 + 2 * overflow as u32,
                )
            }
            Line::Swapped(tick, parameter) => {
                (
                    (lists.tick() != Tick(tick) || lists.parameter() != parameter) as u32,
                    0,
                )
            }
            Line::Lists(vertices, polygons) => {
                (
                    (lists.vertices().len() != vertices
                        || lists.polygons().len() != polygons) as u32,
                    0,
                )
            }
            Line::Corners(n, corners, a, b, c, d) => {
                let p = self.polygon(n);
                (
                    (p.corners != corners || p.indices != [a, b, c, d]) as u32,
                    0,
                )
            }
            Line::Polygon(n, attributes, texture, palette, viewport) => {
                let p = self.polygon(n);
                let same = p.attributes == attributes && p.texture == texture;
                (
                    (!same || p.palette != palette || p.viewport != viewport) as u32,
                    0,
                )
            }
            Line::Inside(inside) => (results.inside as u32, inside as u32),
            Line::Ends(x, y, z, w, colour, s, t) => {
                let v = self.end();
                let same = v.x == x && v.y == y && v.z == z && v.w == w;
                (
                    (!same || v.colour != colour || v.s != s || v.t != t) as u32,
                    0,
                )
            }
            Line::Position(x, y, z, w) => ((results.position != [x, y, z, w]) as u32, 0),
            Line::Vector(x, y, z) => ((results.vector != [x, y, z]) as u32, 0),
            _ => (0, 1),
        }
    }

    /// A command, where it has its number of parameters: 1, and 0 where it hasn't.
    fn run(&mut self, code: u8, params: &[u32]) -> u32
        ensures { result ≤ 1 }
    {
        match GeometryCommand::of(code) {
            Some(command)
                if params.len() == command.parameters() as usize
                    && self.engine.run_length() <= 1 << 56 => {
                self.engine.command(code, params);
                1
            }
            _ => 0,
        }
    }

    fn wait(&mut self, words: &[u32]) -> u32 {
        for word in words.iter() {
            if self.count < 32 {
                self.words[self.count] = *word;
                self.count += 1;
            }
        }
        1
    }

    fn many(&mut self, code: u8) -> u32 {
        let words = self.words;
        let count = self.count % 33;
        self.count = 0;
        self.run(code, &words[..count])
    }

    fn repeat(&mut self, count: u32, code: u8, word: u32) -> u32 {
        let mut done = 1u32;
        for _ in 0..count {
            done &= self.run(code, &[word]);
        }
        done
    }

    /// The last vertex of the lists that a swap gives.
    fn last(&mut self) -> Vertex {
        self.engine.swap(Tick(0));
        self.end()
    }

    /// The last vertex of the last swap, and one that has 1 everywhere where there is none.
    fn end(&self) -> Vertex {
        match self.engine.lists().vertices().last() {
            Some(v) => *v,
            None => Vertex {
                x: 1,
                y: 1,
                z: 1,
                w: 1,
                colour: 1,
                s: 1,
                t: 1,
            },
        }
    }

    /// A polygon of the last swap, and one without corners where there is none.
    fn polygon(&self, n: usize) -> Polygon {
        match self.engine.lists().polygons().get(n) {
            Some(p) => *p,
            None => Polygon {
                attributes: 0,
                texture: 0,
                palette: 0,
                viewport: 0,
                corners: 0,
                indices: [0; 4],
            },
        }
    }

    fn matrix(&self, which: Which) -> Matrix {
        match which {
            Which::Clip => self.engine.stacks().clip(),
            Which::Vector => self.engine.stacks().vector(),
            Which::Texture => self.engine.stacks().texture(),
        }
    }

    fn other_cells(&self, which: Which, row: usize, wanted: [i32; 4]) -> u32 {
        let m = self.matrix(which);
        let at = row % 4 * 4;
        ([
            m.cells[at],
            m.cells[at + 1],
            m.cells[at + 2],
            m.cells[at + 3],
        ] != wanted) as u32
    }

    fn other_diagonal(&self, which: Which, n: i32) -> u32 {
        let m = self.matrix(which);
        (m.cells != [n, 0, 0, 0, 0, n, 0, 0, 0, 0, n, 0, 0, 0, 0, n]) as u32
    }

    fn stack(&mut self, code: u8, word: u32, level: u32, error: bool, diagonal: i32) -> u32 {
        let done = self.run(code, &[word]) == 1 || self.run(code, &[]) == 1;
        let stacks = self.engine.stacks();
        let same = stacks.levels() == level % 0x100 * 0x100 && stacks.error() == error;
        let other = self.other_diagonal(Which::Clip, diagonal);
        self.engine.clear_error();
        (!done || !same) as u32 + 2 * (other % 2)
    }

    fn begun(&mut self, attributes: u32, kind: u32) {
        let _set = self.run(POLYGON_ATTR, &[attributes]);
        let _begun = self.run(BEGIN_VTXS, &[kind]);
    }

    fn vertex(&mut self, x: u32, y: u32) {
        let _given = self.run(VTX_16, &[x % 0x1_0000 + y % 0x1_0000 * 0x1_0000, 0]);
    }

    /// The colour, the texture parameter and the viewport come in the middle of the triangle. How many polygons there are after a swap.
    fn side(&mut self, attributes: u32, side: Seen) -> usize {
        self.begun(attributes, 0);
        let _colour = self.run(COLOR, &[0x1F]);
        let _texture = self.run(TEXIMAGE_PARAM, &[7]);
        let _palette = self.run(PLTT_BASE, &[0xFFFF_FFFF]);
        let (x, y) = match side {
            Seen::Back => (0, 0x1000),
            Seen::Front | Seen::Edge => (0x1000, 0),
        };
        self.vertex(0, 0);
        self.vertex(x, y);
        let _viewport = self.run(VIEWPORT, &[0xBFFF_0000]);
        let _texture = self.run(TEXIMAGE_PARAM, &[5]);
        match side {
            Seen::Edge => self.vertex(0, 0),
            Seen::Front | Seen::Back => self.vertex(y, x),
        }
        let _parameter = self.run(SWAP_BUFFERS, &[1]);
        self.engine.swap(Tick(77));
        self.engine.lists().polygons().len()
    }

    fn across(&mut self, kind: u32, earlier: u32, later: u32) -> usize {
        self.begun(0xC0, kind);
        let _set = self.run(POLYGON_ATTR, &[0]);
        let _before = self.repeat(earlier, VTX_DIFF, 0);
        self.engine.swap(Tick(1));
        let _after = self.repeat(later, VTX_DIFF, 0);
        self.engine.swap(Tick(2));
        self.engine.lists().polygons().len()
    }

    /// The table has 100 at place 127 and 50 at place 31. After the colour is seen, DIF_AMB with bit 15 gives another at once.
    fn lit(&mut self, attributes: u32, words: [u32; 5]) -> u32 {
        let mut table = [0; 32];
        table[31] = 100 << 24;
        table[7] = 50 << 24;
        let _table = self.run(SHININESS, &table);
        self.begun(attributes, 0);
        for (number, code) in [LIGHT_VECTOR, LIGHT_COLOR, DIF_AMB, SPE_EMI, NORMAL]
            .iter()
            .enumerate()
        {
            let _given = self.run(*code, &[words[number % 5]]);
        }
        let _vertex = self.run(VTX_DIFF, &[0]);
        let colour = self.last().colour as u32;
        let _diffuse = self.run(DIF_AMB, &[0xFFFF]);
        let _vertex = self.run(VTX_DIFF, &[0]);
        if self.last().colour == 0x7FFF {
            colour
        } else {
            0x8000
        }
    }

    /// Without a transform the coordinates stay as they were.
    fn mapped(&mut self, mode: u32, normal: u32, x: u32) -> u32 {
        let _mode = self.run(MTX_MODE, &[3]);
        let _loaded = self.run(
            MTX_LOAD_4X4,
            &[
                0x2000,
                0x1000,
                0,
                0,
                0x3000,
                0x800,
                0,
                0,
                0x1000,
                0,
                0,
                0,
                0x1000,
                0xFFFF_FFFF,
                0,
                0,
            ],
        );
        let _texture = self.run(TEXIMAGE_PARAM, &[mode % 4 * 0x4000_0000]);
        let _coordinates = self.run(TEXCOORD, &[0xFFEC_000A]);
        let _normal = self.run(NORMAL, &[normal]);
        self.vertex(x, 0);
        let first = self.last();
        let _texture = self.run(TEXIMAGE_PARAM, &[0]);
        self.vertex(0, 0);
        let second = self.last();
        if first.s == second.s && first.t == second.t {
            halves(first.s, first.t)
        } else {
            0
        }
    }
}

/// Two signed halves as a word.
fn halves(low: i16, high: i16) -> u32 {
    low.cast_unsigned() as u32 + 0x1_0000 * high.cast_unsigned() as u32
}

/// Three signed numbers of ten bits as a word.
fn tens(numbers: [i16; 3]) -> u32 {
    let [x, y, z] = numbers;
    ten(x) + 0x400 * ten(y) + 0x10_0000 * ten(z)
}

fn ten(number: i16) -> u32
    ensures { result < 0x400 }
{
    number.cast_unsigned() as u32 % 0x400
}

fn number_of(code: u8, parameters: u8, clocks: u16) -> u32 {
    code as u32 + 0x100 * parameters as u32 + 0x1_0000 * clocks as u32
}

fn row_of(code: u8) -> u32 {
    match GeometryCommand::of(code) {
        Some(command) => number_of(code, command.parameters(), command.clocks()),
        None => 0,
    }
}
