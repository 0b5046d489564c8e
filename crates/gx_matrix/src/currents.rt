//! The current matrices and their stacks, as commands change them.

ghost use Rattle.std.specs.Prelude.{◌≡◌, ◌<◌, ◌≤◌, pos, negsuc, ◌-ℤ◌, ◌≤ℤ◌, IfSome};
ghost use Rattle.gx_matrix.specs.Commands.{StacksState, stacks_at_boot, mode_of, matrix_loaded, multiplied, scaled_mode, pose_place, pose_pushed, pushed, popped_place, pose_popped, popped, signed_bits, named_place, pose_stored, matrix_stored, pose_restored, matrix_restored, current_changed, commanded, clip_of, levels_of, error_cleared};
ghost use Rattle.gx_matrix.specs.CommandTable.{HasParameters};

mod saved;

use crate::algebra::{given, identity, product, scaling, translation};
use crate::commands::GeometryCommand;
use line_lanes::Matrix;
use std::marker::Model;

/// How many places the stack of position and vector matrices has.
const PLACES: usize = 31;

/// Which matrices a command acts on (GBATEK, "DS 3D Matrix Stack", MTX_MODE).
#[derive(Clone, Copy, PartialEq, Eq)]
pub enum Mode {
    /// The projection matrix.
    Projection,
    /// The position matrix.
    Position,
    /// The position matrix and the vector matrix.
    PositionAndVector,
    /// The texture matrix.
    Texture,
}

/// A matrix with a stack of one place.
#[derive(Clone, Copy)]
pub struct Single {
    /// The current matrix.
    pub current: Matrix,
    /// The stack's place.
    pub stored: Matrix,
    /// Whether the stack's level is 1, and not 0.
    pub pushed: bool,
}

/// The two matrices that share a stack.
#[derive(Clone, Copy)]
pub struct Pose {
    /// The matrix of vertices.
    pub position: Matrix,
    /// The matrix of normals and light vectors.
    pub vector: Matrix,
}

/// The current matrices and their stacks.
#[derive(Drop)]
pub struct Currents {
    mode: Mode,
    projection: Single,
    texture: Single,
    pose: Pose,
    poses: [Pose; PLACES],
    level: u8,
    error: bool,
}

impl Model for Currents {
    ghost use Rattle.std.specs.Prelude.{◌≤◌};
    ghost use Rattle.gx_matrix.specs.Commands.{StacksState};

    ghost Value = { StacksState };

    ghost view = { λ s. record {
      mode = s.mode;
      projection = s.projection;
      texture = s.texture;
      pose = s.pose;
      poses = s.poses;
      level = s.level;
      error = s.error;
    } };

    ghost invariant = { λ s. s.level ≤ 31 };
}

fn mode_of(n: u32) -> Mode
    ensures { result ≡ mode_of n }
{
    match n {
        0 => Mode::Projection,
        1 => Mode::Position,
        2 => Mode::PositionAndVector,
        _ => Mode::Texture,
    }
}

/// A place of the stack of poses, if the stack has it.
fn pose_place(n: i32) -> Option<u8>
    ensures value { result ≡ pose_place n }
    ensures within { IfSome result (λ n. n < 31) }
{
    if 0 <= n && n <= 30 {
        Some(n as u8)
    } else {
        None
    }
}

/// By how much a pop lowers the level: a signed number of six bits.
fn pop_count(word: u32) -> i32
    ensures value { result ≡ signed_bits 0 6 word }
    ensures low { negsuc 31 ≤ℤ result }
    ensures high { result ≤ℤ pos 31 }
{
    let count = (word & 63).cast_signed();
    if count < 32 { count } else { count - 64 }
}

fn difference(level: i32, count: i32) -> i32
    requires level_low { pos 0 ≤ℤ level }
    requires level_high { level ≤ℤ pos 31 }
    requires low { negsuc 31 ≤ℤ count }
    requires high { count ≤ℤ pos 31 }
    ensures { result ≡ level -ℤ count }
{
    level - count
}

/// The place to which a pop leads, if the stack has it.
#[tactic(auto, using(crate::proofs::Sums::casts), unfolding(crate::specs::Commands::popped_place))]
fn popped_place(level: u8, word: u32) -> Option<u8>
    requires { level ≤ 31 }
    ensures value { result ≡ popped_place level word }
    ensures within { IfSome result (λ n. n < 31) }
{
    pose_place(difference(level as i32, pop_count(word)))
}

/// The place that a parameter names, if the stack has it.
#[tactic(auto, unfolding(crate::specs::Commands::named_place))]
fn named_place(word: u32) -> Option<u8>
    ensures value { result ≡ named_place word }
    ensures within { IfSome result (λ n. n < 31) }
{
    let to = (word & 31) as u8;
    if to <= 30 { Some(to) } else { None }
}

impl Currents {
    /// The four current matrices are the identity, the mode is that of the projection matrix, and all else is 0, what the stacks store too.
    #[tactic(auto, unfolding(crate::specs::Commands::stacks_at_boot, crate::specs::Commands::poses_at_boot, crate::specs::Commands::zero_matrix))]
    pub fn boot() -> Currents
        ensures { result ≡ stacks_at_boot }
    {
        let one = identity();
        let zero = Matrix { cells: [0; 16] };
        let single = Single {
            current: one,
            stored: zero,
            pushed: false,
        };
        let pose = Pose {
            position: one,
            vector: one,
        };
        let stored = Pose {
            position: zero,
            vector: zero,
        };
        Currents {
            mode: Mode::Projection,
            projection: single,
            texture: single,
            pose,
            poses: [stored; PLACES],
            level: 0,
            error: false,
        }
    }

    #[tactic(auto, unfolding(crate::specs::Commands::matrix_loaded))]
    fn load(&mut self, m: Matrix)
        ensures { self.new ≡ matrix_loaded self.old.mode m self.old }
    {
        match self.mode {
            Mode::Projection => self.projection.current = m,
            Mode::Position => self.pose.position = m,
            Mode::PositionAndVector => {
                self.pose = Pose {
                    position: m,
                    vector: m,
                }
            }
            Mode::Texture => self.texture.current = m,
        }
    }

    #[tactic(auto, unfolding(crate::specs::Commands::multiplied))]
    fn multiply(&mut self, mode: Mode, m: Matrix)
        ensures { self.new ≡ multiplied mode m self.old }
    {
        match mode {
            Mode::Projection => self.projection.current = product(&m, &self.projection.current),
            Mode::Position => self.pose.position = product(&m, &self.pose.position),
            Mode::PositionAndVector => {
                self.pose = Pose {
                    position: product(&m, &self.pose.position),
                    vector: product(&m, &self.pose.vector),
                }
            }
            Mode::Texture => self.texture.current = product(&m, &self.texture.current),
        }
    }

    #[tactic(auto, unfolding(crate::specs::Commands::pushed))]
    fn push(&mut self)
        ensures { self.new ≡ pushed self.old.mode self.old }
    {
        match self.mode {
            Mode::Projection if self.projection.pushed => self.error = true,
            Mode::Projection => {
                self.projection.stored = self.projection.current;
                self.projection.pushed = true;
            }
            Mode::Texture if self.texture.pushed => self.error = true,
            Mode::Texture => {
                self.texture.stored = self.texture.current;
                self.texture.pushed = true;
            }
            Mode::Position | Mode::PositionAndVector => self.push_pose(),
        }
    }

    fn push_pose(&mut self)
        ensures { self.new ≡ pose_pushed (pose_place (pos self.old.level)) self.old }
    {
        if self.level <= 30 {
            self.poses[self.level as usize] = self.pose;
            self.level += 1;
        } else {
            self.error = true;
        }
    }

    #[tactic(auto, unfolding(crate::specs::Commands::popped))]
    fn pop(&mut self, word: u32)
        ensures { self.new ≡ popped self.old.mode word self.old }
    {
        match self.mode {
            Mode::Projection if self.projection.pushed => {
                self.projection.current = self.projection.stored;
                self.projection.pushed = false;
            }
            Mode::Texture if self.texture.pushed => {
                self.texture.current = self.texture.stored;
                self.texture.pushed = false;
            }
            Mode::Projection | Mode::Texture => self.error = true,
            Mode::Position | Mode::PositionAndVector => self.pop_pose(word),
        }
    }

    fn pop_pose(&mut self, word: u32)
        ensures { self.new ≡ pose_popped (popped_place self.old.level word) self.old }
    {
        match popped_place(self.level, word) {
            None => self.error = true,
            Some(n) => {
                self.pose = self.poses[n as usize];
                self.level = n;
            }
        }
    }

    #[tactic(auto, unfolding(crate::specs::Commands::matrix_stored))]
    fn store(&mut self, word: u32)
        ensures { self.new ≡ matrix_stored self.old.mode word self.old }
    {
        match self.mode {
            Mode::Projection => self.projection.stored = self.projection.current,
            Mode::Texture => self.texture.stored = self.texture.current,
            Mode::Position | Mode::PositionAndVector => self.store_pose(word),
        }
    }

    fn store_pose(&mut self, word: u32)
        ensures { self.new ≡ pose_stored (named_place word) self.old }
    {
        match named_place(word) {
            None => self.error = true,
            Some(n) => self.poses[n as usize] = self.pose,
        }
    }

    #[tactic(auto, unfolding(crate::specs::Commands::matrix_restored))]
    fn restore(&mut self, word: u32)
        ensures { self.new ≡ matrix_restored self.old.mode word self.old }
    {
        match self.mode {
            Mode::Projection => self.projection.current = self.projection.stored,
            Mode::Texture => self.texture.current = self.texture.stored,
            Mode::Position | Mode::PositionAndVector => self.restore_pose(word),
        }
    }

    fn restore_pose(&mut self, word: u32)
        ensures { self.new ≡ pose_restored (named_place word) self.old }
    {
        match named_place(word) {
            None => self.error = true,
            Some(n) => self.pose = self.poses[n as usize],
        }
    }

    /// A command that changes the current matrices; any other leaves all as it is.
    #[tactic(auto, unfolding(crate::specs::Commands::current_changed))]
    fn change_current(&mut self, command: GeometryCommand, params: &[u32])
        requires { HasParameters command params.now }
        ensures { self.new ≡ current_changed command params.now self.old }
    {
        match command {
            GeometryCommand::MtxIdentity => self.load(identity()),
            GeometryCommand::MtxLoad4x4 => self.load(given(4, 4, params)),
            GeometryCommand::MtxLoad4x3 => self.load(given(4, 3, params)),
            GeometryCommand::MtxMult4x4 => self.multiply(self.mode, given(4, 4, params)),
            GeometryCommand::MtxMult4x3 => self.multiply(self.mode, given(4, 3, params)),
            GeometryCommand::MtxMult3x3 => self.multiply(self.mode, given(3, 3, params)),
            GeometryCommand::MtxScale => self.multiply(scaled_mode(self.mode), scaling(params)),
            GeometryCommand::MtxTrans => self.multiply(self.mode, translation(params)),
            _ => (),
        }
    }

    /// A command by its name.
    #[tactic(auto, unfolding(crate::specs::Commands::commanded))]
    pub fn take_command(&mut self, command: GeometryCommand, params: &[u32])
        requires { HasParameters command params.now }
        ensures { self.new ≡ commanded command params.now self.old }
    {
        match command {
            GeometryCommand::MtxMode => self.mode = mode_of(params[0] & 3),
            GeometryCommand::MtxPush => self.push(),
            GeometryCommand::MtxPop => self.pop(params[0]),
            GeometryCommand::MtxStore => self.store(params[0]),
            GeometryCommand::MtxRestore => self.restore(params[0]),
            _ => self.change_current(command, params),
        }
    }

    /// Position times projection.
    pub fn clip(&self) -> Matrix
        ensures { result ≡ clip_of self.now }
    {
        product(&self.pose.position, &self.projection.current)
    }

    pub fn vector(&self) -> Matrix
        ensures { result ≡ self.now.pose.vector }
    {
        self.pose.vector
    }

    pub fn texture(&self) -> Matrix
        ensures { result ≡ self.now.texture.current }
    {
        self.texture.current
    }

    /// The levels as GXSTAT shows them: the position level in bits 8 to 12, the projection level in bit 13, and 0 elsewhere.
    pub fn levels(&self) -> u32
        ensures value { result ≡ levels_of self.now }
        ensures level { self.now.level ≤ 31 }
    {
        let projection = if self.projection.pushed { 1 << 13 } else { 0 };
        ((self.level as u32) << 8) + projection
    }

    pub fn error(&self) -> bool
        ensures { result ≡ self.now.error }
    {
        self.error
    }

    pub fn clear_error(&mut self)
        ensures { self.new ≡ error_cleared self.old }
    {
        self.error = false;
        self.projection.pushed = false;
        self.texture.pushed = false;
    }
}

fn scaled_mode(mode: Mode) -> Mode
    ensures { result ≡ scaled_mode mode }
{
    match mode {
        Mode::PositionAndVector => Mode::Position,
        other => other,
    }
}
