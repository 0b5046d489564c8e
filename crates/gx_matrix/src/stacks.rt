//! The current matrices and their stacks, with the clip matrix, which is kept ready for the vertices that go through it.

ghost use Rattle.std.specs.Prelude.{◌≡◌, ◌≤◌};
ghost use Rattle.gx_matrix.specs.Commands.{stacks_at_boot, commanded, clip_of, levels_of, error_cleared};
ghost use Rattle.gx_matrix.specs.CommandTable.{command_of, HasParameters, IsCommand, command_taken};

mod saved;

use crate::commands::GeometryCommand;
use crate::currents::Currents;
use line_lanes::Matrix;
pub use saved::saved_laws;
use std::marker::Model;

/// The current matrices and their stacks (GBATEK, "DS 3D Matrix Stack"). Contracts see all of them.
#[derive(Drop)]
pub struct Stacks {
    currents: Currents,
    clip: Matrix,
}

impl Model for Stacks {
    ghost use Rattle.std.specs.Prelude.{◌≡◌};
    ghost use Rattle.gx_matrix.specs.Commands.{StacksState, clip_of};

    ghost Value = { StacksState };

    ghost view = { λ s. s.currents };

    ghost invariant = { λ s. s.clip ≡ clip_of s.currents };
}

impl Stacks {
    /// The four current matrices are the identity, the mode is that of the projection matrix, and all else is 0, what the stacks store too.
    pub fn boot() -> Stacks
        ensures { result ≡ stacks_at_boot }
    {
        let currents = Currents::boot();
        let clip = currents.clip();
        Stacks { currents, clip }
    }

    /// A command by its name, with as many parameters as it has. Those that aren't matrix commands change nothing here.
    #[tactic(auto, using(crate::proofs::Clips::clip_pushed, crate::proofs::Clips::clip_stored), unfolding(crate::specs::Commands::commanded, crate::specs::Commands::current_changed))]
    pub fn take_command(&mut self, command: GeometryCommand, params: &[u32])
        requires { HasParameters command params.now }
        ensures { self.new ≡ commanded command params.now self.old }
    {
        match command {
            GeometryCommand::MtxMode | GeometryCommand::MtxPush | GeometryCommand::MtxStore => {
                self.currents.take_command(command, params)
            }
            GeometryCommand::MtxPop
            | GeometryCommand::MtxRestore
            | GeometryCommand::MtxIdentity
            | GeometryCommand::MtxLoad4x4
            | GeometryCommand::MtxLoad4x3
            | GeometryCommand::MtxMult4x4
            | GeometryCommand::MtxMult4x3
            | GeometryCommand::MtxMult3x3
            | GeometryCommand::MtxScale
            | GeometryCommand::MtxTrans => {
                self.currents.take_command(command, params);
                self.clip = self.currents.clip();
            }
            _ => (),
        }
    }

    /// A command by its code, with as many parameters as it has (GBATEK, "DS 3D Geometry Commands"). Those of the codes 10h to 1Ch are
    /// matrix commands; no other changes anything here.
    pub fn command(&mut self, code: u8, params: &[u32])
        requires { IsCommand code params.now }
        ensures { self.new ≡ command_taken commanded (command_of code) params.now self.old }
    {
        if let Some(command) = GeometryCommand::of(code) {
            self.take_command(command, params);
        }
    }

    /// The clip matrix, position times projection, which every vertex goes through.
    #[inline(always)]
    pub fn clip(&self) -> Matrix
        ensures { result ≡ clip_of self.now }
    {
        self.clip
    }

    /// The vector matrix, which normals and light vectors go through.
    pub fn vector(&self) -> Matrix
        ensures { result ≡ self.now.pose.vector }
    {
        self.currents.vector()
    }

    /// The texture matrix.
    pub fn texture(&self) -> Matrix
        ensures { result ≡ self.now.texture.current }
    {
        self.currents.texture()
    }

    /// The levels as GXSTAT shows them: the position level in bits 8 to 12, the projection level in bit 13, and 0 elsewhere.
    pub fn levels(&self) -> u32
        ensures value { result ≡ levels_of self.now }
        ensures level { self.now.level ≤ 31 }
    {
        self.currents.levels()
    }

    /// Whether a push, pop, store or restore couldn't be done since the error was cleared.
    pub fn error(&self) -> bool
        ensures { result ≡ self.now.error }
    {
        self.currents.error()
    }

    /// The error is cleared, and the projection and texture levels become 0.
    pub fn clear_error(&mut self)
        ensures { self.new ≡ error_cleared self.old }
    {
        self.currents.clear_error();
    }
}
