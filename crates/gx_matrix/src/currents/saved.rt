//! The current matrices and their stacks in bytes.

ghost use Rattle.std.specs.Prelude.{◌≡◌, ◌<◌, ℕ, pos, FitsSigned, slice_index_or, length, map, not, IfOk, OnOk};
ghost use Rattle.std.specs.Int.{w32};
ghost use Rattle.ds_state.specs.Formats.{bytes_written, written_each};
ghost use Rattle.ds_state.specs.Reading.{GivesRead, read_format, read_list};
ghost use Rattle.gx_matrix.specs.Commands.{zero_pose, mode_of};
ghost use Rattle.gx_matrix.specs.Saved.{AreStacks, IsMatrix, IsPose, matrix_format, mode_number, pose_half, stacks_format};

use crate::currents::{Currents, Mode, PLACES, Pose, Single, mode_of};
use ds_base::known;
use ds_state::{Packer, Unpacked, Unpacker, put_list, take_each};
use line_lanes::Matrix;
use std::alloc::AllocError;

fn mode_number(mode: Mode) -> u8
    ensures { result ≡ mode_number mode }
{
    match mode {
        Mode::Projection => 0,
        Mode::Position => 1,
        Mode::PositionAndVector => 2,
        Mode::Texture => 3,
    }
}

fn is_word(number: i32)
    ensures { FitsSigned w32 number }
{}

/// Does nothing; its contract states that numbers are signed words.
fn are_words(numbers: &[i32])
    ensures { (i : ℕ) → i < length numbers.now → FitsSigned w32 (slice_index_or numbers.now i (pos 0)) }
{
    for number in numbers {
        is_word(*number);
    }
}

/// Does nothing; its contract states how many cells a matrix has, and that they are signed words.
fn is_matrix(matrix: &Matrix)
    ensures { IsMatrix matrix.now }
{
    known!(are_words(&matrix.cells));
}

/// The same of each place of a stack.
fn are_poses(poses: &[Pose])
    ensures { (i : ℕ) → i < length poses.now → IsPose (slice_index_or poses.now i zero_pose) }
{
    for pose in poses {
        known!(is_matrix(&pose.position));
        known!(is_matrix(&pose.vector));
    }
}

/// Puts the sixteen cells.
#[tactic(auto, unfolding(crate::specs::Saved::matrix_format))]
fn put_matrix(into: &mut Packer, matrix: &Matrix) -> Result<(), AllocError>
    ensures { OnOk result (into.new ≡ bytes_written matrix_format into.old matrix.now) }
{
    put_list(into, &matrix.cells)
}

/// Takes sixteen cells.
#[tactic(auto, unfolding(crate::specs::Saved::matrix_format))]
fn take_matrix(from: &mut Unpacker, at: u64) -> Result<Matrix, Unpacked>
    ensures { GivesRead (λ m. m) result from.new (read_format matrix_format at from.old) }
{
    let mut cells = [0; 16];
    take_each(from, &mut cells, at)?;
    Ok(Matrix { cells })
}

/// One of the two matrices of a place.
fn half(pose: Pose, vector: bool) -> Matrix
    ensures { result ≡ pose_half vector pose }
{
    if vector { pose.vector } else { pose.position }
}

/// A place with another matrix for one of its two.
fn with_half(pose: Pose, vector: bool, matrix: Matrix) -> Pose
    ensures one { pose_half vector result ≡ matrix }
    ensures other { pose_half (not vector) result ≡ pose_half (not vector) pose }
{
    if vector {
        Pose {
            vector: matrix,
            ..pose
        }
    } else {
        Pose {
            position: matrix,
            ..pose
        }
    }
}

/// Puts one matrix of each place.
fn put_halves(into: &mut Packer, poses: &[Pose], vector: bool) -> Result<(), AllocError>
    ensures { OnOk result (into.new ≡ written_each (bytes_written matrix_format) into.old (map (pose_half vector) poses.now)) }
{
    for pose in poses {
        put_matrix(into, &half(*pose, vector))?;
    }
    Ok(())
}

/// Takes one matrix of each place, and leaves the other.
fn take_halves(
    from: &mut Unpacker,
    poses: &mut [Pose],
    vector: bool,
    at: u64,
) -> Result<(), Unpacked>
    ensures reads { GivesRead (λ _. map (pose_half vector) poses.new) result from.new
        (read_list (read_format matrix_format at) (length poses.old) from.old) }
    ensures others { map (pose_half (not vector)) poses.new ≡ map (pose_half (not vector)) poses.old }
    ensures long { length poses.new ≡ length poses.old }
{
    for i in 0..poses.len() {
        poses[i] = with_half(poses[i], vector, take_matrix(from, at)?);
    }
    Ok(())
}

impl Currents {
    /// Puts all that there is, 4,357 bytes. The error is want of memory.
    #[tactic(auto, unfolding(crate::specs::Saved::stacks_format))]
    pub fn pack(&self, into: &mut Packer) -> Result<(), AllocError>
        ensures { OnOk result (into.new ≡ bytes_written stacks_format into.old self.now) }
    {
        into.put_u8(mode_number(self.mode))?;
        into.put_u8(self.level)?;
        into.put_flag(self.projection.pushed)?;
        into.put_flag(self.texture.pushed)?;
        into.put_flag(self.error)?;
        put_matrix(into, &self.projection.current)?;
        put_matrix(into, &self.pose.position)?;
        put_matrix(into, &self.pose.vector)?;
        put_matrix(into, &self.texture.current)?;
        put_halves(into, &self.poses, false)?;
        put_halves(into, &self.poses, true)?;
        put_matrix(into, &self.projection.stored)?;
        put_matrix(into, &self.texture.stored)?;
        Ok(())
    }

    /// Does nothing; its contract states what holds at every time.
    pub fn laws(&self)
        ensures { AreStacks self.now }
    {
        known!(is_matrix(&self.projection.current));
        known!(is_matrix(&self.projection.stored));
        known!(is_matrix(&self.texture.current));
        known!(is_matrix(&self.texture.stored));
        known!(is_matrix(&self.pose.position));
        known!(is_matrix(&self.pose.vector));
        are_poses(&self.poses);
    }

    /// Takes what `pack` puts. The error is where the first field begins that isn't whole, or a mode, a level or a flag that there isn't.
    #[tactic(auto, using(crate::proofs::Poses::paired_again), unfolding(crate::specs::Saved::stacks_format))]
    pub fn unpack(from: &mut Unpacker, at: u64) -> Result<Currents, Unpacked>
        ensures { GivesRead (λ s. s) result from.new (read_format stacks_format at from.old) }
    {
        let mode = from.take_at_most(3)?;
        let level = from.take_at_most(31)?;
        let projection_pushed = from.take_flag()?;
        let texture_pushed = from.take_flag()?;
        let error = from.take_flag()?;
        let projection = take_matrix(from, at)?;
        let position = take_matrix(from, at)?;
        let vector = take_matrix(from, at)?;
        let texture = take_matrix(from, at)?;
        let mut poses = [Pose { position, vector }; PLACES];
        take_halves(from, &mut poses, false, at)?;
        take_halves(from, &mut poses, true, at)?;
        let projection_stored = take_matrix(from, at)?;
        let texture_stored = take_matrix(from, at)?;
        Ok(Currents {
            mode: mode_of(mode as u32),
            projection: Single {
                current: projection,
                stored: projection_stored,
                pushed: projection_pushed,
            },
            texture: Single {
                current: texture,
                stored: texture_stored,
                pushed: texture_pushed,
            },
            pose: Pose { position, vector },
            poses,
            level,
            error,
        })
    }
}
