//! What is undefined.

ghost use Rattle.arm_exec.specs.Undefined.{EntersUndefined};

/// Does nothing; its contract states that an instruction that is undefined on an architecture (`is_undefined`) enters its vector where its condition
/// holds, and otherwise has no effect.
#[tactic(auto, using(crate::proofs::UndefinedLaws::enters_undefined))]
pub fn undefined_laws()
    ensures { EntersUndefined }
{}
