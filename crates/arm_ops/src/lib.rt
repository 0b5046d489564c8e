//! Operations: the frequent instructions with their operands made, and what takes effect where.
//!
//! A word is decoded once, to its instruction and then to its operation; then it is run as often as it is fetched. What is run is exactly
//! the instruction's meaning. What needs what may be left out isn't run here, nor, in `Runner::run`, what reaches past RAM and is no load that the
//! caller calls near: then nothing is done, and the caller takes the instruction itself.
//!
//! Proved: `operation` is exactly `operation_of`, with fields in their ranges; and unless it is `Other`, the instruction means what it was
//! decoded as, on every architecture, with every base and in every state (`operation_meaning`). `Runner::run`, over any bus that refuses no
//! write of RAM, either answers 0 and changes nothing, or leaves exactly that meaning carried out, with its cost, of an operation that isn't
//! `Other`, with each access of RAM or a load from where `N: Near` says (`near`). `Singles` runs what makes one access at most (`told`), and
//! tries first what `N: Near` reaches at once, each access of which is the bus's own (`value`, `next`, `refusal`), of RAM (`ram`); `Lists` runs
//! LDM and STM all whose words are of RAM. `run_anywhere`, over any bus, is exactly that meaning carried out, of any operation that makes one
//! access at most. `touched` is exactly the bytes of its access (`bytes`), and `Nothing` exactly where it makes none (`nothing`);
//! `access_made` is exactly the access that it makes (`access`), and None of others (`other`), and `run_made` does with it what
//! `run_anywhere` does. No call takes memory.
//!
//! Only tested, in `arm_exec_tests`: each form of operation by its name, with r14 as an operand and each flag, beside the step of its
//! instruction on both processors; rows of steps, in RAM and anywhere; loads and stores past RAM where loads are near.
#![tactic(auto)]

mod accesses;
mod computing;
mod lists;
mod making;
mod near;
mod operands;
mod operations;
mod reaching;
mod running;

pub use lists::{first_word, is_list};
pub use making::operation;
pub use near::Near;
pub use operations::{
    DataAccess, Number, Op, Operation, RegisterList, ShiftedRegister, Transfer, TransferOp,
};
pub use reaching::{access_made, is_other, run_anywhere, run_made, touched};
pub use running::{Lists, Runner, Singles, loads};
