//! What executes instructions of both architectures over any bus, one function a class of the ARM Architecture Reference Manual.
//!
//! Proved, over every bus, for every state of registers and bus. What makes no access (`data`, `compare`, `move_`, `multiply`, `mrs`,
//! `branch`, `software`, ..): the registers after it are those of its meaning (clause `registers`), and the result is its cost (`cost`).
//! What makes accesses (`transfer`, `half_transfer`, `literal`, `multiple`, `swap`, `double`, ..) is its meaning carried out on the bus's
//! memory machine: registers, the state of the bus (`state`) and the answer (`stepped`), cost or stop, are those of `carried_out`, all
//! accesses in order with the addresses and values of the meaning; where a write is refused, the registers as they were, and the bus as the
//! accesses so far leave it. The bus's identity stays (`same`). `act` is the same of any instruction that has a meaning of its own;
//! `execute` of any, with its condition, Thumb's by its equivalent, and with the stop of a SWI whose function the boot ROM hasn't.
//!
//! The main contract is that of `step`, for an architecture, a base of the vectors, and whether SWI's lies in the boot ROM (`step_of`): the
//! interrupt's entry where the line is up and I is clear; otherwise the fetch at r15, the row of the tables, the condition, and the
//! meaning; without a row the undefined instruction's entry, where the condition of its top four bits holds. `fetch` and `execute_word` are
//! its two halves behind the interrupt's entry. `undefined_laws`: an instruction that is undefined on an architecture enters its vector
//! where its condition holds, and otherwise has no effect. No call takes memory. Its tests stand in `arm_exec_tests`.
#![tactic(auto)]

mod acts;
mod branches;
mod doubles;
mod enhanced;
mod exceptions;
mod half_multiplies;
mod laws;
mod links;
mod multiples;
mod multiplies;
mod processing;
mod saturating;
mod statuses;
mod steps;
mod swaps;
mod transfers;

pub use acts::{act, act_processing, skip};
pub use branches::{
    address, branch, distance8, distance11, distance24, exchange, exchange_to, prefix, suffix,
};
pub use doubles::double;
pub use enhanced::{clz, has_coprocessor};
pub use exceptions::{breakpoint, interrupt, software, undefined};
pub use half_multiplies::{accumulate_product, half_long, half_product, set_product, wide_product};
pub use laws::undefined_laws;
pub use links::{link_exchange, link_suffix, link_target};
pub use multiples::{load_multiple, multiple, store_multiple};
pub use multiplies::{long_multiply, multiply};
pub use processing::{compare, data, move_};
pub use saturating::saturate;
pub use statuses::{mrs, msr};
pub use steps::{Fetched, decoded_half, decoded_word, enters, execute, execute_word, fetch, step};
pub use swaps::swap;
pub use transfers::{
    cut, half_transfer, half_transfer_at, literal, rotated_half, rotated_word, transfer,
    transfer_at,
};
