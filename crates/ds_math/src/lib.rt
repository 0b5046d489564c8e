//! The divider and the square root unit of ARM9's side (GBATEK, "DS Maths"). Each takes its operands at a tick, is busy for a
//! fixed time, and shows its old results until that time is over.
//!
//! Proved, for every operand and every state. `Divider::start`, `Root::start`: the operands are kept, the due tick is 36 (mode 0) or 68
//! (other modes), or 26 for a root, after `now`, and all else stays, so the old results show on; a start while busy begins anew.
//! `Divider::finish`: the numerator is quotient times denominator plus remainder, the remainder is smaller in size than the denominator and
//! is 0 or has the numerator's sign; both show modulo 2^64 (clause `results`). By zero the remainder is the numerator and the quotient 1
//! with the opposite sign, its upper half inverted in mode 0. `Root::finish`: r r <= v < (r + 1)(r + 1), v being all 64 bits where it is
//! wide and the lower 32 otherwise (`root`). That each is one number, and that all else stays, is clause `state`. `read` shows the operands
//! as last started, the results, busy while a division or root runs, and the zero flag by all 64 bits of the denominator in every mode.
//! `start` makes the due tick later than `now`, `finish` takes it away (`schedule`). `laws` tells how many bits each register has. `finish`
//! asks that the unit is due, which a caller tests with `due`; starts ask for `now` up to 2^56, and a mode below 4. No call takes memory.
//!
//! Only tested, in `units_tests`: that the clauses say what GBATEK's values say (each mode's operands, each sign, each case by zero, the
//! two overflowing quotients, each due tick, the roots at their edges), each beside the older results that show until then.
#![tactic(auto)]

mod dividers;
mod roots;
mod saved;

pub use dividers::{Divider, Quotient};
pub use roots::{Root, RootSeen};
pub use saved::saved_laws;
