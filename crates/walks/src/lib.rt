// What walks over a log come to, what a recovery makes of it, and what a message does to a walk.
#![tactic(auto)]

mod turn;

pub use turn::{Turn, past, turn_at, turn_of};
