// Why a call is refused: one case for each cause, with its number, and for faults in a log's bytes the layer and the place.
#![tactic(auto)]

mod refusal;

pub use refusal::{Layer, Refusal};
