// The eight tables of the register's turns. They stand as numbers: a constant cannot be computed by a call.
mod far;
mod near;

use far::{T4, T5, T6, T7};
use near::{T0, T1, T2, T3};

pub(crate) static TABLES: [[u32; 256]; 8] = [T0, T1, T2, T3, T4, T5, T6, T7];
