//! FLAC's predictors (RFC 9639, sections 9.2.5 and 9.2.6): residuals, the samples restored from them, and the predictor
//! whose subframe has the fewest bits.
#![tactic(auto)]

mod choosing;
mod differences;
mod fixed;
mod inside;
pub mod laws;
mod linear;
mod rice;
mod sets;
mod sharing;
mod sums;

pub use choosing::{Choice, Weighed, choose, weigh};
pub use fixed::{residual_fixed, restore_fixed};
pub use linear::{residual_linear, restore_linear};
pub use rice::rice_bits;
pub use sets::{LinearSet, bank};
