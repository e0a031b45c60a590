//! Range coding (RFC 9043, section 3.8.1): decisions and numbers as bytes that name a number of an interval, both ways.
#![tactic(auto)]

mod carry;
mod decoder;
mod encoder;
mod getting;
pub mod laws;
mod putting;
mod sharing;
mod states;
mod symbol;
mod table;
mod window;

pub use decoder::Decoder;
pub use encoder::Encoder;
pub use states::{States, get_symbol, put_symbol};
pub use symbol::{BadSymbol, Placed};
pub use table::Table;
