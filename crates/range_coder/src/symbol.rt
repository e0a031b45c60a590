use thiserror::Error;

/// The exponent of a number passes 30.
#[derive(Clone, Copy, Debug, PartialEq, Eq, Error)]
#[error("the exponent of a number passes 30")]
pub struct BadSymbol;

/// A number to be coded with the 32 states that begin at a slot.
#[derive(Clone, Copy)]
pub struct Placed {
    /// The slot at which its set of states begins.
    pub first: u32,
    /// The number.
    pub value: i32,
}
