// The samples around a sample, and what they tell of it: a prediction, and the context of its difference.

/// The samples around a sample: left, above, above left, above right, two left and two above.
#[derive(Clone, Copy)]
pub(crate) struct Around {
    pub(crate) left: u32,
    pub(crate) above: u32,
    pub(crate) above_left: u32,
    pub(crate) above_right: u32,
    pub(crate) left_left: u32,
    pub(crate) above_above: u32,
}
