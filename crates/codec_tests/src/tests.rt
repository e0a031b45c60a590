mod bits;
mod blocks;
mod coded;
mod pieces;
mod shares;

use std::fmt::Debug;
use std::process::Abort;

// What is given is what is wanted. An assertion where it stands is proved three times as long as this call.
fn is<T: PartialEq + Debug + Drop>(rt: &impl Abort, given: T, wanted: T) {
    assert_eq!(rt; given, wanted);
}
