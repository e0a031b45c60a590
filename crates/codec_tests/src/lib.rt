//! The tests in code of the crates from `cook_bits` to the codecs: what no line of data can show. It has no code of its own,
//! so that none of those crates is proved a second time for the sake of tests.
#![tactic(auto)]

#[cfg(test)]
mod tests;
