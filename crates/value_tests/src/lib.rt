//! Tests of the values and of their texts. They stand apart from the crates that they test, over what is built
//! of these: so a crate isn't proved once more with its tests.
#![tactic(auto)]

#[cfg(test)]
mod changes;
#[cfg(test)]
mod counts;
#[cfg(test)]
mod entries;
#[cfg(test)]
mod fields;
#[cfg(test)]
mod ids;
#[cfg(test)]
mod words;
