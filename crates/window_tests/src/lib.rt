//! Tests of the crates of windows, patterns, registrations, queries and actors. They stand apart from the
//! crates that they test, over what is built of these.
#![tactic(auto)]

#[cfg(test)]
mod asked;
#[cfg(test)]
mod patterns;
#[cfg(test)]
mod registry;
#[cfg(test)]
mod sides;
#[cfg(test)]
mod switch;
#[cfg(test)]
mod windows;
