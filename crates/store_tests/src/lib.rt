//! Tests of the trees, stores, groups, rules and links, and of where bytes come from and go to. They stand
//! apart from the crates that they test, over what is built of these.
#![tactic(auto)]

#[cfg(test)]
mod ends;
#[cfg(test)]
mod groups;
#[cfg(test)]
mod lanes;
#[cfg(test)]
mod links;
#[cfg(test)]
mod rules;
#[cfg(test)]
mod stores;
#[cfg(test)]
mod trees;
