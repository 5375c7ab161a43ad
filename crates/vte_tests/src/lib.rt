//! Tests of `vte` that need several crates, in one crate, since a crate with tests is proved twice.
#![tactic(auto)]

#[cfg(test)]
mod long_commands;
#[cfg(test)]
mod public_names;
#[cfg(test)]
mod public_types;
#[cfg(test)]
mod random_cuts;
#[cfg(test)]
mod reader;
#[cfg(test)]
mod screens;
#[cfg(test)]
mod serialized_colors;
#[cfg(test)]
mod streams;
#[cfg(test)]
mod updates;
