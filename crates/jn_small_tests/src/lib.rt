//! Tests of libraries by their public names: places and lists, an editor's positions, names, words of a command, order of rows, reporters, the generated program, sources
//! and sinks, sets of qualifiers by their bits and how they are packed, and the machine over small programs.
#![tactic(auto)]

#[cfg(test)]
mod faults;
#[cfg(test)]
mod generated;
#[cfg(test)]
mod machine;
#[cfg(test)]
mod places;
#[cfg(test)]
mod positions;
#[cfg(test)]
mod programs;
#[cfg(test)]
mod quals;
#[cfg(test)]
mod reports;
#[cfg(test)]
mod rows;
#[cfg(test)]
mod sigs;
#[cfg(test)]
mod words;
