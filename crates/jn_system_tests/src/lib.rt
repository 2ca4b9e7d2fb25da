//! Tests of inference and of the check of all bodies by workers, and of calls that no program makes.
#![tactic(auto)]

#[cfg(test)]
mod calls;
#[cfg(test)]
mod overriding;
#[cfg(test)]
mod programs;
#[cfg(test)]
mod workers;
