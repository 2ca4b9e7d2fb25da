//! Shows the points of bodies: of a file of Java the bodies of its program.
//!
//! A body is a line with its class, name and number of parameters and the types of its registers (those of `this`, parameters
//! and locals, then `|`, then those of temporaries), and below it a line for each point: its number, its kind, what the kind has
//! (a register to which it writes; a value as register@place; `->` and the point to which it goes; `-` where something is
//! absent), and after `@` its own place. A place is line:column-column, from the first character to the one after the last, or
//! line:column-line:column where it ends on another line.

mod body;
mod known;
mod line;
pub mod outcome;
mod page;
mod parts;
mod places;
mod point;
