//! Groups while rows are put into them.
ghost use Rattle.std.specs.Prelude.{◌≡◌, ◌==◌, codes, if◌then◌else◌, IfOk, OnOk};
ghost use Rattle.jn_causes.specs.Groups as spec;

use crate::caused::Caused;
use itoa::{Buffer, Integer};
use std::alloc::{AllocError, Global};
use std::marker::Model;

/// What stands after the number of a group's rows, how many they are, and their lines, each of which has a byte at least.
#[derive(Drop)]
pub struct Gathered {
    head: Vec<u8>,
    rows: usize,
    lines: Vec<u8>,
}

impl Model for Gathered {
    ghost use Rattle.std.specs.Prelude.{◌≤◌, length};
    ghost use Rattle.jn_causes.specs.Groups.{Group};

    ghost Value = { Group };

    ghost view = { λ a. record { head = a.head.items; rows = a.rows; lines = a.lines.items } };

    ghost invariant = { λ a. a.rows ≤ length a.lines.items };
}

impl Gathered {
    /// A group of this row alone.
    pub fn one(alloc: Global, row: &Caused) -> Result<Gathered, AllocError>
        ensures { IfOk result (λ group. group ≡ spec.one_of row.now) }
    {
        Ok(Gathered {
            head: Vec::from_slice(alloc, row.head.as_slice())?,
            rows: 1,
            lines: line_in(alloc, row)?,
        })
    }

    /// Puts the row after the others.
    pub fn add(&mut self, alloc: Global, row: &Caused) -> Result<(), AllocError>
        ensures { OnOk result (self.new ≡ spec.more_of self.old row.now) }
    {
        let line = line_in(alloc, row)?;
        self.lines.extend_from_slice(&line)?;
        self.rows += 1;
        Ok(())
    }

    /// How many rows it has.
    pub fn rows(&self) -> usize
        ensures { result ≡ self.now.rows }
    {
        self.rows
    }

    /// `N rows HEAD`, and the lines of the rows.
    pub fn text(&self, alloc: Global) -> Result<Vec<u8>, AllocError>
        ensures { IfOk result (λ text. text.items ≡ spec.group_text self.now) }
    {
        let mut text = Vec::from_slice(alloc, Buffer::new().format(self.rows).as_bytes())?;
        text.extend_from_slice(counted(self.rows).as_bytes())?;
        text.extend_from_slice(&self.head)?;
        text.extend_from_slice(b"\n")?;
        text.extend_from_slice(&self.lines)?;
        Ok(text)
    }
}

/// What stands after so many.
fn counted(rows: usize) -> &'static str
    ensures { result.now ≡ (if rows == 1 then codes " row" else codes " rows") }
{
    if rows == 1 { " row" } else { " rows" }
}

/// The row's line, after two spaces.
fn line_in(alloc: Global, row: &Caused) -> Result<Vec<u8>, AllocError>
    ensures { IfOk result (λ line. line.items ≡ spec.line_in row.now) }
{
    let mut line = Vec::from_slice(alloc, b"  ")?;
    line.extend_from_slice(row.line.as_slice())?;
    Ok(line)
}
