//! Steps of a script.
use jn_base::Text;

/// What a line of a script asks for.
#[derive(Drop)]
pub enum Step {
    /// Nothing: the line is empty.
    Empty,
    /// `set NAME FILE`: the name gets the text of the file.
    Set { name: Text, file: Text },
    /// `drop NAME`: the name goes.
    Remove { name: Text },
    /// `check`.
    Check,
}
