//! What the program may be asked to do.
ghost use Rattle.std.specs.Prelude.{◌≡◌};
ghost use Rattle.garde_check.specs.Tasks.{reads_body};

/// What is run.
#[derive(Clone, Copy)]
pub enum Command {
    /// The report of the lines is written as text.
    Text,
    /// The same, and then a line with the number of path nodes that were made.
    Nodes,
    /// The report of the lines is written as JSON.
    Json,
    /// The input is read as the body of a request, and the report of it is written as JSON.
    Body,
}

impl Command {
    /// Whether the input is the body of a request, and no lines.
    pub fn reads_body(self) -> bool
        ensures { result ≡ reads_body self }
    {
        matches!(self, Command::Body)
    }
}
