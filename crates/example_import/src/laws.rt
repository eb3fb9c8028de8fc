//! A law of imports. The function does nothing, and its contract is the law.
ghost use Rattle.example_import.specs.Again.{RunsAgain};

/// A list whose import stopped may be imported again from its beginning. The rows that are stored are
/// reported as stored before, and the table becomes what one whole import makes of it.
pub fn run_again()
    ensures { RunsAgain }
{}
