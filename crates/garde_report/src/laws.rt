//! Laws of paths. Each function does nothing, and its contract is a law for all values.
ghost use Rattle.garde_report.specs.Plain.{PlainPathsDiffer};

/// Two different paths print different texts, where no component is unnamed, each key is not empty
/// and holds neither `.` nor `[`, and no index holds `]`: the number of a list's item does not, and
/// neither does a negative number that is a key.
pub fn plain_paths()
    ensures { PlainPathsDiffer }
{}
