//! Examples of the definitions, computed in the checker.

ghost use Rattle.pan_io.specs.Worked.{WorkedLines};

/// Worked inputs have the lines that they should have.
pub fn worked_lines()
    ensures { WorkedLines }
{}
