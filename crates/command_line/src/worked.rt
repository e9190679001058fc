//! Worked words, which the checker computes. Nothing here is called at run time.

ghost use Rattle.command_line.specs.Worked.{WorkedForms, WorkedRefusals};

/// Words that are served.
pub fn worked_forms()
    ensures { WorkedForms }
{}

/// Words that are refused.
pub fn worked_refusals()
    ensures { WorkedRefusals }
{}
