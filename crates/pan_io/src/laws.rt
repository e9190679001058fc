//! A law of the definitions.

ghost use Rattle.pan_io.specs.History.{LinesBehindWhole};

/// What follows bytes that are empty or end in a line end has its own lines.
pub fn lines_behind_whole()
    ensures { LinesBehindWhole }
{}
