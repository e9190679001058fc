//! The usage note.

ghost use Rattle.std.specs.Prelude.{◌≡◌};
ghost use Rattle.command_line.specs.Usage.{usage_note};

/// What to write where the words are refused: a line for each form.
pub fn usage() -> &'static str
    ensures { result.now ≡ usage_note }
{
    "usage: panto run [--book FILE] [--entries N] [--workers N]\n       panto serve --listen ADDRESS [--book FILE] [--entries N] [--workers N] [--sessions N]\n       panto check FILE\n       panto demo SEED COUNT\n"
}
