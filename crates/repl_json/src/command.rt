//! The commands of the protocol.

ghost use Rattle.std.specs.Prelude.{◌≡◌};
ghost use Rattle.repl_json.specs.Command.{command_named, goal_command_named};

/// A command of the protocol.
#[derive(Debug, Clone, Copy, PartialEq, Eq, Drop)]
pub enum Command {
    /// `expr.echo`.
    Echo,
    /// `env.add`.
    EnvAdd,
    /// `env.inspect`.
    EnvInspect,
    /// `env.catalog`.
    EnvCatalog,
    /// `goal.start`.
    Start,
    /// `goal.move`.
    Move,
    /// `goal.tries`.
    Tries,
    /// `goal.continue`.
    Continue,
    /// `goal.resume`.
    Resume,
    /// `goal.print`.
    Print,
    /// `goal.delete`.
    Delete,
    /// `reset`.
    Reset,
    /// `stat`.
    Stat,
}

/// The command of a name, where it is one of the protocol.
#[tactic(auto, unfolding(crate::specs::Command::command_named))]
pub fn command_named(word: &[u8]) -> Option<Command>
    ensures { result ≡ command_named word.now }
{
    if word == b"expr.echo".as_slice() {
        return Some(Command::Echo);
    }
    if word == b"env.add".as_slice() {
        return Some(Command::EnvAdd);
    }
    if word == b"env.inspect".as_slice() {
        return Some(Command::EnvInspect);
    }
    if word == b"env.catalog".as_slice() {
        return Some(Command::EnvCatalog);
    }
    if word == b"reset".as_slice() {
        return Some(Command::Reset);
    }
    if word == b"stat".as_slice() {
        return Some(Command::Stat);
    }
    goal_command_named(word)
}

/// The command on states of a name.
#[tactic(auto, unfolding(crate::specs::Command::goal_command_named))]
fn goal_command_named(word: &[u8]) -> Option<Command>
    ensures { result ≡ goal_command_named word.now }
{
    if word == b"goal.start".as_slice() {
        return Some(Command::Start);
    }
    if word == b"goal.move".as_slice() {
        return Some(Command::Move);
    }
    if word == b"goal.tries".as_slice() {
        return Some(Command::Tries);
    }
    if word == b"goal.continue".as_slice() {
        return Some(Command::Continue);
    }
    if word == b"goal.resume".as_slice() {
        return Some(Command::Resume);
    }
    if word == b"goal.print".as_slice() {
        return Some(Command::Print);
    }
    if word == b"goal.delete".as_slice() {
        return Some(Command::Delete);
    }
    None
}
