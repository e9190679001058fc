//! What a request names.

ghost use Rattle.std.specs.Prelude.{◌≡◌};
ghost use Rattle.repl_json.specs.Names.{env_named, one_named, two_named};

use crate::request::Ask;

impl Ask {
    /// The id of the environment that is named.
    pub fn env_named(&self) -> Option<u64>
        ensures { result ≡ env_named self.now }
    {
        match self {
            Ask::Echo { env, .. }
            | Ask::EnvAdd { env, .. }
            | Ask::EnvInspect { env, .. }
            | Ask::EnvCatalog { env }
            | Ask::Start { env, .. } => Some(*env),
            _ => None,
        }
    }

    /// The id of the state that is looked for first: the one that is named, or the target.
    pub fn one_named(&self) -> Option<u64>
        ensures { result ≡ one_named self.now }
    {
        match self {
            Ask::Move { state, .. }
            | Ask::Resume { state, .. }
            | Ask::Print { state }
            | Ask::Delete { state } => Some(*state),
            Ask::Continue { target, .. } => Some(*target),
            _ => None,
        }
    }

    /// The id of the state that is looked for after it: the branch.
    pub fn two_named(&self) -> Option<u64>
        ensures { result ≡ two_named self.now }
    {
        match self {
            Ask::Continue { branch, .. } => Some(*branch),
            _ => None,
        }
    }
}
