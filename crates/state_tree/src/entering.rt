//! One entry more.

ghost use Rattle.std.specs.Prelude.{◌≡◌, ◌<◌, ◌∷◌, ◌++◌, [], length};
ghost use Rattle.state_tree.specs.Holdings.{plain, stepped, HasRoom};
ghost use Rattle.state_tree.specs.Results.{open_case, open_gave};
ghost use Rattle.state_tree.specs.declared.work.Gave.TheVariants.{Answer};

use crate::holdings::{Holdings, keep_result, use_flags};
use crate::work::{Entry, Gave, Worked};
use repl_json::{Line, Request};

/// Enters a request that is answered before its result is read.
pub fn enter_early<E, S>(holdings: &mut Holdings<E, S>, pass: u32, request: Request)
    requires room { (entries : _) × (length holdings.old.journal.items < entries) × HasRoom holdings.old entries }
    ensures envs { holdings.new.envs ≡ holdings.old.envs }
    ensures states { holdings.new.states ≡ holdings.old.states }
    ensures journal { holdings.new.journal.items ≡ holdings.old.journal.items ++ record { pass = pass; request = request; gave = Answer } ∷ [] }
    ensures room { (entries : _) → length holdings.old.journal.items < entries → HasRoom holdings.old entries → HasRoom holdings.new entries }
{
    holdings.journal.push_reserved(Entry {
        pass,
        request,
        gave: Gave::Answer,
    });
}

/// Enters a request that nothing stands in the way of: its command changes flags, or its result is kept.
pub fn enter_open<E: Drop, S: Drop>(
    holdings: &mut Holdings<E, S>,
    pass: u32,
    request: Request,
    worked: Worked<E, S>,
) -> Line
    requires room { (entries : _) × (length holdings.old.journal.items < entries) × HasRoom holdings.old entries }
    ensures line { open_case (plain holdings.old) request.ask worked ≡ stepped result holdings.new }
    ensures journal { holdings.new.journal.items ≡ holdings.old.journal.items ++ record { pass = pass; request = request; gave = open_gave (plain holdings.old) request.ask worked } ∷ [] }
    ensures room { (entries : _) → length holdings.old.journal.items < entries → HasRoom holdings.old entries → HasRoom holdings.new entries }
{
    if let Some(line) = use_flags(holdings, &request.ask) {
        holdings.journal.push_reserved(Entry {
            pass,
            request,
            gave: Gave::Answer,
        });
        return line;
    }
    let gave = worked.gave();
    let line = keep_result(holdings, worked);
    holdings.journal.push_reserved(Entry {
        pass,
        request,
        gave,
    });
    line
}
