//! `goal.resume`.

ghost use Rattle.std.specs.Prelude.{◌≡◌, IfOk};
ghost use Rattle.continue_resume.specs.Answers.{ShowsResume};
ghost use Rattle.continue_resume.specs.Resuming.{Resumed};
ghost use Rattle.reply_text.specs.Refusals.{of_goal};
ghost use Rattle.state_tree.specs.Value.{Gives};
ghost use Rattle.command_set.specs.Branches as spec;
ghost use Rattle.command_set.specs.Goals.{says};

use crate::environment::Environment;
use crate::goal_start::make_state;
use crate::proof_state::ProofState;
use continue_resume::{ResumeFault, resume};
use ld_terms::Terms;
use reply_text::{Member, Members};
use state_tree::Worked;
use std::alloc::{AllocError, Global};

/// An error that names a number which is given as a goal.
fn number_members(alloc: Global, name: &str, m: u64) -> Result<Members, AllocError>
    ensures { IfOk result (λ x. x ≡ of_goal name.now m) }
{
    let before = vec![in alloc;
        Member::string(alloc, "error", name.as_bytes())?,
        Member::number(alloc, "goal", m)?,
    ]?;
    Ok(Members::before(alloc, before))
}

/// Why goals don't become active, but for the reply's `seq`. Fails for want of memory alone.
fn resume_members(alloc: Global, fault: ResumeFault) -> Result<Members, AllocError>
    ensures { (o : Resumed) → ShowsResume o fault → IfOk result (λ m. spec.made_active o ≡ says m) }
{
    match fault {
        ResumeFault::GoalUndeclared { m } => number_members(alloc, "goalUndeclared", m),
        ResumeFault::GoalAssigned { m } => number_members(alloc, "goalAssigned", m),
        ResumeFault::Memory => Err(AllocError),
    }
}

/// A state with listed goals made active, and the reply; or the refusal. Fails for want of memory alone.
pub fn resume_goals<T: Terms + Drop>(
    alloc: Global,
    state: &ProofState<T>,
    goals: &[u64],
) -> Result<Worked<Environment<T>, ProofState<T>>, AllocError>
    ensures { IfOk result (λ w. Gives (spec.resume_with state.now goals.now) w) }
{
    match resume(alloc, state.state(), goals) {
        Ok(next) => make_state(alloc, next),
        Err(fault) => {
            let members = resume_members(alloc, fault)?;
            Ok(Worked::Said(members.to_body(alloc)?))
        }
    }
}
