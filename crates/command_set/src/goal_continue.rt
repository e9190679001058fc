//! `goal.continue`.

ghost use Rattle.std.specs.Prelude.{◌≡◌, IfOk};
ghost use Rattle.continue_resume.specs.Answers.{ShowsContinue};
ghost use Rattle.continue_resume.specs.Continuing.{Continued};
ghost use Rattle.state_tree.specs.Value.{Gives};
ghost use Rattle.command_set.specs.Branches as spec;
ghost use Rattle.command_set.specs.Goals.{says};

use crate::environment::Environment;
use crate::goal_start::make_state;
use crate::proof_state::ProofState;
use continue_resume::{ContinueFault, continue_with};
use ld_terms::Terms;
use reply_text::{Member, Members, plain_members};
use state_tree::Worked;
use std::alloc::{AllocError, Global};

/// A target that has so many active goals.
fn target_members(alloc: Global, count: u64) -> Result<Members, AllocError>
    ensures { IfOk result (λ m. m ≡ spec.target_has_goals count) }
{
    let before = vec![in alloc;
        Member::number(alloc, "count", count)?,
        Member::string(alloc, "error", b"targetHasGoals")?,
    ]?;
    Ok(Members::before(alloc, before))
}

/// Why a target doesn't go on with a branch, but for the reply's `seq`. Fails for want of memory alone.
fn continue_members(alloc: Global, fault: ContinueFault) -> Result<Members, AllocError>
    ensures { (o : Continued) → ShowsContinue o fault → IfOk result (λ m. spec.went_on o ≡ says m) }
{
    match fault {
        ContinueFault::TargetHasGoals { count } => target_members(alloc, count),
        ContinueFault::RootDiffers => plain_members(alloc, "rootDiffers", None),
        ContinueFault::Memory => Err(AllocError),
    }
}

/// The target with the goals of a branch that it shares, and the reply; or the refusal. Fails for want of memory alone.
pub fn continue_state<T: Terms + Drop>(
    alloc: Global,
    target: &ProofState<T>,
    branch: &ProofState<T>,
) -> Result<Worked<Environment<T>, ProofState<T>>, AllocError>
    ensures { IfOk result (λ w. Gives (spec.continue_with target.now branch.now) w) }
{
    match continue_with(alloc, target.state(), branch.state()) {
        Ok(next) => make_state(alloc, next),
        Err(fault) => {
            let members = continue_members(alloc, fault)?;
            Ok(Worked::Said(members.to_body(alloc)?))
        }
    }
}
