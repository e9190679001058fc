//! What is done with two weak head forms, by what stands at their heads.

ghost use Rattle.std.specs.Prelude.{◌≡◌};
ghost use Rattle.pattern_unify.specs.Plans as spec;
ghost use Rattle.pattern_unify.specs.Plans.{plain_plan};
ghost use Rattle.pattern_unify.specs.Walks.{plain_side, variables_of};
ghost use Rattle.unification.specs.Patterns.{Pattern};

use crate::sides::Side;
use crate::variables::Arguments;

/// What is done with two weak head forms.
#[derive(Drop)]
pub enum Plan {
    /// Their heads are compared, and then their parts unified.
    Parts,
    /// The pattern on the first side is solved by the second side.
    SolveFirst(u32, Arguments),
    /// The pattern on the second side is solved by the first side.
    SolveSecond(u32, Arguments),
    /// An unassigned metavariable stands at a head, and neither side is a pattern.
    Refuse(u32),
}

/// What is done with two weak head forms with these heads. Of two patterns the one with the greater number is solved.
pub fn plan_for(first: Side, second: Side) -> Plan
    ensures { plain_plan result ≡ spec.plan (plain_side first) (plain_side second) }
{
    match (first, second) {
        (Side::Pattern(m, us), Side::Pattern(n, vs)) => of_patterns(m, us, n, vs),
        (Side::Pattern(m, us), Side::Flexible(n)) => {
            if m == n {
                Plan::Parts
            } else {
                Plan::SolveFirst(m, us)
            }
        }
        (Side::Pattern(m, us), Side::Rigid) => Plan::SolveFirst(m, us),
        (Side::Flexible(m), Side::Pattern(n, vs)) => {
            if m == n {
                Plan::Parts
            } else {
                Plan::SolveSecond(n, vs)
            }
        }
        (Side::Rigid, Side::Pattern(n, vs)) => Plan::SolveSecond(n, vs),
        (Side::Flexible(m), Side::Flexible(n)) => {
            if m == n { Plan::Parts } else { Plan::Refuse(m) }
        }
        (Side::Flexible(m), Side::Rigid) => Plan::Refuse(m),
        (Side::Rigid, Side::Flexible(n)) => Plan::Refuse(n),
        (Side::Rigid, Side::Rigid) => Plan::Parts,
    }
}

/// What is done with two patterns.
fn of_patterns(m: u32, us: Arguments, n: u32, vs: Arguments) -> Plan
    ensures { plain_plan result ≡ spec.plan (Pattern m (variables_of us.variables.items)) (Pattern n (variables_of vs.variables.items)) }
{
    if m == n {
        Plan::Parts
    } else if m < n {
        Plan::SolveSecond(n, vs)
    } else {
        Plan::SolveFirst(m, us)
    }
}
