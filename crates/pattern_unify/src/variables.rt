//! Variables of terms: which of them may stand in a term, and which numbers they get.

ghost use Rattle.std.specs.Prelude.{◌≡◌, ◌+◌, ◌<◌, ℕ, Bool, IfOk, length, option_map, reverse, is_some, unwrap_or};
ghost use Rattle.unification.specs.Patterns.{place_of};
ghost use Rattle.unification.specs.Pruning.{is_kept, thin};
ghost use Rattle.pattern_unify.specs.Walks.{variables_of, one_if};

use std::alloc::AllocError;

/// Which variables may stand in a term.
pub trait Allows {
    /// Whether a variable may.
    ghost good: { Self → ℕ → Bool };

    /// Whether a variable may. Takes no memory.
    fn allows(&self, i: u32) -> bool
        ensures { result ≡ good self.now i };
}

/// Which number each variable gets.
pub trait Names {
    /// The number that a variable gets.
    ghost name: { Self → ℕ → ℕ };

    /// The number that a variable gets. A number above 4,294,967,295 counts as want of memory.
    fn number(&self, i: u32) -> Result<u32, AllocError>
        ensures { IfOk result (λ j. j ≡ name self.now i) };
}

/// The arguments of a pattern, the first one first.
#[derive(Drop)]
pub struct Arguments {
    pub variables: Vec<u32>,
}

/// The place of a variable among arguments, of which the last one has place 0.
pub fn place_among(variables: &[u32], i: u32) -> Option<usize>
    ensures { result ≡ place_of (variables_of variables.now) i }
{
    for k in (0..variables.len()).rev() {
        if variables[k] == i {
            return Some(variables.len() - 1 - k);
        }
    }
    None
}

/// The variables that are arguments.
impl Allows for Arguments {
    ghost good = { λ a i. is_some (place_of (variables_of a.variables.items) i) };

    fn allows(&self, i: u32) -> bool {
        place_among(&self.variables, i).is_some()
    }
}

/// Each argument gets its place, and every other variable 0.
impl Names for Arguments {
    ghost name = { λ a i. unwrap_or (place_of (variables_of a.variables.items) i) 0 };

    fn number(&self, i: u32) -> Result<u32, AllocError> {
        match place_among(&self.variables, i) {
            Some(place) => narrow(place),
            None => Ok(0),
        }
    }
}

/// A number as 32 bits. A greater one counts as want of memory.
pub fn narrow(n: usize) -> Result<u32, AllocError>
    ensures { IfOk result (λ k. k ≡ n) }
{
    if n > 4_294_967_295 {
        return Err(AllocError);
    }
    Ok(n as u32)
}

/// Entries of a context, those that are kept flagged, the first entry's flag first.
#[derive(Clone, Copy)]
pub struct Flags<'a> {
    pub flags: &'a [bool],
}

/// The variables of the kept entries.
impl<'a> Allows for Flags<'a> {
    ghost good = { λ f i. is_kept (reverse f.flags.now) i };

    fn allows(&self, i: u32) -> bool {
        let from_last = i as usize;
        from_last < self.flags.len() && self.flags[self.flags.len() - 1 - from_last]
    }
}

/// The variable of a kept entry gets the number that it has among the kept ones.
impl<'a> Names for Flags<'a> {
    ghost name = { λ f i. thin (reverse f.flags.now) i };

    fn number(&self, i: u32) -> Result<u32, AllocError> {
        Ok(thinned(self.flags, i))
    }
}

/// How many of the last entries are kept.
fn thinned(flags: &[bool], entries: u32) -> u32
    ensures { result ≡ thin (reverse flags.now) entries }
{
    let mut kept = 0;
    for k in 0..entries {
        let from_last = k as usize;
        if from_last >= flags.len() {
            return kept;
        }
        kept = with_one(kept, flags[flags.len() - 1 - from_last]);
    }
    kept
}

/// One more where a flag is set.
fn with_one(kept: u32, flag: bool) -> u32
    requires { kept < 4294967295 }
    ensures { result ≡ kept + one_if flag }
{
    if flag { kept + 1 } else { kept }
}
