ghost use Rattle.kernel_check.specs.Laws.{
  InferenceHasFuelLaw,
  SortHasFuelLaw,
  InferenceIsSound,
  SortIsSound,
  InferenceIsScoped,
  RefusalsAreScoped,
  SortRefusalsAreScoped,
};

/// The fuel law of inference: where an answer left some units, each number of units that covers the difference gives the same
/// answer with as many more or fewer left, and each smaller number gives none.
pub fn inference_has_fuel_law()
    ensures { InferenceHasFuelLaw }
{}

/// The fuel law of the sort of a term.
pub fn sort_has_fuel_law()
    ensures { SortHasFuelLaw }
{}

/// In a legal environment and context the type that is inferred for a term is one that the rules give it.
#[tactic(auto, using(crate::proofs::Soundness::inference_is_sound))]
pub fn inference_is_sound()
    ensures { InferenceIsSound }
{}

/// In a legal environment and context the sort that is inferred for a term is one that the rules give it.
#[tactic(auto, using(crate::proofs::Soundness::sort_is_sound))]
pub fn sort_is_sound()
    ensures { SortIsSound }
{}

/// Where the environment's items and the context's entries are scoped, the type that is inferred for a scoped term is scoped.
pub fn inference_is_scoped()
    ensures { InferenceIsScoped }
{}

/// Where the environment's items and the context's entries are scoped, the refusal of a scoped term shows terms that are scoped at
/// the refusal's depth. That is at least the context's length, and exceeds it by less than the depth of the term.
pub fn refusals_are_scoped()
    ensures { RefusalsAreScoped }
{}

/// The same of the refusals of a sort.
pub fn sort_refusals_are_scoped()
    ensures { SortRefusalsAreScoped }
{}
