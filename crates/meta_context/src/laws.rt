ghost use Rattle.std.specs.Prelude.{◌≡◌, ℕ, [], List as Listed, None, false, option_map, slice_get};
ghost use Rattle.ld_trees.specs.Term.{Term, Numbered, Star, Meta, none, ◌▹◌};
ghost use Rattle.ld_rules.specs.Environment.{item_of};
ghost use Rattle.ld_terms.specs.declared.globals.Item.{Item};
ghost use Rattle.ld_terms.specs.declared.globals.Decl.{Decl};
ghost use Rattle.ld_terms.specs.declared.globals.Local.{Local};
ghost use Rattle.conversion.specs.Globals.{context_of, env_of};
ghost use Rattle.meta_trees.specs.MetaContext.{declare, assign, decl};
ghost use Rattle.meta_trees.specs.Whole.{whole};
ghost use Rattle.meta_trees.specs.Examples.{typed_by, cycle};
ghost use Rattle.meta_context.specs.Stored.{decl_of, metas_of, items_of};
ghost use Rattle.meta_context.specs.Limits.{is_full, is_too_deep};
ghost use Rattle.meta_context.specs.Declaring.{declared, assigned};
ghost use Rattle.meta_context.specs.Plain.{plain_items, plain_locals, rules_ctx, rules_env};

/// Stored items and contexts mean, for the rules, what the plain ones mean that stand for them.
///
/// A law for proofs; there is nothing to run.
#[tactic(auto, using(crate::proofs::PlainItems::context_again, crate::proofs::PlainItems::env_again))]
pub fn plain_items_mean_the_same<H>()
    ensures contexts { (means : H → Term) (ls : Listed (Local H)) → context_of means ls ≡ rules_ctx (plain_locals means ls) }
    ensures environments { (means : H → Term) (is : Listed (Item H)) → env_of means is [] ≡ rules_env (plain_items means is) }
{}

/// Declaring and assigning over handles mean declaring and assigning over the trees that they mean; an engine that looks items and
/// metavariables up by handles looks up in the environment with every metavariable.
///
/// A law for proofs; there is nothing to run.
#[tactic(auto, using(crate::proofs::Stored::declared_means, crate::proofs::Stored::assigned_means, crate::proofs::Stored::decl_means, crate::proofs::Stored::env_is_whole, crate::proofs::Stored::items_have_no_metas))]
pub fn declarations_mean_the_same<H>()
    ensures declared { (means : H → Term) (Γ : Listed (Local H)) (T : H) (ds : Listed (Decl H)) → metas_of means (declared Γ T ds) ≡ declare (context_of means Γ) (means T) (metas_of means ds) }
    ensures assigned { (means : H → Term) (m : ℕ) (v : H) (ds : Listed (Decl H)) → metas_of means (assigned m v ds) ≡ assign m (means v) (metas_of means ds) }
    ensures found { (means : H → Term) (m : ℕ) (ds : Listed (Decl H)) → decl m (metas_of means ds) ≡ option_map (decl_of means) (slice_get ds m) }
    ensures whole { (means : H → Term) (is : Listed (Item H)) (ds : Listed (Decl H)) → env_of means is ds ≡ whole (metas_of means ds) (items_of means is) }
    ensures constants { (means : H → Term) (is : Listed (Item H)) (m : ℕ) → item_of (Numbered m) (items_of means is) ≡ None }
{}

/// Worked examples of declaring and assigning, which the checker computes: over the trees themselves as handles.
pub fn declarations_compute()
    ensures declared { metas_of (λ t. t) (declared [] (Meta 0 none) (declared [] Star [])) ≡ typed_by }
    ensures assigned { metas_of (λ t. t) (assigned 1 (Meta 0 none) (assigned 0 (Meta 1 none) (declared [] Star (declared [] Star [])))) ≡ cycle }
    ensures shallow { is_too_deep (none ▹ Star) ≡ false }
    ensures not_full { is_full (declared [] Star []) ≡ false }
{}
