ghost use Rattle.std.specs.Prelude.{◌≡◌, true, false, codes, [], ◌∷◌, ◌^◌, ◌-◌};
ghost use Rattle.ld_trees.specs.Term.{Star, Square, Var, Pi, none, ◌▹◌};
ghost use Rattle.ld_terms.specs.Names.{is_text_name, level_name, IsEntryName};
ghost use Rattle.ld_terms.specs.Nodes.{trees_of};
ghost use Rattle.ld_terms.specs.Sizes.{capped};
ghost use Rattle.ld_terms.specs.Views.{terms_of};
ghost use Rattle.ld_terms.specs.declared.node.Node.TheVariants as node;

/// Worked examples of names, which the checker computes.
pub fn names_compute()
    ensures plain { is_text_name (codes "le_2") ≡ true }
    ensures reserved { is_text_name (codes "prim") ≡ false }
    ensures longer { is_text_name (codes "prime") ≡ true }
    ensures digit { is_text_name (codes "2le") ≡ false }
    ensures empty { is_text_name (codes "") ≡ false }
    ensures most { is_text_name (codes "aaaaaaaaaaaaaaaaaaaaaaaaaaaaaaaaaaaaaaaaaaaaaaaaaaaaaaaaaaaaaaaa") ≡ true }
    ensures over { is_text_name (codes "aaaaaaaaaaaaaaaaaaaaaaaaaaaaaaaaaaaaaaaaaaaaaaaaaaaaaaaaaaaaaaaaa") ≡ false }
    ensures level { level_name 12 ≡ codes "%12" }
    ensures entry { IsEntryName 0 (codes "%0") }
{}

/// Worked examples of arguments, nodes and sizes, which the checker computes.
pub fn stores_compute()
    ensures arguments { terms_of (Star ∷ Square ∷ []) ≡ none ▹ Star ▹ Square }
    ensures nodes { trees_of (node.Star ∷ node.Var 0 ∷ node.Pi (record { 0 = 0 }) (record { 0 = 1 }) ∷ []) ≡ Star ∷ Var 0 ∷ Pi Star (Var 0) ∷ [] }
    ensures few { capped 3 ≡ 3 }
    ensures many { capped (2 ^ 64) ≡ 2 ^ 64 - 1 }
{}
