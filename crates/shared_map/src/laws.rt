ghost use Rattle.std.specs.Prelude.{◌≡◌, ℕ, ◌<◌, ◌++◌, ◌∷◌, [], List, length, take, drop, slice_get, ◌+◌};
ghost use Rattle.std.specs.FinMap.{find, put};
ghost use Rattle.std.specs.Ordering.{nat_cmp};
ghost use Rattle.shared_map.specs.Table.{table};

/// A map whose keys are the numbers from 0 on is a list of rows: `find` reads a row, `put` at the next number adds a
/// row at the end, and `put` at a number that is there changes that row alone.
///
/// A law for proofs; there is nothing to run.
pub fn tables_are_lists<X>()
    ensures counted { (xs : List X) → length (table xs) ≡ length xs }
    ensures read { (xs : List X) (i : ℕ) → find nat_cmp i (table xs) ≡ slice_get xs i }
    ensures added { (xs : List X) (x : X) → put nat_cmp (length xs) x (table xs) ≡ table (xs ++ x ∷ []) }
    ensures changed { (xs : List X) (i : ℕ) (x : X) → i < length xs →
        put nat_cmp i x (table xs) ≡ table (take i xs ++ x ∷ drop (i + 1) xs) }
{}
