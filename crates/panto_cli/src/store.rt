//! The store in which the program keeps its terms.

use command_set::ProofState;
use std::mem::size_of;
use term_store::HashTerms;

/// The program's store of terms. What the program answers doesn't depend on it.
pub type Store = HashTerms;

/// A state is one pointer to what its clones share: a tree reserves room for one state for each of its entries.
const _: () = prove!(size_of::<ProofState<Store>>() <= 8);
