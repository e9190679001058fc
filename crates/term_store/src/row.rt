ghost use Rattle.std.specs.Prelude.{◌≡◌};
ghost use Rattle.term_store.specs.Hashed.{entry_of};

use crate::key::Key;
use ld_terms::Size;
use std::alloc::AllocError;
use std::marker::Model;

/// What a store has at a place: a node with the size of its tree. Contracts see both as one entry.
#[derive(Drop)]
pub struct Row {
    key: Key,
    size: Size,
}

impl Model for Row {
    ghost use Rattle.ld_terms.specs.declared.tree_terms.Entry.{Entry};
    ghost use Rattle.term_store.specs.Hashed.{entry_of};

    ghost Value = { Entry };

    ghost view = { λ r. entry_of r.key r.size };
}

impl Row {
    /// A node with its size. Takes no memory.
    pub fn of(key: Key, size: Size) -> Row
        ensures { result ≡ entry_of key size }
    {
        Row { key, size }
    }

    /// The node.
    pub fn key(&self) -> &Key
        ensures { result.now ≡ self.now.node }
    {
        &self.key
    }

    /// The size of the node's tree.
    pub fn size(&self) -> Size
        ensures { result ≡ self.now.size }
    {
        self.size
    }
}

impl Clone for Row {
    ghost is_clone = { λ a b. b ≡ a };

    fn clone(&self) -> Result<Row, AllocError> {
        Ok(Row {
            key: self.key.clone()?,
            size: self.size,
        })
    }
}
