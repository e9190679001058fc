ghost use Rattle.std.specs.Prelude.{◌≡◌, ◌++◌, ◌∷◌, [], ◌≤◌, IfOk, OnOk, length, take};
ghost use Rattle.shared_list.specs.Blocks.{IsExact};

use crate::part::{Growing, Part};
use crate::parts::end_with;
use std::alloc::{AllocError, Global};
use std::marker::Model;

/// The lowest level of a list: its items themselves.
#[derive(Drop)]
pub struct Leaf<T> {
    items: Vec<T>,
}

impl<T> Model for Leaf<T> {
    ghost use Rattle.std.specs.Prelude.{List};

    ghost Value = { List T };

    ghost view = { λ l. l.items.items };
}

impl<T: Drop> Part<T> for Leaf<T> {
    ghost items = { λ l. l };

    fn get(&self, at: usize) -> Option<&T> {
        self.items.get(at)
    }
}

impl<T: Clone> Growing<T> for Leaf<T> {
    fn one(alloc: Global, item: T) -> Result<Leaf<T>, AllocError> {
        let mut items = Vec::with_capacity(alloc, 1)?;
        items.push(item)?;
        Ok(Leaf { items })
    }

    fn put_last(&mut self, _alloc: Global, at: usize, item: T) -> Result<(), AllocError> {
        end_with(&mut self.items, at, item)
    }

    fn with_last(&self, alloc: Global, at: usize, item: T) -> Result<Leaf<T>, AllocError> {
        let items = copied_with(alloc, &self.items[..at], item)?;
        Ok(Leaf { items })
    }
}

/// Clones of some items, and one more behind them.
fn copied_with<T: Clone>(alloc: Global, from: &[T], item: T) -> Result<Vec<T>, AllocError>
    requires { IsExact T.is_clone }
    ensures { IfOk result (λ v. v.items ≡ from.now ++ item ∷ []) }
{
    let mut made = Vec::with_capacity(alloc, from.len().saturating_add(1))?;
    copy(&mut made, from)?;
    made.push(item)?;
    Ok(made)
}

/// Clones items.
fn copy<T: Clone>(into: &mut Vec<T>, from: &[T]) -> Result<(), AllocError>
    requires { IsExact T.is_clone }
    ensures { OnOk result (into.new.items ≡ into.old.items ++ from.now) }
{
    for item in from {
        into.push(item.clone()?)?;
    }
    Ok(())
}
