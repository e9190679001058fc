//! The states that a pass looked up last.

ghost use Rattle.std.specs.Prelude.{◌≡◌, ◌⊎◌, [], nat_eq, is_some, IfOk, IfSome, IsOk, IsErr, IsSome, true, false};
ghost use Rattle.std.specs.Map.{lookup};
ghost use Rattle.lru.specs.LruCache.{lru_cache, promoted, put_entries};
ghost use Rattle.repl_json.specs.Names.{names_any, env_named, one_named, two_named};
ghost use Rattle.state_tree.specs.Server.{PlainTree, found_in, state_at};
ghost use Rattle.state_tree.specs.TreeModel.{HeldAs};
ghost use Rattle.shared_board.specs.Cached.{AreStatesOf};

use lru::LruCache;
use repl_json::Ask;
use state_tree::{Found, Work};
use std::alloc::{AllocError, Global};
use std::num::NonZeroUsize;

/// How many states a pass keeps.
const CAPACITY: usize = 256;

/// States by their ids, at most 256 of them, the one that was used last first.
#[derive(Drop)]
pub struct StateCache<W: Work> {
    pub(crate) states: LruCache<u64, W::State>,
}

/// Whether a state was named that was not found.
fn is_missed<S>(named: Option<u64>, found: &Option<S>) -> bool
    ensures has { result ≡ false → is_some named ≡ true → is_some found.now ≡ true }
    ensures unnamed { is_some named ≡ false → result ≡ false }
{
    named.is_some() && found.is_none()
}

impl<W: Work> StateCache<W> {
    /// # Errors
    ///
    /// Want of memory alone.
    pub fn new(alloc: Global) -> Result<StateCache<W>, AllocError>
        ensures { IfOk result (λ cache. cache.states ≡ lru_cache [] 256) }
    {
        let states = LruCache::new(alloc, NonZeroUsize::new(CAPACITY).unwrap())?;
        Ok(StateCache { states })
    }

    /// The kept state of an id.
    ///
    /// # Errors
    ///
    /// Want of memory alone.
    fn recall_state(&mut self, id: u64) -> Result<Option<W::State>, AllocError>
        ensures found { IfOk result (λ found. found ≡ lookup (nat_eq id) self.old.states.entries) }
        ensures kept { self.new.states ≡ lru_cache (promoted (nat_eq id) self.old.states.entries) self.old.states.cap }
    {
        match self.states.get(&id) {
            None => Ok(None),
            Some(state) => Ok(Some(state.clone()?)),
        }
    }

    fn recall_named(&mut self, named: Option<u64>) -> Result<Option<W::State>, AllocError>
        ensures found { (t : PlainTree W.Env W.State) → AreStatesOf t self.old.states.entries → IfOk result (HeldAs (state_at t named)) }
        ensures kept { (t : PlainTree W.Env W.State) → AreStatesOf t self.old.states.entries → AreStatesOf t self.new.states.entries }
        ensures named { IsErr result → is_some named ≡ true }
    {
        match named {
            None => Ok(None),
            Some(id) => self.recall_state(id),
        }
    }

    /// What a request names, where the cache has all of it. It is what each tree finds of which all kept states are.
    ///
    /// # Errors
    ///
    /// Want of memory alone, and only for a request that names a state.
    pub fn recall(&mut self, ask: &Ask) -> Result<Option<Found<W::Env, W::State>>, AllocError>
        ensures found { (t : PlainTree W.Env W.State) → AreStatesOf t self.old.states.entries → IfOk result (λ recalled. IfSome recalled (λ found. found ≡ found_in t ask.now)) }
        ensures kept { (t : PlainTree W.Env W.State) → AreStatesOf t self.old.states.entries → AreStatesOf t self.new.states.entries }
        ensures unnamed { names_any ask.now ≡ false → IsOk result × IfOk result IsSome }
    {
        if ask.env_named().is_some() {
            return Ok(None);
        }
        let one = self.recall_named(ask.one_named())?;
        let two = self.recall_named(ask.two_named())?;
        if is_missed(ask.one_named(), &one) {
            return Ok(None);
        }
        if is_missed(ask.two_named(), &two) {
            return Ok(None);
        }
        Ok(Some(Found {
            env: None,
            one,
            two,
        }))
    }

    /// Keeps the state of an id. Where there is no memory for it, the cache stays as it was.
    fn keep_state(&mut self, id: u64, state: &W::State)
        ensures { (self.new.states ≡ self.old.states) ⊎ (self.new.states ≡ lru_cache (put_entries nat_eq self.old.states id state.now) self.old.states.cap) }
    {
        if let Ok(state) = state.clone() {
            let _ = self.states.put(id, state);
        }
    }

    fn keep_named(&mut self, named: Option<u64>, found: &Option<W::State>)
        ensures kept { (t : PlainTree W.Env W.State) → AreStatesOf t self.old.states.entries → HeldAs (state_at t named) found.now → AreStatesOf t self.new.states.entries }
    {
        if let (Some(id), Some(state)) = (named, found) {
            self.keep_state(id, state);
        }
    }

    /// Keeps the states that a look found. Where there is no memory for one, the cache stays as it was.
    pub fn keep(&mut self, ask: &Ask, found: &Found<W::Env, W::State>)
        ensures kept { (t : PlainTree W.Env W.State) → AreStatesOf t self.old.states.entries → found.now ≡ found_in t ask.now → AreStatesOf t self.new.states.entries }
    {
        self.keep_named(ask.one_named(), &found.one);
        self.keep_named(ask.two_named(), &found.two);
    }

    /// Forgets all states.
    pub fn clear(&mut self)
        ensures { self.new.states.entries ≡ [] }
    {
        self.states.clear();
    }
}
