//! Where a session looks requests up and enters them.

ghost use Rattle.std.specs.Prelude.{◌≡◌, Option, Bool, true, false, IfOk, OnOk, IfErr, OnErr, []};
ghost use Rattle.std.specs.Thread.{IsSync};
ghost use Rattle.state_tree.specs.Enters.{tree_of};
ghost use Rattle.repl_json.specs.declared.request.Request.{Request};
ghost use Rattle.state_tree.specs.declared.work.Found.{Found};
ghost use Rattle.state_tree.specs.TreeModel.{TreeModel};
ghost use Rattle.shared_board.specs.Boards.{IsBoardPassOf};
ghost use Rattle.shared_board.specs.Calls.{tree_with, tree_seen};
ghost use Rattle.session_server.specs.Answers.{IsFit};
ghost use Rattle.session_server.specs.Made.{IsLooked};
ghost use Rattle.session_server.specs.Sees.{EntersThere};
ghost use Rattle.session_server.specs.Desks.{DeskMeaning, tree_desk, board_desk, OthersComeTo, Went, Wore};

use repl_json::Request;
use shared_board::{Board, BoardPass, LookFault};
use state_tree::{Found, Outcome, Ready, Tree, Work};
use std::marker::PhantomData;
use std::sync::Wait;
use std::thread::Threads;
use turn_lock::Worn;

/// Where a session looks requests up and enters them: the tree that it has alone, or a board that many sessions share.
///
/// The methods name no type with a bound, so that both impls can be proved. What they ask and give is said by ghost members, and
/// `IsLinked` says what these come to.
pub trait Desk {
    type Env;

    type State;

    /// A prepared request.
    type Ready;

    /// What entering it comes to.
    type Outcome;

    /// What the calls change: the tree, or the session's pass.
    type Place;

    ghost meaning: { Self → DeskMeaning Self.Place Self.Env };

    /// The place belongs to the desk.
    ghost is_own: { Self → Self.Place → Type 0 };

    /// A look found this at the place that it left.
    ghost finds: { Self → Self.Place → Request → Option (Found Self.Env Self.State) → Type 0 };

    /// The prepared request may be entered.
    ghost fits: { Self → Self.Place → Self.Ready → Type 0 };

    /// Entering it came to this.
    ghost enters: { Self → Self.Place → Self.Place → Self.Ready → Self.Outcome → Type 0 };

    /// The number of the pass that enters.
    fn number(&self) -> u32
        ensures { result ≡ (meaning self.now).pass };

    /// Finds what a request names in the tree that the pass has then seen; nothing where there is no memory.
    fn look(
        &self,
        place: &mut Self::Place,
        request: &Request,
    ) -> Result<Option<Found<Self::Env, Self::State>>, Worn>
        requires own { is_own self.now place.old }
        ensures own { is_own self.now place.new }
        ensures others { OthersComeTo (meaning self.now) place.old place.new }
        ensures went { OnOk result (Went (meaning self.now) place.old place.new) }
        ensures wore { IfErr result (λ worn. Wore (meaning self.now) worn.turns place.old place.new) }
        ensures looked { IfOk result (finds self.now place.new request.now) };

    /// Enters a request as the pass's next entry.
    fn enter(&self, place: &mut Self::Place, ready: Self::Ready) -> Result<Self::Outcome, Worn>
        requires own { is_own self.now place.old }
        requires fit { fits self.now place.old ready }
        ensures own { is_own self.now place.new }
        ensures went { OnOk result (Went (meaning self.now) place.old place.new) }
        ensures wore { IfErr result (λ worn. Wore (meaning self.now) worn.turns place.old place.new) }
        ensures unseen { OnErr result (OthersComeTo (meaning self.now) place.old place.new) }
        ensures entered { IfOk result (enters self.now place.old place.new ready) };
}

/// The number of the pass that enters, where a session has the tree alone.
const PASS: u32 = 0;

/// A tree that the session has alone.
#[derive(Drop)]
pub struct Alone<W: Work> {
    pub of: PhantomData<W>,
}

impl<W: Work> Desk for Alone<W> {
    type Env = W::Env;

    type State = W::State;

    type Ready = Ready<W>;

    type Outcome = Outcome<W>;

    type Place = Tree<W>;

    ghost meaning = { λ desk. tree_desk };

    ghost is_own = { λ desk tree. Unit {0} };

    ghost finds = { λ desk tree. IsLooked (tree_of W.value tree) };

    ghost fits = { λ desk tree. IsFit (tree_of W.value tree) };

    ghost enters = { λ desk old new. EntersThere W.value true 0 old new };

    fn number(&self) -> u32 {
        PASS
    }

    fn look(
        &self,
        tree: &mut Tree<W>,
        request: &Request,
    ) -> Result<Option<Found<W::Env, W::State>>, Worn> {
        Ok(tree.look(request).ok())
    }

    fn enter(&self, tree: &mut Tree<W>, ready: Ready<W>) -> Result<Outcome<W>, Worn>
        requires fit { IsFit (tree_of W.value tree.old) ready }
        ensures own { Unit {0} }
        ensures went { OnOk result (Went tree_desk tree.old tree.new) }
        ensures wore { IfErr result (λ worn. Wore tree_desk worn.turns tree.old tree.new) }
        ensures unseen { OnErr result (OthersComeTo tree_desk tree.old tree.new) }
        ensures entered { IfOk result (EntersThere W.value true 0 tree.old tree.new ready) }
    {
        Ok(tree.enter(PASS, ready))
    }
}

/// A board, at which the pass of this number enters.
#[derive(Drop)]
pub struct AtBoard<'a, R, W: Work> {
    pub rt: &'a R,
    pub board: &'a Board<W>,
    pub number: u32,
}

impl<'a, R: Threads + Wait + Sync, W: Work> Desk for AtBoard<'a, R, W> {
    type Env = W::Env;

    type State = W::State;

    type Ready = Ready<W>;

    type Outcome = Outcome<W>;

    type Place = BoardPass<W>;

    ghost meaning = { λ desk. board_desk desk.board.now.lock.the_ground desk.number };

    ghost is_own = { λ desk pass. IsSync R.row × IsBoardPassOf W.value desk.board.now pass × (pass.number ≡ desk.number) };

    ghost finds = { λ desk pass. IsLooked (tree_seen W.value desk.board.now.lock.the_ground pass.seen) };

    ghost fits = { λ desk pass. IsFit (tree_seen W.value desk.board.now.lock.the_ground pass.seen) };

    ghost enters = { λ desk old new. EntersThere W.value false desk.number (tree_with desk.board.now.lock.the_ground old.seen) (tree_with desk.board.now.lock.the_ground new.seen) };

    fn number(&self) -> u32 {
        self.number
    }

    fn look(
        &self,
        pass: &mut BoardPass<W>,
        request: &Request,
    ) -> Result<Option<Found<W::Env, W::State>>, Worn> {
        match self.board.look(self.rt, pass, request) {
            Ok(found) => Ok(Some(found)),
            Err(LookFault::Memory) => Ok(None),
            Err(LookFault::Worn { turns }) => Err(Worn { turns }),
        }
    }

    fn enter(&self, pass: &mut BoardPass<W>, ready: Ready<W>) -> Result<Outcome<W>, Worn>
        requires own { IsSync R.row × IsBoardPassOf W.value self.now.board.now pass.old × (pass.old.number ≡ self.now.number) }
        requires fit { IsFit (tree_seen W.value self.now.board.now.lock.the_ground pass.old.seen) ready }
        ensures own { IsSync R.row × IsBoardPassOf W.value self.now.board.now pass.new × (pass.new.number ≡ self.now.number) }
        ensures went { OnOk result (Went (board_desk self.now.board.now.lock.the_ground self.now.number) pass.old pass.new) }
        ensures wore { IfErr result (λ worn. Wore (board_desk self.now.board.now.lock.the_ground self.now.number) worn.turns pass.old pass.new) }
        ensures unseen { OnErr result (OthersComeTo (board_desk self.now.board.now.lock.the_ground self.now.number) pass.old pass.new) }
        ensures entered { IfOk result (EntersThere W.value false self.now.number (tree_with self.now.board.now.lock.the_ground pass.old.seen) (tree_with self.now.board.now.lock.the_ground pass.new.seen) ready) }
    {
        self.board.enter(self.rt, pass, ready)
    }
}
