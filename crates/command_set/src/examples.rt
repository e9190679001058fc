//! Worked replies, which the checker computes. Nothing here is called at run time.

ghost use Rattle.std.specs.Prelude.{◌≡◌, codes, None, Some, Ok, Err, [], ◌∷◌, true};
ghost use Rattle.ld_trees.specs.Term.{Star, Var, App, Lam, Pi, none, ◌▹◌};
ghost use Rattle.term_syntax.specs.declared.scope_fault.ScopeFault.TheVariants.{UnknownName, WrongCount, Unsolved};
ghost use Rattle.conversion.specs.Runs.{Mismatch};
ghost use Rattle.book_reader.specs.Items.{NameTaken, Scope, Kernel, Fuel};
ghost use Rattle.book_reader.specs.Book.{Syntax, AtItem};
ghost use Rattle.reply_text.specs.Members.{body_text};
ghost use Rattle.command_set.specs.Echo.{echo, resolved};
ghost use Rattle.command_set.specs.Books.{book_refusal, added};
ghost use Rattle.command_set.specs.Inspect.{inspect, catalog};
ghost use Rattle.command_set.specs.Examples.{reply, order, app, negation, closed, le};

/// Terms that are printed back with their types, and refusals of others.
fn echoes_compute()
    ensures identity { body_text (resolved [] 100000 (Ok (Lam Star (Lam (Var 0) (Var 0))))) ≡ reply (codes "{\"expr\":\"fun (%0 : *) => fun (%1 : %0) => %1\",\"seq\":") (codes ",\"type\":\"(%0 : *) -> %0 -> %0\"}") }
    ensures star { body_text (resolved [] 100000 (Ok Star)) ≡ reply (codes "{\"expr\":\"*\",\"seq\":") (codes ",\"type\":\"#\"}") }
    ensures constant { body_text (resolved order 100000 (Ok (le (closed (codes "a")) (closed (codes "b"))))) ≡ reply (codes "{\"expr\":\"le(a(), b())\",\"seq\":") (codes ",\"type\":\"*\"}") }
    ensures mismatch { body_text (resolved [] 100000 (Ok (App (Lam Star (Var 0)) Star))) ≡ reply (codes "{\"error\":\"mismatch\",\"found\":\"#\",\"seq\":") (codes ",\"wanted\":\"*\"}") }
    ensures no_function { body_text (resolved [] 100000 (Ok (App Star Star))) ≡ reply (codes "{\"error\":\"notFunction\",\"seq\":") (codes ",\"term\":\"*\",\"type\":\"#\"}") }
    ensures no_type { body_text (resolved [] 100000 (Ok (Lam Star Star))) ≡ reply (codes "{\"error\":\"notType\",\"seq\":") (codes ",\"term\":\"#\"}") }
    // The identity takes five units.
    ensures enough { body_text (resolved [] 5 (Ok (Lam Star (Lam (Var 0) (Var 0))))) ≡ reply (codes "{\"expr\":\"fun (%0 : *) => fun (%1 : %0) => %1\",\"seq\":") (codes ",\"type\":\"(%0 : *) -> %0 -> %0\"}") }
    ensures fuel { body_text (resolved [] 4 (Ok (Lam Star (Lam (Var 0) (Var 0))))) ≡ reply (codes "{\"error\":\"fuel\",\"seq\":") (codes "}") }
    ensures count { body_text (resolved order 100000 (Err (WrongCount 0 (codes "le") 1 2))) ≡ reply (codes "{\"at\":0,\"error\":\"wrongCount\",\"given\":1,\"name\":\"le\",\"seq\":") (codes ",\"wanted\":2}") }
    ensures syntax { body_text (echo [] (codes "(A -> ") 100000) ≡ reply (codes "{\"at\":6,\"error\":\"syntax\",\"seq\":") (codes "}") }
{}

/// Items that are added, or refused with their number.
fn additions_compute()
    ensures added { added ≡ record { first = codes "{\"envId\":"; second = codes ",\"seq\":"; third = codes "}"; id_first = true } }
    ensures syntax { body_text (book_refusal (Syntax 6)) ≡ reply (codes "{\"at\":6,\"error\":\"syntax\",\"seq\":") (codes "}") }
    ensures taken { body_text (book_refusal (AtItem 1 (NameTaken (codes "N")))) ≡ reply (codes "{\"error\":\"nameTaken\",\"item\":1,\"name\":\"N\",\"seq\":") (codes "}") }
    ensures unsolved { body_text (book_refusal (AtItem 0 (Scope (Unsolved 12)))) ≡ reply (codes "{\"at\":12,\"error\":\"unsolved\",\"item\":0,\"seq\":") (codes "}") }
    ensures mismatch { body_text (book_refusal (AtItem 2 (Kernel (Mismatch 1 (Var 0) Star)))) ≡ reply (codes "{\"error\":\"mismatch\",\"found\":\"%0\",\"item\":2,\"seq\":") (codes ",\"wanted\":\"*\"}") }
    ensures fuel { body_text (book_refusal (AtItem 3 Fuel)) ≡ reply (codes "{\"error\":\"fuel\",\"item\":3,\"seq\":") (codes "}") }
{}

/// Items that are shown, and the names of all.
fn items_compute()
    ensures catalog { body_text (catalog order) ≡ reply (codes "{\"names\":[\"N\",\"a\",\"b\",\"c\",\"le\",\"trans\",\"ac\",\"cb\"],\"seq\":") (codes "}") }
    ensures none { body_text (catalog []) ≡ reply (codes "{\"names\":[],\"seq\":") (codes "}") }
    ensures prim { body_text (inspect (app ∷ order) (codes "app")) ≡ reply (codes "{\"kind\":\"prim\",\"params\":[{\"name\":\"F\",\"type\":\"N() -> *\"},{\"name\":\"x\",\"type\":\"N()\"}],\"seq\":") (codes ",\"type\":\"F x\"}") }
    ensures definition { body_text (inspect negation (codes "not")) ≡ reply (codes "{\"kind\":\"def\",\"params\":[{\"name\":\"A\",\"type\":\"*\"}],\"seq\":") (codes ",\"type\":\"*\",\"value\":\"A -> falsum()\"}") }
    ensures closed { body_text (inspect negation (codes "falsum")) ≡ reply (codes "{\"kind\":\"def\",\"params\":[],\"seq\":") (codes ",\"type\":\"*\",\"value\":\"(%0 : *) -> %0\"}") }
    ensures unknown { body_text (inspect order (codes "app")) ≡ reply (codes "{\"error\":\"unknownName\",\"name\":\"app\",\"seq\":") (codes "}") }
    // What is no name is the name of no item.
    ensures no_name { body_text (inspect order (codes "%0")) ≡ reply (codes "{\"error\":\"unknownName\",\"name\":\"%0\",\"seq\":") (codes "}") }
{}
