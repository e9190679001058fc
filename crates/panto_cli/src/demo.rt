//! `panto demo`: a generated session over the empty book, and what it comes to.

ghost use Rattle.std.specs.Prelude.{◌≡◌, ◌≤◌, ◌^◌, ℕ, List, [], length, Option, Some, true, string_bytes, IfOk, OnOk, OnErr, is_some};
ghost use Rattle.std.specs.Io.KnownBytes.{Appends};
ghost use Rattle.pan_io.specs.Books.{NamedBytes};
ghost use Rattle.pan_io.specs.Faults.{HasCause};
ghost use Rattle.pan_io.specs.Put.{AppendsPrefix};
ghost use Rattle.command_line.specs.Form.{demo};
ghost use Rattle.session_server.specs.Input.{requests_of_input};
ghost use Rattle.panto_cli.specs.Demo.{IsOwnEnd, all_answered, counted_line, counts_of, demo_line, room_of, summary};
ghost use Rattle.panto_cli.specs.Ends.{Counted, Ends};

use crate::counts::{Counts, count};
use crate::host::Host;
use crate::notes::Outcome;
use crate::status::Status;
use crate::store::Store;
use command_set::{Environment, Program};
use meta_context::Env;
use pan_io::{Failed, MemorySink, Sink, SureSource, put_all};
use session_maker::make_session;
use session_server::{End, run_session};
use state_tree::Tree;
use std::alloc::{AllocError, Global};
use std::thread::Threads;
use worker_gate::Gate;

/// The environment of the empty book.
fn empty_book(alloc: Global) -> Result<Environment<Store>, AllocError>
    ensures { IfOk result (λ book. book ≡ []) }
{
    let terms = Store::new(alloc)?;
    let items = Env::new();
    Ok(Environment::new(alloc, terms, items)?)
}

/// How many entries the tree of so many rounds has room for: ten for each round, and at least one.
fn room_of(rounds: u32) -> u32
    requires { rounds ≤ 10000 }
    ensures { result ≡ room_of rounds }
{
    (10 * rounds).max(1)
}

/// Whether the session came to its end. Else memory was wanted, by the sink in memory or by the session itself.
fn is_done(end: End) -> bool
    requires { IsOwnEnd end }
    ensures { result ≡ true → end ≡ End.Done }
{
    match end {
        End::Done => true,
        End::WriteFault | End::Memory => false,
        _ => unreachable!(),
    }
}

/// Answers the requests of a text over the empty book, for which there is room, and counts. Fails for want of memory alone, also
/// where a reply says so.
fn run_text<R: Threads + Sync, G: Gate>(
    host: &Host<'_, R, G>,
    text: Vec<u8>,
    entries: u32,
) -> Result<Counts, AllocError>
    requires short { length text.items ≤ 2 ^ 40 }
    requires room { length (requests_of_input text.items) ≤ entries }
    ensures { IfOk result (λ counts. counts ≡ counts_of (all_answered text.items)) }
{
    let mut source = SureSource::new(text);
    let mut sink = MemorySink::new(host.alloc, usize::MAX, usize::MAX, Vec::new(host.alloc));
    let mut tree = Tree::open(host.alloc, empty_book(host.alloc)?, entries)?;
    let end = run_session(
        host.rt,
        host.alloc,
        &Program::new(),
        &mut tree,
        1,
        &mut source,
        &mut sink,
        host.gate,
    );
    if !is_done(end) {
        return Err(AllocError);
    }
    count(host.alloc, tree, sink.bytes())
}

/// Runs the session of a seed and so many rounds, and counts. Fails for want of memory alone.
fn run_rounds<R: Threads + Sync, G: Gate>(
    host: &Host<'_, R, G>,
    seed: u64,
    rounds: u32,
) -> Result<Counts, AllocError>
    requires { rounds ≤ 10000 }
    ensures { IfOk result (λ counts. counts ≡ summary seed rounds) }
{
    let text = make_session(host.alloc, seed, rounds)?;
    run_text(host, text.into_vec(), room_of(rounds))
}

/// The line that shows the counts.
fn line_of(alloc: Global, seed: u64, rounds: u32, counts: &Counts) -> Result<String, AllocError>
    ensures { IfOk result (λ line. string_bytes line ≡ counted_line seed rounds counts.now) }
{
    let Counts {
        replies,
        errors,
        states,
    } = *counts;
    format!(in alloc;
        "demo seed={seed} rounds={rounds} replies={replies} errors={errors} states={states}\n"
    )
}

/// Writes the line, and sends it off. It takes no memory.
fn put_counted<K: Sink>(output: &mut K, line: &str) -> Result<(), Failed>
    ensures ok { OnOk result (Appends (K.taken output.old) (K.taken output.new) line.now) }
    ensures failed { OnErr result (AppendsPrefix (K.taken output.old) (K.taken output.new) line.now) }
    ensures tells { is_some (K.taken output.new) ≡ is_some (K.taken output.old) }
    ensures cause { HasCause (K.faults output.old) (K.faults output.new) result }
{
    put_all(output, line.as_bytes())?;
    output.flush()
}

/// The line that `demo` prints. Fails for want of memory alone.
fn demo_line<R: Threads + Sync, G: Gate>(
    host: &Host<'_, R, G>,
    seed: u64,
    rounds: u32,
) -> Result<String, AllocError>
    requires { rounds ≤ 10000 }
    ensures { IfOk result (λ line. string_bytes line ≡ demo_line seed rounds) }
{
    let counts = run_rounds(host, seed, rounds)?;
    line_of(host.alloc, seed, rounds, &counts)
}

/// Runs the generated session of a seed and so many rounds, and prints what it comes to.
pub fn run_demo<R: Threads + Sync, K: Sink, G: Gate>(
    host: &Host<'_, R, G>,
    seed: u64,
    rounds: u32,
    output: &mut K,
) -> Outcome
    requires { rounds ≤ 10000 }
    ensures ends { (books : Option (List NamedBytes)) (input : Option (List ℕ)) (shelf source : Counted) →
        Ends books (Some (demo seed rounds)) input input (K.taken output.old) (K.taken output.new) shelf source
        (record { before = K.faults output.old; after = K.faults output.new }) result }
    ensures tells { is_some (K.taken output.new) ≡ is_some (K.taken output.old) }
    ensures later_out { K.faults output.old ≤ K.faults output.new }
{
    let Ok(line) = demo_line(host, seed, rounds) else {
        return Outcome::Plain(Status::Memory);
    };
    match put_counted(output, line.as_str()) {
        Ok(()) => Outcome::Plain(Status::Done),
        Err(_) => Outcome::Plain(Status::WriteFault),
    }
}
