//! panto, a proof-search server over λD: the program. It hands its words, the folder where it runs,
//! standard error, and standard input and output or the doors of the network to the top call, and ends
//! with the code of the status.
#![tactic(auto)]

use pan_io::{Folder, StdErr, StdIn, StdOut, TcpDoors};
use panto_cli::{Status, panto_run, panto_serve, write_note};
use std::env;
use std::io::ErrorKind;
use std::net::{Net, TcpListener, TcpStream};
use std::process::ExitCode;
use std::sync::Wait;
use std::thread::Threads;
use worker_gate::OpenGate;

/// The words after the program's name. A word that isn't UTF-8 is none of any form.
fn words_of(rt: &HostRuntime) -> Result<Vec<String>, Status> {
    let mut arguments = match env::args(rt) {
        Ok(arguments) => arguments,
        Err(error) if error.kind() == ErrorKind::InvalidData => return Err(Status::Usage),
        Err(_) => return Err(Status::Memory),
    };
    let _program = arguments.next();
    let mut words = Vec::new(rt.alloc());
    for word in arguments {
        if words.push(word).is_err() {
            return Err(Status::Memory);
        }
    }
    Ok(words)
}

/// Whether the words are those of many links.
fn are_of_serve(words: &[String]) -> bool {
    match words.first() {
        Some(word) => word.as_str() == "serve",
        None => false,
    }
}

/// Serves links over TCP.
fn serve<R: Threads + Wait + Sync, E: Net<Listener = TcpListener, Stream = TcpStream>>(
    rt: &HostRuntime,
    threads: &R,
    net: &E,
    words: &[String],
    notes: &mut StdErr,
) -> Status {
    let mut shelf = Folder::new(rt);
    let mut doors = TcpDoors::new(rt.alloc(), net);
    let ended = panto_serve(
        threads,
        rt.alloc(),
        words,
        &mut shelf,
        &mut doors,
        notes,
        &OpenGate,
    );
    ended.status
}

/// Runs on the standard streams, with these threads for the workers. An error is a status whose note isn't written yet.
fn run<R: Threads + Sync>(
    rt: &HostRuntime,
    threads: &R,
    words: &[String],
    notes: &mut StdErr,
) -> Result<Status, Status> {
    let mut shelf = Folder::new(rt);
    let mut input = StdIn::new(rt.stdin());
    let Ok(mut output) = StdOut::new(rt.alloc(), rt.stdout()) else {
        return Err(Status::Memory);
    };
    Ok(panto_run(
        threads,
        rt.alloc(),
        words,
        &mut shelf,
        &mut input,
        &mut output,
        notes,
        &OpenGate,
    ))
}

/// Does what the words ask for. An error is a status whose note isn't written yet.
fn run_words<R: Threads + Wait + Sync, E: Net<Listener = TcpListener, Stream = TcpStream>>(
    rt: &HostRuntime,
    threads: &R,
    net: &E,
    notes: &mut StdErr,
) -> Result<Status, Status> {
    let words = words_of(rt)?;
    if are_of_serve(&words) {
        return Ok(serve(rt, threads, net, &words, notes));
    }
    run(rt, threads, &words, notes)
}

fn main(rt: HostRuntime) -> ExitCode {
    let mut notes = StdErr::new(rt.stderr());
    let status = match run_words(&rt, &rt, &rt, &mut notes) {
        Ok(status) => status,
        Err(status) => {
            write_note(&mut notes, status);
            status
        }
    };
    ExitCode::from(status.code())
}
