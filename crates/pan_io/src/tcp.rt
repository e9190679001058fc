//! Links over TCP. They tell no bytes.

ghost use Rattle.std.specs.Prelude.{◌≡◌, ◌≤◌, ◌-◌, ◌^◌, ℕ, None, IfOk};
ghost use Rattle.pan_io.specs.Faults.{HasCause};

#[cfg(test)]
mod tests;

use crate::doors::Doors;
use crate::fault_count::FaultCount;
use crate::sink::Sink;
use crate::source::{Failed, Source};
use crate::system::{flush_out, read_from, write_to};
use std::alloc::Global;
use std::io;
use std::io::{BufWriter, ErrorKind};
use std::net::{Net, TcpListener, TcpStream};

/// The input of a link. Each call reads once, straight into the caller's buffer.
#[derive(Drop)]
pub struct TcpIn {
    stream: TcpStream,
    faults: FaultCount,
}

impl Source for TcpIn {
    ghost left = { λ _. None };

    ghost faults = { λ input. input.faults.count };

    ghost most_faults = { λ input. input.faults.within };

    fn take(&mut self, into: &mut [u8]) -> Result<usize, Failed> {
        read_from(&mut self.stream, into, &mut self.faults)
    }
}

/// The output of a link. What is put waits in a buffer of 8 KiB, until that is full or flushed.
#[derive(Drop)]
pub struct TcpOut {
    stream: BufWriter<TcpStream>,
    faults: FaultCount,
}

impl Sink for TcpOut {
    ghost taken = { λ _. None };

    ghost faults = { λ output. output.faults.count };

    ghost most_faults = { λ output. output.faults.within };

    fn put(&mut self, piece: &[u8]) -> Result<usize, Failed> {
        write_to(&mut self.stream, piece, &mut self.faults)
    }

    fn flush(&mut self) -> Result<(), Failed> {
        flush_out(&mut self.stream, &mut self.faults)
    }
}

/// The halves of a link, which share its connection. It is closed once both are dropped.
fn halves(alloc: Global, stream: TcpStream) -> io::Result<(TcpIn, TcpOut)>
    ensures input { IfOk result (λ halves. halves.0.faults.count ≡ 0) }
    ensures output { IfOk result (λ halves. halves.1.faults.count ≡ 0) }
{
    // A reply is sent as it is flushed, also while the receipt of the last one is open. Without
    // this it only comes later.
    let _ = stream.set_nodelay(true);
    let writer = BufWriter::new(alloc, stream.try_clone()?)?;
    let input = TcpIn {
        stream,
        faults: FaultCount::new(),
    };
    let output = TcpOut {
        stream: writer,
        faults: FaultCount::new(),
    };
    Ok((input, output))
}

/// Waits for the next connection. An interrupted call is tried again.
fn accept_from(listener: &TcpListener, faults: &mut FaultCount) -> Result<TcpStream, Failed>
    ensures cause { HasCause faults.old.count faults.new.count result }
{
    'tries: for _ in 0..u64::MAX {
        match listener.accept() {
            Ok((stream, _)) => return Ok(stream),
            Err(error) if error.kind() == ErrorKind::Interrupted => {}
            Err(_) => return Err(faults.add()),
        }
    }
    Err(faults.add())
}

/// Links over TCP. An address is an IP address or a host's name, a colon and a port. It tells
/// neither its address nor its links.
#[derive(Drop)]
pub struct TcpDoors<'net, R: Net> {
    alloc: Global,
    net: &'net R,
    listener: Option<TcpListener>,
    faults: FaultCount,
}

impl<'net, R: Net> TcpDoors<'net, R> {
    /// It does not listen yet.
    pub fn new(alloc: Global, net: &'net R) -> TcpDoors<'net, R>
        ensures { result.faults.count ≡ 0 }
    {
        TcpDoors {
            alloc,
            net,
            listener: None,
            faults: FaultCount::new(),
        }
    }
}

impl<R: Net<Listener = TcpListener, Stream = TcpStream>> Doors for TcpDoors<'_, R> {
    type In = TcpIn;

    type Out = TcpOut;

    ghost listens_on = { λ _. None };

    ghost links = { λ _. None };

    ghost faults = { λ doors. doors.faults.count };

    ghost most_faults = { λ doors. doors.faults.within };

    fn listen(&mut self, address: &str) -> Result<(), Failed> {
        'tries: for _ in 0..u64::MAX {
            match TcpListener::bind(self.net, address) {
                Ok(listener) => {
                    self.listener = Some(listener);
                    return Ok(());
                }
                Err(error) if error.kind() == ErrorKind::Interrupted => {}
                Err(_) => return Err(self.faults.add()),
            }
        }
        Err(self.faults.add())
    }

    fn accept(&mut self) -> Result<(TcpIn, TcpOut), Failed> {
        let Some(listener) = &self.listener else {
            return Err(self.faults.add());
        };
        let stream = accept_from(listener, &mut self.faults)?;
        match halves(self.alloc, stream) {
            Ok(halves) => Ok(halves),
            Err(_) => Err(self.faults.add()),
        }
    }
}
