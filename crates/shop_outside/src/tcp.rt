//! A link and a listener over TCP.
ghost use Rattle.std.specs.Prelude.{◌≡◌, None, []};
ghost use Rattle.shop_outside.specs.Causes.{Half};

use crate::adapters::{read_again, write_again};
use crate::failed::Failed;
use crate::line::{Sink, Source};
use crate::link::Link;
use crate::listener::Listener;
use std::io;
use std::io::ErrorKind;
use std::net::{Net, SocketAddr, TcpListener, TcpStream};

/// A TCP connection. It tells no bytes, and is closed where it is dropped.
#[derive(Drop)]
pub struct TcpLink {
    stream: TcpStream,
    read_faults: u64,
    write_faults: u64,
}

impl TcpLink {
    /// A link over this connection.
    pub fn new(stream: TcpStream) -> TcpLink
        ensures read { ⟦<TcpLink as Source>⟧.read_faults result ≡ 0 }
        ensures write { ⟦<TcpLink as Sink>⟧.write_faults result ≡ 0 }
    {
        TcpLink {
            stream,
            read_faults: 0,
            write_faults: 0,
        }
    }
}

impl Source for TcpLink {
    ghost left = { λ _. None };

    ghost read_faults = { λ l. l.read_faults };

    ghost past_reads = { λ l. record { bytes = None; faults = l.write_faults; names = [] } };

    fn read(&mut self, into: &mut [u8]) -> Result<usize, Failed> {
        match read_again(&mut self.stream, into) {
            Ok(count) => Ok(count),
            Err(failed) => {
                self.read_faults = self.read_faults.saturating_add(1);
                Err(failed)
            }
        }
    }
}

impl Sink for TcpLink {
    ghost written = { λ _. None };

    ghost write_faults = { λ l. l.write_faults };

    ghost past_writes = { λ l. record { bytes = None; faults = l.read_faults; names = [] } };

    fn write(&mut self, piece: &[u8]) -> Result<usize, Failed> {
        match write_again(&mut self.stream, piece) {
            Ok(count) => Ok(count),
            Err(failed) => {
                self.write_faults = self.write_faults.saturating_add(1);
                Err(failed)
            }
        }
    }
}

impl Link for TcpLink {
    ghost use Rattle.std.specs.Prelude.{[], refl};

    ghost names = { λ _. [] };

    ghost reads_alone = { λ x. refl };

    ghost writes_alone = { λ x. refl };
}

/// Takes TCP connections at an address. It is never closed, so it never says that it was.
#[derive(Drop)]
pub struct TcpPort {
    listener: TcpListener,
    given: u64,
    faults: u64,
}

impl TcpPort {
    /// Takes the address, which is an IP address and a port, as `127.0.0.1:8080`; at port 0 the
    /// system picks one.
    ///
    /// # Errors
    ///
    /// The system's, where the address can't be had.
    pub fn bind<R: Net<Listener = TcpListener, Stream = TcpStream>>(
        rt: &R,
        address: &str,
    ) -> io::Result<TcpPort> {
        let listener = TcpListener::bind(rt, address)?;
        Ok(TcpPort {
            listener,
            given: 0,
            faults: 0,
        })
    }

    /// The address that was taken. An error is the system's.
    pub fn address(&self) -> io::Result<SocketAddr> {
        self.listener.local_addr()
    }
}

/// Waits for a connection, and again for as long as a signal interrupts the call (POSIX's `EINTR`)
/// or a peer has gone by then. Its answers are sent at once, and not gathered.
fn accept_again(listener: &TcpListener) -> Result<TcpStream, Failed> {
    for _ in 0..u64::MAX {
        match listener.accept() {
            Ok((stream, _)) => {
                // A stream that gathers them serves as well, later.
                let _ = stream.set_nodelay(true);
                return Ok(stream);
            }
            Err(error) => match error.kind() {
                ErrorKind::Interrupted | ErrorKind::ConnectionAborted => {}
                _ => return Err(Failed),
            },
        }
    }
    Err(Failed)
}

impl Listener for TcpPort {
    type Conn = TcpLink;

    ghost accept_faults = { λ p. p.faults };

    ghost given = { λ p. p.given };

    ghost closed = { λ _. 0 };

    fn accept(&mut self) -> Result<Option<TcpLink>, Failed> {
        match accept_again(&self.listener) {
            Ok(stream) => {
                self.given = self.given.saturating_add(1);
                Ok(Some(TcpLink::new(stream)))
            }
            Err(failed) => {
                self.faults = self.faults.saturating_add(1);
                Err(failed)
            }
        }
    }
}
