// A socket with its poll.
ghost use Rattle.std.specs.Prelude.{◌≤◌, IfOk, IfSome, length};

use crate::times::patience;
use mio::net::UdpSocket;
use mio::{Events, Interest, Poll, Token};
use std::io;
use std::io::ErrorKind;
use std::net::{Net, SocketAddr, ToSocketAddrs};
use std::os::fd::AsFd;

/// A bound socket.
///
/// The poll tells changes alone: where datagrams are left it says nothing. So the socket is read until it has nothing, and
/// only then waited for.
#[derive(Drop)]
pub(crate) struct PolledSocket {
    socket: UdpSocket,
    poll: Poll,
    events: Events,
    // Whether the last read found nothing, and no change came since.
    is_drained: bool,
}

/// The first address that a text names: a host and a port.
pub(crate) fn address_of<R: Net>(rt: &R, text: &str) -> io::Result<SocketAddr> {
    match text.to_socket_addrs(rt)?.next() {
        Some(address) => Ok(address),
        None => Err(io::Error::from(ErrorKind::NotFound)),
    }
}

/// A socket from which datagrams go to an address: at the port of the given one, where that is bound and of the same family,
/// and else at a port that the system chooses.
pub(crate) fn open_towards<R: Net>(
    rt: &R,
    events: Events,
    beside: &Option<PolledSocket>,
    there: SocketAddr,
) -> io::Result<PolledSocket> {
    match beside {
        Some(socket) if socket.here()?.is_ipv4() == there.is_ipv4() => socket.twin(rt, events),
        _ if there.is_ipv4() => PolledSocket::open(rt, events, "0.0.0.0:0"),
        _ => PolledSocket::open(rt, events, "[::]:0"),
    }
}

impl PolledSocket {
    /// Binds a socket at the address that the text names.
    pub(crate) fn open<R: Net>(rt: &R, events: Events, here: &str) -> io::Result<Self> {
        PolledSocket::over(rt, events, UdpSocket::bind(rt, address_of(rt, here)?)?)
    }

    /// Another handle of the same socket, with a poll of its own.
    fn twin<R: Net>(&self, rt: &R, events: Events) -> io::Result<Self> {
        let handle = self.socket.as_fd().try_clone_to_owned()?;
        PolledSocket::over(rt, events, UdpSocket::from(handle))
    }

    fn over<R: Net>(rt: &R, events: Events, mut socket: UdpSocket) -> io::Result<Self> {
        let poll = Poll::new(rt)?;
        poll.registry()
            .register(&mut socket, Token(0), Interest::READABLE)?;
        Ok(PolledSocket {
            socket,
            poll,
            events,
            is_drained: false,
        })
    }

    /// The address at which the socket is bound.
    pub(crate) fn here(&self) -> io::Result<SocketAddr> {
        self.socket.local_addr()
    }

    /// Sends one datagram, and answers whether all of it went out.
    pub(crate) fn send_to(&self, from: &[u8], there: SocketAddr) -> io::Result<bool> {
        Ok(self.socket.send_to(from, there)? == from.len())
    }

    /// Waits for a change, and answers whether one came.
    fn wait(&mut self) -> io::Result<bool> {
        self.poll.poll(&mut self.events, Some(patience()))?;
        Ok(!self.events.is_empty())
    }

    /// The next datagram with its sender, or none. It waits only after a read that found nothing, and reads only where
    /// something may be there, so that a turn in vain is one call of the system. A datagram that is longer than the piece
    /// is cut by the system.
    pub(crate) fn take(&mut self, into: &mut [u8]) -> io::Result<Option<(usize, SocketAddr)>>
        ensures { IfOk result (λ o. IfSome o (λ p. p.0 ≤ length into.new)) }
    {
        if self.is_drained && !self.wait()? {
            return Ok(None);
        }
        self.is_drained = false;
        match self.socket.recv_from(into) {
            Ok(taken) => Ok(Some(taken)),
            Err(error) => {
                if error.kind() != ErrorKind::WouldBlock {
                    return Err(error);
                }
                self.is_drained = true;
                Ok(None)
            }
        }
    }
}
