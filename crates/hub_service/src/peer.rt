//! A peer over a socket, which may be silent, slow, or still sending after the reply.

use std::io;
use std::io::{Read, Write};
use std::net::{Shutdown, TcpStream};
use std::time::{Clock, Duration, Instant};

/// How many seconds all reads of a connection may take together; all writes may take as many.
const SECONDS: u64 = 30;

/// How many seconds one read may take after the reply.
const LAST_SECONDS: u64 = 1;

/// How many bytes are read and dropped after the reply.
const LAST_BYTES: u64 = 1_048_576;

/// One direction of a connection. It fails if the peer makes the hub wait too long in total.
#[derive(Drop)]
pub struct Timed<'a, C: Clock> {
    stream: &'a TcpStream,
    clock: &'a C,
    /// The moment of the first read or write.
    since: Option<Instant>,
    /// How many seconds one read or write may take.
    patience: u64,
}

impl<'a, C: Clock> Timed<'a, C> {
    /// Starts a direction of a connection, which may take [`SECONDS`] from its first read or write on.
    pub fn new(stream: &'a TcpStream, clock: &'a C) -> Timed<'a, C> {
        Timed {
            stream,
            clock,
            since: None,
            patience: SECONDS,
        }
    }

    /// How long the next read or write may take. With a timeout for each single read, a peer that sends a byte just in
    /// time would hold the hub.
    fn time_left(&mut self) -> io::Result<Duration> {
        let now = Instant::now(self.clock)?;
        let since = match self.since {
            Some(since) => since,
            None => now,
        };
        self.since = Some(since);
        let left = Duration::from_secs(SECONDS).saturating_sub(now.duration_since(since));
        Ok(left.min(Duration::from_secs(self.patience)))
    }
}

// The socket refuses a timeout of 0, which ends the direction.
impl<C: Clock> Read for Timed<'_, C> {
    fn read(&mut self, buf: &mut [u8]) -> io::Result<usize> {
        let left = self.time_left()?;
        self.stream.set_read_timeout(Some(left))?;
        let mut stream = self.stream;
        stream.read(buf)
    }
}

impl<C: Clock> Write for Timed<'_, C> {
    fn write(&mut self, buf: &[u8]) -> io::Result<usize> {
        let left = self.time_left()?;
        self.stream.set_write_timeout(Some(left))?;
        let mut stream = self.stream;
        stream.write(buf)
    }

    fn flush(&mut self) -> io::Result<()> {
        Ok(())
    }
}

/// Ends the hub's side of a connection after the reply, and drops what the peer has sent after its request. A close
/// with bytes unread could take the reply from the peer. It waits for more bytes only if the peer `is_sending`.
pub fn part<C: Clock>(mut reader: Timed<'_, C>, is_sending: bool) {
    let stream = reader.stream;
    let ready = stream.shutdown(Shutdown::Write).is_ok()
        && (is_sending || stream.set_nonblocking(true).is_ok());
    if ready {
        reader.patience = LAST_SECONDS;
        let _ = io::copy(&mut reader.take(LAST_BYTES), &mut io::sink());
    }
}
