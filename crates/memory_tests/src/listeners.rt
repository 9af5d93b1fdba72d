//! Tests connections over a real listener, one after the other, and the minutes of a clock.
use crate::fixture::new_register;
use api::{
    End, Fault, MachineMinutes, MessageFault, NoTicks, Served, Ticks, serve_connections, serve_next,
};
use numbers::Minute;
use register::Register;
use std::alloc::Global;
use std::cell::Cell;
use std::io;
use std::io::{ErrorKind, Read, Write};
use std::net::{
    Ipv4Addr, Net, OpenListener, OpenStream, Shutdown, SocketAddr, TcpListener, TcpStream,
};
use std::os::fd::{AsRawFd, RawFd};
use std::time::{Clock, Duration};
use store::MemoryStore;

// The message that registers the carrier AAAA.
const FIRST: &str = "POST /carriers HTTP/1.1\r\nx-spid: NPAC\r\ncontent-length: 15\r\n\r\n\
    {\"spid\":\"AAAA\"}";

// That message with only a part of its body.
const CUT: &str = "POST /carriers HTTP/1.1\r\nx-spid: NPAC\r\ncontent-length: 15\r\n\r\n{\"spid\"";

// The end of the response to the first.
const FIRST_ROWS: &str = "\r\n\r\n{\"rows\":[],\"spid\":\"AAAA\"}";

const CUT_BODY: &str = "\r\n\r\n{\"error\":\"cut_body\",\"number\":46}";

// What a connection sends, the minute supplied for it, how serving ends, and the last body that its
// client receives.
type Row<'a> = (&'a str, u64, End, &'a str);

// A connection that ends, one that is cut, one that asks to close and sends on, one for the clock,
// and one that is no message. A minute below the present one is ignored.
static ROWS: [Row<'static>; 5] = [
    (FIRST, 5, End::Input, FIRST_ROWS),
    (CUT, 6, End::Refused(MessageFault::CutBody), CUT_BODY),
    (
        "POST /carriers HTTP/1.1\r\nx-spid: NPAC\r\nconnection: close\r\ncontent-length: 15\r\n\r\n\
            {\"spid\":\"BBBB\"}POST /carriers HTTP/1.1\r\n\r\n",
        4,
        End::Closed,
        "\r\n\r\n{\"rows\":[],\"spid\":\"BBBB\"}",
    ),
    (
        "POST /clock HTTP/1.1\r\nx-spid: NPAC\r\ncontent-length: 12\r\n\r\n{\"minute\":9}",
        7,
        End::Input,
        "\r\n\r\n{\"error\":\"no_path\",\"number\":42}",
    ),
    (
        "GARBAGE\r\n\r\n",
        8,
        End::Refused(MessageFault::BadHead),
        "\r\n\r\n{\"error\":\"bad_head\",\"number\":45}",
    ),
];

// A source of one minute, supplied once.
#[derive(Drop)]
struct OneMinute {
    minute: Option<Minute>,
}

impl Ticks for OneMinute {
    fn next(&mut self) -> Option<Minute> {
        self.minute.take()
    }
}

// Connects a client that sends this text and nothing more.
fn connect_client<T: Net>(rt: &T, address: SocketAddr, text: &str) -> Option<T::Stream> {
    let mut client = TcpStream::connect(rt, address).ok()?;
    client.write_all(text.as_bytes()).ok()?;
    client.shutdown(Shutdown::Write).ok()?;
    Some(client)
}

// Returns whether what a client receives until its connection ends has this end.
fn has_end<C: Read>(alloc: Global, client: &mut C, end: &str) -> Option<bool> {
    let mut responses = String::new(alloc);
    client.read_to_string(&mut responses).ok()?;
    Some(responses.as_str().ends_with(end))
}

// Returns whether a connection is served as the row says.
fn is_served<T: Net + AllocGlobal>(
    rt: &T,
    listener: &T::Listener,
    register: &mut Register<MemoryStore>,
    row: &Row<'_>,
) -> Option<bool> {
    let (text, minute, end, body) = *row;
    let mut client = connect_client(rt, listener.local_addr().ok()?, text)?;
    let mut ticks = OneMinute {
        minute: Minute::new(minute),
    };
    let served = serve_next(rt.alloc(), listener, register, &mut ticks);
    Some(served == Ok(Served { count: 1, end }) && has_end(rt.alloc(), &mut client, body)?)
}

// Returns the first text that is served differently than its row says. Each client sees the end of
// its connection, so none is left open.
fn first_misserved<T: Net + AllocGlobal>(rt: &T) -> Option<Option<&'static str>> {
    let listener = TcpListener::bind(rt, (Ipv4Addr::LOCALHOST, 0)).ok()?;
    let mut register = new_register(rt.alloc())?;
    for row in &ROWS {
        if !is_served(rt, &listener, &mut register, row)? {
            return Some(Some(row.0));
        }
    }
    Some(None)
}

// A stream that refuses each read until its read timeout is 30 seconds.
#[derive(Drop)]
struct PatientStream<C: Drop> {
    stream: C,
    patience: Cell<Option<Duration>>,
}

impl<C: Read + Drop> Read for PatientStream<C> {
    fn read(&mut self, buf: &mut [u8]) -> io::Result<usize> {
        if self.patience.get() != Some(Duration::from_secs(30)) {
            return Err(ErrorKind::TimedOut.into());
        }
        self.stream.read(buf)
    }
}

impl<C: Write + Drop> Write for PatientStream<C> {
    fn write(&mut self, buf: &[u8]) -> io::Result<usize> {
        self.stream.write(buf)
    }

    fn flush(&mut self) -> io::Result<()> {
        self.stream.flush()
    }
}

impl<C: OpenStream + Drop> OpenStream for PatientStream<C> {
    fn set_read_timeout(&self, duration: Option<Duration>) -> io::Result<()> {
        self.patience.set(duration);
        Ok(())
    }

    fn try_clone(&self) -> io::Result<PatientStream<C>> {
        Ok(PatientStream {
            stream: self.stream.try_clone()?,
            patience: Cell::new(self.patience.get()),
        })
    }
}

impl<C: Drop> AsRawFd for PatientStream<C> {
    fn as_raw_fd(&self) -> RawFd {
        -1
    }
}

// A listener that refuses its first connection, counts how often it is called, and whose streams
// are patient.
#[derive(Drop)]
struct RefusingListener<'a, L> {
    listener: &'a L,
    calls: Cell<u32>,
}

impl<L: OpenListener> OpenListener for RefusingListener<'_, L> {
    type Stream = PatientStream<L::Stream>;

    fn accept(&self) -> io::Result<(PatientStream<L::Stream>, SocketAddr)> {
        let calls = self.calls.get();
        self.calls.set(calls.wrapping_add(1));
        if calls == 0 {
            return Err(ErrorKind::ConnectionAborted.into());
        }
        let (stream, address) = self.listener.accept()?;
        let patience = Cell::new(None);
        Ok((PatientStream { stream, patience }, address))
    }
}

impl<L> AsRawFd for RefusingListener<'_, L> {
    fn as_raw_fd(&self) -> RawFd {
        -1
    }
}

// Tests that a refused connection and a cut one count, and leave the next one served; and that each
// is served only with its read timeout.
fn are_counted<T: Net + AllocGlobal>(rt: &T) -> Option<bool> {
    let listener = TcpListener::bind(rt, (Ipv4Addr::LOCALHOST, 0)).ok()?;
    let address = listener.local_addr().ok()?;
    let mut register = new_register(rt.alloc())?;
    let mut cut = connect_client(rt, address, CUT)?;
    let mut first = connect_client(rt, address, FIRST)?;
    let refusing = RefusingListener {
        listener: &listener,
        calls: Cell::new(0),
    };
    serve_connections(rt.alloc(), &refusing, &mut register, &mut NoTicks, Some(3));
    let are_answered = has_end(rt.alloc(), &mut cut, CUT_BODY)?
        && has_end(rt.alloc(), &mut first, FIRST_ROWS)?;
    Some(are_answered && refusing.calls.get() == 3)
}

#[test]
fn connections_are_served_one_after_the_other(rt: HostRuntime) {
    assert_eq!(rt; first_misserved(&rt), Some(None));
    assert_eq!(rt; are_counted(&rt), Some(true));
}

// A clock that always shows the same time since 1970.
#[derive(Clone, Copy)]
struct FixedClock(Duration);

impl Clock for FixedClock {
    fn monotonic(&self) -> io::Result<Duration> {
        Ok(Duration::ZERO)
    }

    fn since_1970(&self) -> io::Result<Duration> {
        Ok(self.0)
    }
}

// Seconds since 1970, and the minute then. A minute begins with its sixtieth second. The thousand
// millionth second falls in the night of 9 September 2001, at 01:46:40.
static MINUTES: [(u64, Option<u64>); 6] = [
    (0, Some(0)),
    (59, Some(0)),
    (60, Some(1)),
    (179, Some(2)),
    (1_000_000_000, Some(16_666_666)),
    (u64::MAX, None),
];

// Returns the first of these seconds with another minute than its row says.
fn first_wrong_minute() -> Option<u64> {
    for (seconds, expected) in &MINUTES {
        let clock = FixedClock(Duration::from_secs(*seconds));
        let minute = MachineMinutes { clock: &clock }.next();
        let number = match minute {
            Some(minute) => Some(minute.number),
            None => None,
        };
        if number != *expected {
            return Some(*seconds);
        }
    }
    None
}

#[test]
fn a_minute_has_sixty_seconds(rt: HostRuntime) {
    assert_eq!(rt; first_wrong_minute(), None);
}
