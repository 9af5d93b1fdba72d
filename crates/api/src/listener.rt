//! Serves the connections of a listener, one after another.
ghost use Rattle.std.specs.Prelude.{◌≡◌, ◌<◌, ◌≤◌, ◌/◌, ◌^◌, ◌↔◌, IfSome, IsSome};
ghost use Rattle.std.specs.Duration.{as_nanos};
ghost use Rattle.model.specs.State.{State};
ghost use Rattle.register.specs.Refinement.{Refines};
ghost use Rattle.api.specs.Serving.{RefinesReachable};

use crate::serving::{Fault, Options, Served, Ticks, serve};
use numbers::Minute;
use register::Register;
use settle::Store;
use std::alloc::Global;
use std::io::{BufWriter, Read, Write};
use std::net::{OpenListener, OpenStream};
use std::time::{Clock, Duration};

// How long a connection may stay silent before it ends, in seconds. All others wait meanwhile.
const PATIENCE: u64 = 30;

// The size of the buffer for answers, in bytes.
const BUFFER_SIZE: usize = 65_536;

/// Returns the minutes since 1970 at `time`, rounded down, or `None` if they are 2^40 or more.
pub fn minute_of(time: Duration) -> Option<Minute>
    ensures value { IfSome result (λ minute. minute.number ≡ as_nanos time / 1_000_000_000 / 60) }
    ensures valid { IsSome result ↔ (as_nanos time / 1_000_000_000 / 60 < 2 ^ 40) }
{
    Minute::new(time.as_secs() / 60)
}

/// The minutes of the machine's clock, as `minute_of` counts them. Supplies no minute if the clock
/// fails.
#[derive(Clone, Copy, Debug)]
pub struct MachineMinutes<'a, T: Clock> {
    pub clock: &'a T,
}

impl<T: Clock> Ticks for MachineMinutes<'_, T> {
    fn next(&mut self) -> Option<Minute> {
        match self.clock.since_1970() {
            Ok(time) => minute_of(time),
            Err(_) => None,
        }
    }
}

// Serves the messages of `reader`, and writes their answers to `writer` through a buffer.
fn serve_stream<C: Read, W: Write, S: Store, T: Ticks>(
    alloc: Global,
    reader: &mut C,
    writer: &mut W,
    register: &mut Register<S>,
    ticks: &mut T,
) -> Result<Served, Fault>
    ensures state { S.IsUsable register.new.store → (st : State)
        → Refines (S.content register.old.store) st
        → RefinesReachable st (S.content register.new.store) }
    ensures usable { S.IsUsable register.new.store → S.IsUsable register.old.store }
    ensures rises { S.failed register.old.store ≤ S.failed register.new.store }
{
    let Ok(mut buffered) = BufWriter::with_capacity(alloc, BUFFER_SIZE, writer) else {
        return Err(Fault::Memory(0));
    };
    let options = Options { clock_route: false };
    let served = serve(alloc, register, ticks, &options, reader, &mut buffered);
    let flushed = buffered.flush();
    let (_writer, _unwritten) = buffered.into_parts();
    match (served, flushed) {
        (Ok(served), Err(_)) => Err(Fault::Write(served.count)),
        (served, _) => served,
    }
}

/// Accepts one connection and serves it, without `POST /clock`. A connection that stays silent for
/// 30 seconds ends.
///
/// The content afterwards refines a state that the machine can reach. Not proved: what is read from
/// and written to the socket.
///
/// # Errors
///
/// Those of `serve`; also `Read` if the connection cannot be accepted.
pub fn serve_next<L: OpenListener, S: Store, T: Ticks>(
    alloc: Global,
    listener: &L,
    register: &mut Register<S>,
    ticks: &mut T,
) -> Result<Served, Fault>
where
    L::Stream: Read + Write + OpenStream + Drop,
    ensures state { S.IsUsable register.new.store → (st : State)
        → Refines (S.content register.old.store) st
        → RefinesReachable st (S.content register.new.store) }
    ensures usable { S.IsUsable register.new.store → S.IsUsable register.old.store }
    ensures rises { S.failed register.old.store ≤ S.failed register.new.store }
{
    let Ok((mut stream, _)) = listener.accept() else {
        return Err(Fault::Read(0));
    };
    let Ok(mut answers) = stream.try_clone() else {
        return Err(Fault::Read(0));
    };
    let _ = stream.set_read_timeout(Some(Duration::from_secs(PATIENCE)));
    serve_stream(alloc, &mut stream, &mut answers, register, ticks)
}

/// Serves connections one after another: as many as `connections` says, or without end. A
/// connection counts even if it could not be accepted or broke off, and the next one is served.
///
/// The content afterwards refines a state that the machine can reach. Not proved: how many
/// connections were served.
pub fn serve_connections<L: OpenListener, S: Store, T: Ticks>(
    alloc: Global,
    listener: &L,
    register: &mut Register<S>,
    ticks: &mut T,
    connections: Option<u16>,
)
where
    L::Stream: Read + Write + OpenStream + Drop,
    ensures state { S.IsUsable register.new.store → (st : State)
        → Refines (S.content register.old.store) st
        → RefinesReachable st (S.content register.new.store) }
    ensures usable { S.IsUsable register.new.store → S.IsUsable register.old.store }
    ensures rises { S.failed register.old.store ≤ S.failed register.new.store }
{
    let mut left = connections;
    for _ in 0..u64::MAX {
        match left {
            Some(0) => return,
            Some(n) => left = Some(n - 1),
            None => {}
        }
        let _ = serve_next(alloc, listener, register, ticks);
    }
}
