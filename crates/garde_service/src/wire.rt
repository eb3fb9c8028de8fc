//! The requests of a connection, and the answers to them.
ghost use Rattle.std.specs.Prelude.{◌≡◌, ◌≢◌, ℕ, ◌≤◌, List, Bool, [], ◌++◌, length, IsErr, OnOk, IsFalse, IsTrue, option_map};
ghost use Rattle.std.specs.Io.KnownBytes.{Appends, Consumes, IsAtEnd};
ghost use Rattle.http_server.specs.Connection.{config_of, history};
ghost use Rattle.http.specs.Request.{head_of, body_of};
ghost use Rattle.http_server.specs.Exchange.{Calls};
ghost use Rattle.http1.specs.Message as wire;
ghost use Rattle.garde_service.specs.Answers.{IsAnswerOf};
ghost use Rattle.garde_service.specs.Ending.{Ends, IsContent};
ghost use Rattle.garde_service.specs.Fits.{Fits};
ghost use Rattle.garde_service.specs.Heads.{looked};
ghost use Rattle.garde_service.specs.Received.{Gets, Loses};
ghost use Rattle.garde_service.specs.Said.{said};
ghost use Rattle.garde_service.specs.Wire.{IsTalk};

use crate::date::date_of;
use crate::handler::{Body, Handler};
use crate::heads::Seen;
use crate::rejected::Rejected;
use crate::rejection::{is_plain, plain_answer, rejected_of, rejection};
use crate::service::respond;
use bytes::{Buf, Bytes};
use http::Request;
use http_server::{Config, Connection, Reason, Refusal, Response, Service, State};
use std::alloc::{AllocError, Global};
use std::hash::RandomState;
use std::io;
use std::io::{ErrorKind, Read, Write};
use std::time::Clock;

/// A handler as a service of `http_server`, with the clock of its answers.
#[derive(Drop)]
struct Served<'a, H, C> {
    alloc: Global,
    clock: Option<&'a C>,
    handler: &'a H,
}

impl<'a, H: Handler, C: Clock> Service for Served<'a, H, C> {
    ghost answers = { λ old request response new. (new.handler.now ≡ old.handler.now)
        × IsAnswerOf (H.table old.handler.now) (H.gives old.handler.now) (H.rejects old.handler.now)
        (head_of request) (body_of request) response };

    fn call(
        &mut self,
        request: &Request<Bytes>,
        response: &mut Response,
    ) -> Result<(), AllocError> {
        let date = date_of(self.clock);
        respond(self.alloc, date, self.handler, request, response)
    }
}

/// The most bytes that are read at once.
const ROOM: usize = 8192;

/// Gives bytes to a connection. Where there are none, that is the end of its input.
fn receive(connection: &mut Connection, bytes: &[u8]) -> io::Result<()>
    requires { IsFalse (history connection.old).ended }
    ensures taken { (came : List ℕ) × (lost : List ℕ) × (bytes.now ≡ came ++ lost)
        × Gets (history connection.old) (history connection.new) came × OnOk result (lost ≡ []) }
    ensures end { IsTrue (history connection.new).ended → bytes.now ≡ [] }
    ensures config { config_of connection.new ≡ config_of connection.old }
{
    let mut rest = bytes;
    connection.read_from(&mut rest)?;
    while !rest.is_empty() {
        connection.read_from(&mut rest)?;
    }
    Ok(())
}

/// Reads once, looks for `HEAD ` among the bytes that come, and gives them to a connection. Where that
/// has no memory for them, some are lost.
fn read_once<R: Read>(
    connection: &mut Connection,
    reader: &mut R,
    seen: &mut Seen,
) -> io::Result<()>
    requires { IsFalse (history connection.old).ended }
    ensures taken { (came : List ℕ) × (lost : List ℕ)
        × Consumes (R.remaining reader.old) (R.remaining reader.new) (came ++ lost)
        × Gets (history connection.old) (history connection.new) came
        × OnOk result ((lost ≡ []) × (seen.new ≡ looked seen.old came)) }
    ensures end { IsTrue (history connection.new).ended → IsAtEnd (R.remaining reader.new) }
    ensures config { config_of connection.new ≡ config_of connection.old }
{
    let mut room = [0; ROOM];
    let count = reader.read(&mut room)?;
    let (bytes, _) = room.split_at(count);
    *seen = seen.after(bytes);
    receive(connection, bytes)
}

/// Answers requests while the connection is open. What is pending then is not yet written.
fn talk<S: Service, R: Read, W: Write>(
    connection: &mut Connection,
    service: &mut S,
    reader: &mut R,
    writer: &mut W,
    seen: &mut Seen,
) -> io::Result<()>
    ensures closed { OnOk result ((history connection.new).state ≢ State.Open) }
    ensures read { (came : List ℕ) × (lost : List ℕ)
        × Consumes (R.remaining reader.old) (R.remaining reader.new) (came ++ lost)
        × ((history connection.new).received ≡ (history connection.old).received ++ came)
        × Loses (history connection.new).state lost
        × OnOk result ((lost ≡ []) × (seen.new ≡ looked seen.old came)) }
    ensures end { (IsTrue (history connection.old).ended → IsAtEnd (R.remaining reader.old))
        → IsTrue (history connection.new).ended → IsAtEnd (R.remaining reader.new) }
    ensures written { (more : List ℕ)
        × Appends (W.contents writer.old) (W.contents writer.new) more
        × ((history connection.new).sent ≡ (history connection.old).sent ++ more) }
    ensures calls { Calls S.answers service.old service.new
        (history connection.old).calls (history connection.new).calls }
    ensures config { config_of connection.new ≡ config_of connection.old }
{
    // A loop is proved to end, so this one counts its turns.
    for _ in 0..u64::MAX {
        connection.advance(service);
        if !matches!(connection.state(), State::Open) {
            return Ok(());
        }
        if !connection.wants_write() {
            // The client may wait for what the writer holds.
            writer.flush()?;
            read_once(connection, reader, seen)?;
        } else if connection.write_to(writer)? == 0 {
            return Err(ErrorKind::WriteZero.into());
        }
    }
    Err(ErrorKind::TimedOut.into())
}

/// Writes all bytes but the last `left`.
fn write_but<B: Buf, W: Write>(bytes: &mut B, left: usize, writer: &mut W) -> io::Result<()>
    ensures written { (written : List ℕ)
        × Appends (W.contents writer.old) (W.contents writer.new) written
        × (B.unread bytes.old ≡ written ++ B.unread bytes.new) }
    ensures all { OnOk result (length (B.unread bytes.new) ≤ left) }
{
    while bytes.remaining() > left {
        let chunk = bytes.chunk();
        let most = chunk.len().min(bytes.remaining() - left);
        let (front, _) = chunk.split_at(most);
        match writer.write(front)? {
            0 => return Err(ErrorKind::WriteZero.into()),
            count => bytes.advance(count),
        }
    }
    Ok(())
}

/// Writes bytes, and flushes the writer.
fn write_out<B: Buf, W: Write>(bytes: &mut B, writer: &mut W) -> io::Result<()>
    ensures written { (written : List ℕ)
        × Appends (W.contents writer.old) (W.contents writer.new) written
        × (B.unread bytes.old ≡ written ++ B.unread bytes.new) }
    ensures all { OnOk result (B.unread bytes.new ≡ []) }
{
    write_but(bytes, 0, writer)?;
    writer.flush()
}

/// Writes what is pending on a connection.
fn finish<W: Write>(connection: Connection, writer: &mut W) -> io::Result<()>
    ensures { (written : List ℕ) × (unwritten : List ℕ)
        × Appends (W.contents writer.old) (W.contents writer.new) written
        × ((history connection).pending ≡ written ++ unwritten)
        × OnOk result (unwritten ≡ []) }
{
    let (_, mut pending) = connection.into_buffers();
    write_out(&mut pending, writer)
}

/// The body of a rejection: none where `HEAD ` came, so that the request may be by that method.
fn content<H: Handler>(handler: &H, why: Rejected, seen: Seen) -> Option<Body>
    ensures { IsContent (H.rejects handler.now) (seen ≡ Seen.Found) why (option_map said result) }
{
    match seen {
        Seen::Found => None,
        _ => Some(handler.rejected(why)),
    }
}

/// Writes the last answer of a connection whose next request is rejected: that of the handler, in place
/// of the one of `http_server`. Where memory runs out for it, the latter is written, and the error says
/// so.
fn refuse<H: Handler, C: Clock, W: Write>(
    alloc: Global,
    clock: Option<&C>,
    handler: &H,
    why: Refusal,
    seen: Seen,
    connection: Connection,
    writer: &mut W,
) -> io::Result<()>
    requires state { (history connection).state ≡ State.Closing (Reason.Refused why) }
    requires seen { seen ≡ looked Seen.Nothing (history connection).received }
    ensures { (written : List ℕ) × (unwritten : List ℕ)
        × Appends (W.contents writer.old) (W.contents writer.new) written
        × Ends (H.rejects handler.now) (IsErr result) (history connection).state
        (history connection).received (history connection).pending (written ++ unwritten)
        × OnOk result (unwritten ≡ []) }
{
    let (unread, mut pending) = connection.into_buffers();
    let kind = rejected_of(why, unread.as_slice());
    let body = content(handler, kind, seen);
    let text = rejection(alloc, kind, body, date_of(clock));
    write_but(&mut pending, plain_answer(kind).len(), writer)?;
    match text {
        Ok(text) if is_plain(kind, &pending) => {
            let mut rest = text.as_str().as_bytes();
            write_out(&mut rest, writer)
        }
        _ => {
            write_out(&mut pending, writer)?;
            Err(ErrorKind::OutOfMemory.into())
        }
    }
}

/// Writes what is pending on a connection that is done, or what stands in its place.
fn close<H: Handler, C: Clock, W: Write>(
    alloc: Global,
    clock: Option<&C>,
    handler: &H,
    seen: Seen,
    connection: Connection,
    writer: &mut W,
) -> io::Result<()>
    requires { seen ≡ looked Seen.Nothing (history connection).received }
    ensures { (written : List ℕ) × (unwritten : List ℕ)
        × Appends (W.contents writer.old) (W.contents writer.new) written
        × Ends (H.rejects handler.now) (IsErr result) (history connection).state
        (history connection).received (history connection).pending (written ++ unwritten)
        × OnOk result (unwritten ≡ []) }
{
    match connection.state() {
        State::Closing(Reason::Refused(why)) => {
            refuse(alloc, clock, handler, why, seen, connection, writer)
        }
        _ => finish(connection, writer),
    }
}

/// Drops a connection. `into_buffers` drops most of what it holds, which makes this cheap to prove.
fn discard(connection: Connection) {
    let (_, _) = connection.into_buffers();
}

/// Answers the requests that the reader gives, by the routes of the handler, until the connection is
/// done, and says how it stands. The clock dates the answers.
/// What was read and written before an error is a conversation too.
pub fn answer_all<H: Handler, C: Clock, R: Read, W: Write>(
    alloc: Global,
    keys: RandomState,
    config: Config,
    clock: Option<&C>,
    handler: &H,
    reader: &mut R,
    writer: &mut W,
) -> io::Result<State>
    ensures talk { (read : List ℕ) × (written : List ℕ) × (ended : Bool)
        × Consumes (R.remaining reader.old) (R.remaining reader.new) read
        × Appends (W.contents writer.old) (W.contents writer.new) written
        × (IsTrue ended → IsAtEnd (R.remaining reader.new))
        × ∥ IsTalk (IsAnswerOf (H.table handler.now) (H.gives handler.now) (H.rejects handler.now))
        (H.rejects handler.now) config ended read written result ∥₁ }
    ensures says { (request : wire.Request) → (response : wire.Response)
        → Fits (IsAnswerOf (H.table handler.now) (H.gives handler.now) (H.rejects handler.now))
        request response → H.says handler.now request response }
{
    let mut connection = Connection::new(alloc, keys, config);
    let mut service = Served {
        alloc,
        clock,
        handler,
    };
    let mut seen = Seen::Nothing;
    match talk(&mut connection, &mut service, reader, writer, &mut seen) {
        Ok(()) => {
            let stands = connection.state();
            close(alloc, clock, handler, seen, connection, writer)?;
            Ok(stands)
        }
        Err(error) => {
            discard(connection);
            Err(error)
        }
    }
}
