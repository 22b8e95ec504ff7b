//! Reads commands.
ghost use Rattle.std.specs.Prelude.{◌≡◌, ℕ, List, Option, Some, Ok, Err, [], ◌<◌, ◌≤◌, true, false, IfOk, IfErr, OnOk, OnSome};
ghost use Rattle.std.specs.Io.KnownBytes.{Consumes};
ghost use Rattle.wlines.specs.Failing.{HasFailed, IsReady, Leaves};
ghost use Rattle.wlines.specs.Pending.{left, budget, IsSound, IsSoundWriter};
ghost use Rattle.wlines.specs.Sent.{Says, sent};
ghost use Rattle.wscript.specs.Requests.{BehindReads, FoundBehind, GoesOn, RequestReads, follows_declaration};

use crate::header_lines::{Header, read_header};
use crate::numbers::NodeNumber;
use crate::request::{Command, Found, Order, Refusal, Request};
use std::alloc::Global;
use std::io::{Read, Write};
use wlines::{
    BlockReader, Body, Line, LineEnd, Outbox, ReadFault, read_body, read_line, skip_body,
};
use wvalues::{Counted, Name, NameFault};

// Reads the body behind a header line: nothing is found where no such body stands there.
#[tactic(auto, using(crate::proofs::Quiet::nothing_said))]
fn read_found<R: Read, W: Write>(
    alloc: Global,
    source: &mut BlockReader,
    input: &mut Counted<R>,
    outbox: &mut Outbox,
    output: &mut Counted<W>,
    header: &Header,
) -> Result<Option<Found>, ReadFault>
    requires ready { IsReady source.old input.old output.old }
    ensures leaves { Leaves W.contents result outbox.old output.old source.new input.new outbox.new output.new }
    ensures reads { IfOk result (λ found. FoundBehind header.now found (left R.remaining source.old.held input.old)
        (left R.remaining source.new.held input.new)) }
    ensures falls { IfOk result (λ found. OnSome found (budget source.new.held input.new ≤ budget source.old.held input.old)) }
{
    let Some(len) = header.body_length() else {
        return Ok(Some(Found::Nothing));
    };
    if !header.keeps_body() {
        if !skip_body(source, input, outbox, output, len as usize)? {
            return Ok(None);
        }
        return Ok(Some(Found::Dropped));
    }
    match read_body(alloc, source, input, outbox, output, len as usize)? {
        Body::Whole(bytes) => Ok(Some(Found::Kept(bytes))),
        Body::NoMemory => Ok(Some(Found::NoMemory)),
        Body::Malformed => Ok(None),
    }
}

// A declaration.
#[tactic(auto, using(crate::proofs::Bodies::declaration_kept, crate::proofs::Bodies::declaration_dropped, crate::proofs::Bodies::declaration_lacking))]
fn declaration_request(found: Found) -> Request
    ensures { (len : ℕ) (old new : Option (List ℕ)) → FoundBehind (Header.Declare len) (Some found) old new
        → BehindReads result (Header.Declare len) false old new }
{
    match found {
        Found::Kept(bytes) => Request::Whole(Command::Declare(bytes)),
        Found::Dropped => Request::Whole(Command::Refused(Refusal::LongDeclaration)),
        Found::NoMemory => Request::NoRoom,
        Found::Nothing => Request::Malformed,
    }
}

// A segment whose name was read.
#[tactic(auto, using(crate::proofs::Bodies::segment_kept, crate::proofs::Bodies::segment_dropped, crate::proofs::Bodies::segment_lacking))]
fn segment_request(node: NodeNumber, name: Name, found: Found) -> Request
    ensures { (len : ℕ) (old new : Option (List ℕ)) → FoundBehind (Header.Take node (Ok name) len) (Some found) old new
        → BehindReads result (Header.Take node (Ok name) len) true old new }
{
    match found {
        Found::Kept(bytes) => Request::Whole(Command::At(node, Order::Take(name, bytes))),
        Found::Dropped => Request::Whole(Command::Refused(Refusal::LongSegment)),
        Found::NoMemory => Request::NoMemory,
        Found::Nothing => Request::Malformed,
    }
}

// A segment whose words spell no name.
#[tactic(auto, using(crate::proofs::Bodies::nameless_dropped))]
fn nameless_request(node: NodeNumber, fault: NameFault, found: Found) -> Request
    ensures { (len : ℕ) (old new : Option (List ℕ)) → FoundBehind (Header.Take node (Err fault) len) (Some found) old new
        → BehindReads result (Header.Take node (Err fault) len) true old new }
{
    match found {
        Found::Dropped => Request::Whole(Command::Refused(Refusal::BadName(fault))),
        _ => Request::Malformed,
    }
}

// A segment.
fn take_request(node: NodeNumber, name: Result<Name, NameFault>, found: Found) -> Request
    ensures { (len : ℕ) (old new : Option (List ℕ)) → FoundBehind (Header.Take node name len) (Some found) old new
        → BehindReads result (Header.Take node name len) true old new }
{
    match name {
        Ok(name) => segment_request(node, name, found),
        Err(fault) => nameless_request(node, fault, found),
    }
}

// The text of a query.
#[tactic(auto, using(crate::proofs::Bodies::query_kept, crate::proofs::Bodies::query_dropped, crate::proofs::Bodies::query_lacking))]
fn query_request(node: NodeNumber, found: Found) -> Request
    ensures { (len : ℕ) (old new : Option (List ℕ)) → FoundBehind (Header.Ask node len) (Some found) old new
        → BehindReads result (Header.Ask node len) true old new }
{
    match found {
        Found::Kept(text) => Request::Whole(Command::At(node, Order::Ask(text))),
        Found::Dropped => Request::Whole(Command::Refused(Refusal::LongQuery)),
        Found::NoMemory => Request::NoMemory,
        Found::Nothing => Request::Malformed,
    }
}

// A piece of a delivery stream.
#[tactic(auto, using(crate::proofs::Bodies::piece_kept, crate::proofs::Bodies::piece_lacking))]
fn piece_request(node: NodeNumber, found: Found) -> Request
    ensures { (len : ℕ) (old new : Option (List ℕ)) → FoundBehind (Header.Feed node len) (Some found) old new
        → BehindReads result (Header.Feed node len) true old new }
{
    match found {
        Found::Kept(piece) => Request::Whole(Command::Feed(node, piece)),
        Found::NoMemory => Request::NoMemory,
        _ => Request::Malformed,
    }
}

// The retirement of a name, or why its words spell none.
#[tactic(auto, using(crate::proofs::Bodies::retirement_found, crate::proofs::Bodies::nameless_found))]
fn retire_request(node: NodeNumber, name: Result<Name, NameFault>) -> Request
    ensures { (old new : Option (List ℕ)) → Consumes old new [] → BehindReads result (Header.Retire node name) true old new }
{
    match name {
        Ok(name) => Request::Whole(Command::At(node, Order::Retire(name))),
        Err(fault) => Request::Whole(Command::Refused(Refusal::BadName(fault))),
    }
}

// The retirement of all names up to one, or why its words spell none.
#[tactic(auto, using(crate::proofs::Bodies::floor_found, crate::proofs::Bodies::nameless_floor))]
fn floor_request(node: NodeNumber, name: Result<Name, NameFault>) -> Request
    ensures { (old new : Option (List ℕ)) → Consumes old new [] → BehindReads result (Header.RetireTo node name) true old new }
{
    match name {
        Ok(name) => Request::Whole(Command::At(node, Order::RetireTo(name))),
        Err(fault) => Request::Whole(Command::Refused(Refusal::BadName(fault))),
    }
}

// The command of a header line and of what was found behind it.
#[tactic(auto, using(crate::proofs::Bodies::listing_found, crate::proofs::Bodies::put_found, crate::proofs::Bodies::get_found, crate::proofs::Bodies::bare))]
fn request_of(header: Header, found: Found) -> Request
    ensures { (old new : Option (List ℕ)) → FoundBehind header (Some found) old new
        → BehindReads result header (follows_declaration header) old new }
{
    match header {
        Header::Declare(_) => declaration_request(found),
        Header::Take(node, name, _) => take_request(node, name, found),
        Header::Retire(node, name) => retire_request(node, name),
        Header::RetireTo(node, name) => floor_request(node, name),
        Header::List(node) => Request::Whole(Command::At(node, Order::List)),
        Header::Ask(node, _) => query_request(node, found),
        Header::Feed(node, _) => piece_request(node, found),
        Header::Put(node, slot) => Request::Whole(Command::At(node, Order::Put(slot))),
        Header::Get(slot, node) => Request::Whole(Command::At(node, Order::Get(slot))),
    }
}

// Reads what stands behind a header line, the table being declared or not.
#[tactic(auto, using(crate::proofs::Bodies::out_of_order, crate::proofs::Bodies::nothing_found, crate::proofs::Quiet::nothing_said))]
fn read_behind<R: Read, W: Write>(
    alloc: Global,
    source: &mut BlockReader,
    input: &mut Counted<R>,
    outbox: &mut Outbox,
    output: &mut Counted<W>,
    declared: bool,
    header: Header,
) -> Result<Request, ReadFault>
    requires ready { IsReady source.old input.old output.old }
    ensures leaves { Leaves W.contents result outbox.old output.old source.new input.new outbox.new output.new }
    ensures reads { IfOk result (λ request. BehindReads request header declared (left R.remaining source.old.held input.old)
        (left R.remaining source.new.held input.new)) }
    ensures falls { IfOk result (λ request. GoesOn request → budget source.new.held input.new ≤ budget source.old.held input.old) }
{
    if header.follows_declaration() != declared {
        return Ok(Request::Malformed);
    }
    let Some(found) = read_found(alloc, source, input, outbox, output, &header)? else {
        return Ok(Request::Malformed);
    };
    Ok(request_of(header, found))
}

/// Reads the command that stands next, the table being declared or not. The command before it is answered.
#[tactic(auto, using(crate::proofs::Quiet::still_quiet))]
pub fn read_command<R: Read, W: Write>(
    alloc: Global,
    source: &mut BlockReader,
    input: &mut Counted<R>,
    outbox: &mut Outbox,
    output: &mut Counted<W>,
    declared: bool,
) -> Result<Request, ReadFault>
    requires input { IsSound input.old }
    requires output { IsSoundWriter output.old }
    requires answered { outbox.old.is_answered ≡ true }
    ensures says { Says (sent W.contents outbox.old output.old) (sent W.contents outbox.new output.new) [] }
    ensures ready { OnOk result (IsReady source.new input.new output.new) }
    ensures reads { IfOk result (λ request. RequestReads request declared (left R.remaining source.old.held input.old)
        (left R.remaining source.new.held input.new)) }
    ensures falls { IfOk result (λ request. GoesOn request → budget source.new.held input.new < budget source.old.held input.old) }
    ensures fault { IfErr result (λ fault. HasFailed fault input.new outbox.new output.new) }
{
    let mut line = Line::new();
    let end = read_line(source, input, outbox, output, &mut line)?;
    match end {
        LineEnd::Closed => return Ok(Request::Closed),
        LineEnd::Malformed => return Ok(Request::Malformed),
        LineEnd::Whole => {}
    }
    let Some(header) = read_header(line.as_slice()) else {
        return Ok(Request::Malformed);
    };
    let request = read_behind(alloc, source, input, outbox, output, declared, header)?;
    Ok(request)
}
