//! Reads lines and bodies from a source.
ghost use Rattle.std.specs.Prelude.{◌≡◌, ◌≢◌, ℕ, ◌+◌, ◌<◌, ◌≤◌, List, [], length, true, false};
ghost use Rattle.std.specs.Prelude.{vec_len, vec_capacity, IsTrue, IfOk, IfErr, OnOk};
ghost use Rattle.std.specs.Io.KnownBytes.{Consumes, IsAtEnd};
ghost use Rattle.wlines.specs.Failing.{HasFailed, IsReady, Leaves};
ghost use Rattle.wlines.specs.Pending.{left, budget, IsSound, IsSoundWriter};
ghost use Rattle.wlines.specs.Sent.{Says, sent};
ghost use Rattle.wlines.specs.Reads.{LineReads, BodyReads, SkipReads, FeedReads, MovesFront};

use crate::block_reader::BlockReader;
use crate::body::Body;
use crate::fault::ReadFault;
use crate::line::{Line, LineEnd};
use crate::outbox::Outbox;
use std::alloc::Global;
use std::io::{Read, Write};
use wvalues::Counted;

// How a line ended where the input has no further byte.
fn end_without_feed(line: &Line) -> LineEnd
    ensures unfed { result ≢ LineEnd.Whole }
    ensures closed { result ≡ LineEnd.Closed → line.now ≡ [] }
    ensures malformed { result ≡ LineEnd.Malformed → line.now ≢ [] }
{
    if line.is_empty() {
        return LineEnd::Closed;
    }
    LineEnd::Malformed
}

/// Reads a line of at most 200 bytes, or finds that there is none. The line before it is answered.
#[tactic(auto, using(crate::proofs::Saying::says_nothing, crate::proofs::Saying::says_still, crate::proofs::Saying::leaves_still))]
pub fn read_line<R: Read, W: Write>(
    source: &mut BlockReader,
    input: &mut Counted<R>,
    outbox: &mut Outbox,
    output: &mut Counted<W>,
    line: &mut Line,
) -> Result<LineEnd, ReadFault>
    requires input { IsSound input.old }
    requires output { IsSoundWriter output.old }
    requires answered { outbox.old.is_answered ≡ true }
    ensures says { Says (sent W.contents outbox.old output.old) (sent W.contents outbox.new output.new) [] }
    ensures owes { IfOk result (λ end. end ≡ LineEnd.Whole → outbox.new.is_answered ≡ false) }
    ensures ready { OnOk result (IsReady source.new input.new output.new) }
    ensures reads { IfOk result (λ end. LineReads end (left R.remaining source.old.held input.old)
        (left R.remaining source.new.held input.new) line.new) }
    ensures falls { IfOk result (λ end. end ≡ LineEnd.Whole → budget source.new.held input.new < budget source.old.held input.old) }
    ensures fault { IfErr result (λ fault. HasFailed fault input.new outbox.new output.new) }
{
    prove!(outbox.is_answered());
    line.clear();
    'bytes: loop {
        let next = source.next(input, outbox, output)?;
        let Some(byte) = next else {
            return Ok(end_without_feed(line));
        };
        if byte == b'\n' {
            outbox.owe();
            return Ok(LineEnd::Whole);
        }
        if line.is_full() {
            return Ok(LineEnd::Malformed);
        }
        line.push(byte);
    }
}

// Moves a front of what is held to the bytes, up to a length of len.
fn take_piece(source: &mut BlockReader, bytes: &mut Vec<u8>, len: usize)
    requires held { source.old.held ≢ [] }
    requires room { len ≤ vec_capacity bytes.old }
    requires short { vec_len bytes.old < len }
    ensures moves { MovesFront bytes.old.items bytes.new.items source.old.held source.new.held }
    ensures used { 0 < source.new.taken }
    ensures within { vec_len bytes.new ≤ len }
    ensures room { len ≤ vec_capacity bytes.new }
{
    let held = source.held();
    let n = held.len().min(len - bytes.len());
    bytes.extend_from_slice(&held[..n]).unwrap();
    source.advance(n);
}

// Adds bytes up to a length of len. It answers false where the input ends before.
#[tactic(auto, using(crate::proofs::Saying::says_nothing, crate::proofs::Saying::says_still, crate::proofs::Saying::leaves_still))]
fn fill<R: Read, W: Write>(
    source: &mut BlockReader,
    input: &mut Counted<R>,
    outbox: &mut Outbox,
    output: &mut Counted<W>,
    bytes: &mut Vec<u8>,
    len: usize,
) -> Result<bool, ReadFault>
    requires ready { IsReady source.old input.old output.old }
    requires empty { bytes.old.items ≡ [] }
    requires room { len ≤ vec_capacity bytes.old }
    ensures leaves { Leaves W.contents result outbox.old output.old source.new input.new outbox.new output.new }
    ensures taken { OnOk result (Consumes (left R.remaining source.old.held input.old)
        (left R.remaining source.new.held input.new) bytes.new.items) }
    ensures whole { IfOk result (λ whole. IsTrue whole → length bytes.new.items ≡ len) }
    ensures end { IfOk result (λ whole. whole ≡ false → IsAtEnd (left R.remaining source.new.held input.new)
        × (length bytes.new.items < len)) }
    ensures falls { OnOk result (budget source.new.held input.new + length bytes.new.items ≤ budget source.old.held input.old) }
{
    'pieces: while bytes.len() < len {
        if !source.top_up(input, outbox, output)? {
            return Ok(false);
        }
        take_piece(source, bytes, len);
    }
    Ok(true)
}

// Skips this many bytes. It answers false where the input ends before.
#[tactic(auto, using(crate::proofs::Saying::says_nothing, crate::proofs::Saying::says_still, crate::proofs::Saying::leaves_still))]
fn skip<R: Read, W: Write>(
    source: &mut BlockReader,
    input: &mut Counted<R>,
    outbox: &mut Outbox,
    output: &mut Counted<W>,
    len: usize,
) -> Result<bool, ReadFault>
    requires ready { IsReady source.old input.old output.old }
    ensures leaves { Leaves W.contents result outbox.old output.old source.new input.new outbox.new output.new }
    ensures whole { IfOk result (λ whole. IsTrue whole → (taken : List ℕ)
        × Consumes (left R.remaining source.old.held input.old) (left R.remaining source.new.held input.new) taken × (length taken ≡ len)) }
    ensures end { IfOk result (λ whole. whole ≡ false → (taken : List ℕ)
        × Consumes (left R.remaining source.old.held input.old) (left R.remaining source.new.held input.new) taken
        × IsAtEnd (left R.remaining source.new.held input.new) × (length taken < len)) }
    ensures falls { OnOk result (budget source.new.held input.new ≤ budget source.old.held input.old) }
{
    let mut count = 0;
    'pieces: while count < len {
        if !source.top_up(input, outbox, output)? {
            return Ok(false);
        }
        let n = source.held().len().min(len - count);
        source.advance(n);
        count += n;
    }
    Ok(true)
}

// Whether a line feed stands next, which is then taken.
fn take_feed<R: Read, W: Write>(
    source: &mut BlockReader,
    input: &mut Counted<R>,
    outbox: &mut Outbox,
    output: &mut Counted<W>,
) -> Result<bool, ReadFault>
    requires ready { IsReady source.old input.old output.old }
    ensures leaves { Leaves W.contents result outbox.old output.old source.new input.new outbox.new output.new }
    ensures reads { IfOk result (λ found. FeedReads found (left R.remaining source.old.held input.old)
        (left R.remaining source.new.held input.new)) }
    ensures falls { IfOk result (λ found. IsTrue found → budget source.new.held input.new < budget source.old.held input.old) }
{
    let next = source.next(input, outbox, output)?;
    let Some(byte) = next else {
        return Ok(false);
    };
    Ok(byte == b'\n')
}

/// Reads a body of this many bytes and the line feed behind it, and keeps none of it. It answers false where the
/// body is malformed: the input ends inside it, or another byte than a line feed stands behind it.
#[tactic(auto, using(crate::proofs::Saying::says_nothing, crate::proofs::Saying::says_still, crate::proofs::Saying::leaves_still))]
pub fn skip_body<R: Read, W: Write>(
    source: &mut BlockReader,
    input: &mut Counted<R>,
    outbox: &mut Outbox,
    output: &mut Counted<W>,
    len: usize,
) -> Result<bool, ReadFault>
    requires ready { IsReady source.old input.old output.old }
    ensures leaves { Leaves W.contents result outbox.old output.old source.new input.new outbox.new output.new }
    ensures reads { IfOk result (λ found. SkipReads found len (left R.remaining source.old.held input.old)
        (left R.remaining source.new.held input.new)) }
    ensures falls { IfOk result (λ found. IsTrue found → budget source.new.held input.new < budget source.old.held input.old) }
{
    if !skip(source, input, outbox, output, len)? {
        return Ok(false);
    }
    let found = take_feed(source, input, outbox, output)?;
    Ok(found)
}

// Reads a body into bytes that have room for it.
#[tactic(auto, using(crate::proofs::Saying::says_nothing, crate::proofs::Saying::says_still, crate::proofs::Saying::leaves_still))]
fn read_into<R: Read, W: Write>(
    source: &mut BlockReader,
    input: &mut Counted<R>,
    outbox: &mut Outbox,
    output: &mut Counted<W>,
    bytes: Vec<u8>,
    len: usize,
) -> Result<Body, ReadFault>
    requires ready { IsReady source.old input.old output.old }
    requires empty { bytes.items ≡ [] }
    requires room { len ≤ vec_capacity bytes }
    ensures leaves { Leaves W.contents result outbox.old output.old source.new input.new outbox.new output.new }
    ensures reads { IfOk result (λ body. BodyReads body len (left R.remaining source.old.held input.old)
        (left R.remaining source.new.held input.new)) }
    ensures falls { IfOk result (λ body. body ≢ Body.Malformed → budget source.new.held input.new < budget source.old.held input.old) }
{
    let mut bytes = bytes;
    if !fill(source, input, outbox, output, &mut bytes, len)? {
        return Ok(Body::Malformed);
    }
    if !take_feed(source, input, outbox, output)? {
        return Ok(Body::Malformed);
    }
    Ok(Body::Whole(bytes))
}

/// Reads a body of this many bytes and the line feed behind it. A body that finds no memory is read to its end
/// and dropped.
#[tactic(auto, using(crate::proofs::Saying::says_nothing, crate::proofs::Saying::says_still, crate::proofs::Saying::leaves_still))]
pub fn read_body<R: Read, W: Write>(
    alloc: Global,
    source: &mut BlockReader,
    input: &mut Counted<R>,
    outbox: &mut Outbox,
    output: &mut Counted<W>,
    len: usize,
) -> Result<Body, ReadFault>
    requires ready { IsReady source.old input.old output.old }
    ensures leaves { Leaves W.contents result outbox.old output.old source.new input.new outbox.new output.new }
    ensures reads { IfOk result (λ body. BodyReads body len (left R.remaining source.old.held input.old)
        (left R.remaining source.new.held input.new)) }
    ensures falls { IfOk result (λ body. body ≢ Body.Malformed → budget source.new.held input.new < budget source.old.held input.old) }
{
    if let Ok(bytes) = Vec::with_capacity(alloc, len) {
        let body = read_into(source, input, outbox, output, bytes, len)?;
        return Ok(body);
    }
    if !skip_body(source, input, outbox, output, len)? {
        return Ok(Body::Malformed);
    }
    Ok(Body::NoMemory)
}
