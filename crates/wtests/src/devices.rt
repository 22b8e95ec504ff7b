//! Runs over readers and writers of one byte a call, and those that fail at each call in turn.

use std::alloc::Global;
use std::io::{self, Read, Write};
use std::process::Abort;
use std::test::*;
use wstore::{End, RunFault, run};
use wvalues::Counted;

// A segment is taken, listed, counted, retired and counted again.
const SCRIPT: &[u8] = b"T 49\ntable sales\nday integer\nshop text\namount integer\n\n\
    S 1 east 1 41\nday,shop,amount\n1,a,10\n2,a,20\n2,b,5\n4,a,\n\n\
    L 1\n\
    Q 1 26\nSELECT count(*) FROM sales\n\
    R 1 east 1\n\
    Q 1 26\nSELECT count(*) FROM sales\n";

const REPLIES: &[u8] = b"ok\n\
    taken\n\
    list 1\neast 1 live 4\n\
    answer 8\ncount\n4\n\
    retired\n\
    answer 8\ncount\n0\n";

// Where the commands of the script end, and where their replies do.
const ENDS: [(usize, usize); 6] = [
    (55, 3),
    (111, 9),
    (115, 30),
    (149, 47),
    (160, 55),
    (194, 72),
];

// Gives at most `most` bytes a call, and fails at the call that is numbered `failing`, from 0.
#[derive(Drop)]
struct FaultyReader<'a> {
    left: &'a [u8],
    most: usize,
    calls: usize,
    failing: usize,
    kind: io::ErrorKind,
}

impl<'a> Read for FaultyReader<'a> {
    fn read(&mut self, buf: &mut [u8]) -> io::Result<usize> {
        let call = self.calls;
        self.calls = call.saturating_add(1);
        if call == self.failing {
            return Err(io::Error::from(self.kind));
        }
        let n = buf.len().min(self.left.len()).min(self.most);
        buf[..n].copy_from_slice(&self.left[..n]);
        self.left = &self.left[n..];
        Ok(n)
    }
}

// How a call of a writer fails.
#[derive(Clone, Copy)]
enum Failure {
    Fault(io::ErrorKind),
    TakesNothing,
}

// Takes at most `most` bytes a call, and fails at the call that is numbered `failing`, from 0.
#[derive(Drop)]
struct FaultyWriter {
    taken: Vec<u8>,
    most: usize,
    calls: usize,
    failing: usize,
    failure: Failure,
}

impl Write for FaultyWriter {
    fn write(&mut self, buf: &[u8]) -> io::Result<usize> {
        let call = self.calls;
        self.calls = call.saturating_add(1);
        if call == self.failing {
            return match self.failure {
                Failure::Fault(kind) => Err(io::Error::from(kind)),
                Failure::TakesNothing => Ok(0),
            };
        }
        let n = buf.len().min(self.most);
        self.taken.extend_from_slice(&buf[..n])?;
        Ok(n)
    }

    fn flush(&mut self) -> io::Result<()> {
        Ok(())
    }
}

fn reader_of_script(most: usize, failing: usize, kind: io::ErrorKind) -> FaultyReader<'static> {
    FaultyReader {
        left: SCRIPT,
        most,
        calls: 0,
        failing,
        kind,
    }
}

fn writer_to_memory(alloc: Global, most: usize, failing: usize, failure: Failure) -> FaultyWriter {
    FaultyWriter {
        taken: Vec::new(alloc),
        most,
        calls: 0,
        failing,
        failure,
    }
}

// The ways in which a call of a device fails; that it is interrupted is one.
const KINDS: [io::ErrorKind; 2] = [io::ErrorKind::BrokenPipe, io::ErrorKind::Interrupted];

const FAILURES: [Failure; 3] = [
    Failure::Fault(io::ErrorKind::BrokenPipe),
    Failure::Fault(io::ErrorKind::Interrupted),
    Failure::TakesNothing,
];

#[test]
fn one_byte_a_call(rt: HostRuntime) {
    let mut input = Counted::new(reader_of_script(1, usize::MAX, KINDS[0]));
    let writer = writer_to_memory(rt.alloc(), 1, usize::MAX, FAILURES[0]);
    let mut output = Counted::new(writer);
    assert_eq!(rt; run(rt.alloc(), &mut input, &mut output), Ok(End::Done));
    assert_eq!(rt; input.reads(), 195);
    assert_eq!(rt; (input.failures(), output.failures()), (0, 0));
    assert_eq!(rt; output.into_inner().taken.as_slice(), REPLIES);
}

// The replies to the commands that stand whole in the first `read` bytes of the script.
fn replies_to(read: usize) -> &'static [u8] {
    let mut end = 0;
    for (command, reply) in ENDS {
        if command <= read {
            end = reply;
        }
    }
    REPLIES.get(..end).unwrap_or(REPLIES)
}

// Fails each of this many reads in turn.
fn compare_with_failing_reads(
    rt: &impl Abort,
    alloc: Global,
    most: usize,
    calls: usize,
    kind: io::ErrorKind,
) {
    for k in 0..calls {
        let mut input = Counted::new(reader_of_script(most, k, kind));
        let mut output = Counted::new(Vec::new(alloc));
        let end = run(alloc, &mut input, &mut output);
        assert_eq!(rt; end, Err(RunFault::Read), "at call {k}");
        assert_eq!(rt; (input.failures(), output.failures()), (1, 0));
        assert_eq!(rt; input.into_inner().calls, k.saturating_add(1));
        let written = output.into_inner();
        assert_eq!(rt; written.as_slice(), replies_to(k.saturating_mul(most)));
    }
}

#[test]
fn a_reader_that_fails(rt: HostRuntime) {
    for kind in KINDS {
        compare_with_failing_reads(&rt, rt.alloc(), 1, 195, kind);
        compare_with_failing_reads(&rt, rt.alloc(), usize::MAX, 2, kind);
    }
}

// Fails each write of a byte in turn.
fn compare_with_failing_writes(rt: &impl Abort, alloc: Global, failure: Failure) {
    for k in 0..REPLIES.len() {
        let mut input = Counted::new(SCRIPT);
        let mut output = Counted::new(writer_to_memory(alloc, 1, k, failure));
        let end = run(alloc, &mut input, &mut output);
        assert_eq!(rt; end, Err(RunFault::Write), "at call {k}");
        assert_eq!(rt; (input.failures(), output.failures()), (0, 1));
        let output = output.into_inner();
        assert_eq!(rt; output.calls, k.saturating_add(1));
        assert_eq!(rt; output.taken.as_slice(), &REPLIES[..k]);
    }
}

#[test]
fn a_writer_that_fails(rt: HostRuntime) {
    for failure in FAILURES {
        compare_with_failing_writes(&rt, rt.alloc(), failure);
    }
}

#[test]
fn a_writer_that_fails_at_a_whole_reply(rt: HostRuntime) {
    let mut before = 0;
    for (k, (_, end)) in ENDS.iter().enumerate() {
        let mut input = Counted::new(reader_of_script(1, usize::MAX, KINDS[0]));
        let writer = writer_to_memory(rt.alloc(), usize::MAX, k, FAILURES[0]);
        let mut output = Counted::new(writer);
        assert_eq!(rt;
            run(rt.alloc(), &mut input, &mut output),
            Err(RunFault::Write)
        );
        let taken = output.into_inner().taken;
        assert_eq!(rt; taken.len(), before);
        assert!(rt; REPLIES.starts_with(taken.as_slice()));
        before = *end;
    }
}

// A script that is cut within a command ends with `bad script` behind whole replies.
#[test]
fn a_script_that_is_cut(rt: HostRuntime) {
    for k in 0..SCRIPT.len() {
        let mut input = Counted::new(&SCRIPT[..k]);
        let mut output = Counted::new(Vec::new(rt.alloc()));
        let end = run(rt.alloc(), &mut input, &mut output);
        let is_whole = k == 0 || ENDS.iter().any(|(command, _)| *command == k);
        assert_eq!(rt;
            end,
            Ok(if is_whole { End::Done } else { End::Bad }),
            "at {k}"
        );
        let bad: &[u8] = if is_whole { b"" } else { b"bad script\n" };
        let written = output.into_inner();
        assert_eq!(rt; written.strip_prefix(replies_to(k)), Some(bad), "at {k}");
    }
}
