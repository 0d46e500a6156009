// What is written where a reader or a writer fails in mid-stream.
use crate::pump::answer_all;
use std::io;
use std::io::{Cursor, ErrorKind, Read};

const LOG: &[u8] = b"(ring 2)\n(send 0 1)\n";

// A reader that gives its bytes, and then fails.
#[derive(Drop)]
struct Broken<'a> {
    left: &'a [u8],
}

impl Read for Broken<'_> {
    fn read(&mut self, buf: &mut [u8]) -> io::Result<usize> {
        if self.left.is_empty() {
            return Err(io::Error::from(ErrorKind::Other));
        }
        self.left.read(buf)
    }
}

#[test]
fn the_end_line_follows_the_answers(rt: HostRuntime) {
    let mut written = Cursor::new([0u8; 96]);
    let mut log = LOG;
    assert!(rt; answer_all(&mut log, &mut written).is_ok());
    let expected = b"(ok 1)\n(ok 2)\n(end (boards 2) (holder 0) (moves 0) (flight 1) (black 0))\n";
    assert_eq!(rt; written.position(), expected.len() as u64);
    assert!(rt; written.into_inner().starts_with(expected));
}

#[test]
fn no_end_line_follows_a_read_that_failed(rt: HostRuntime) {
    let mut written = Cursor::new([0u8; 96]);
    assert!(rt; answer_all(&mut Broken { left: LOG }, &mut written).is_err());
    assert_eq!(rt; written.position(), 14);
    assert!(rt; written.into_inner().starts_with(b"(ok 1)\n(ok 2)\n"));
}

#[test]
fn a_write_that_failed_leaves_a_beginning(rt: HostRuntime) {
    let mut written = Cursor::new([0u8; 9]);
    let mut log = LOG;
    assert!(rt; answer_all(&mut log, &mut written).is_err());
    assert_eq!(rt; written.into_inner(), *b"(ok 1)\n(o");
}
