//! Readers that give a byte at a time, and end or fail.

use judge_engine::inlet::{Feed, InFault, read_file};
use std::io;
use std::io::{ErrorKind, Read};
use std::test::Fail;

/// A reader that gives one byte at a time, and then ends or fails.
#[derive(Drop)]
struct Drip<'a> {
    left: &'a [u8],
    fails: bool,
}

impl Read for Drip<'_> {
    fn read(&mut self, buffer: &mut [u8]) -> io::Result<usize> {
        if buffer.is_empty() {
            return Ok(0);
        }
        match self.left.split_first() {
            Some((first, rest)) => {
                buffer[0] = *first;
                self.left = rest;
                Ok(1)
            }
            None if self.fails => Err(io::Error::from(ErrorKind::Interrupted)),
            None => Ok(0),
        }
    }
}

#[test]
fn readers_that_stop(rt: HostRuntime) -> Result<(), Fail> {
    let text: &[u8] = b"(light)";
    for count in 0..=text.len() {
        let left = &text[..count];
        let whole = read_file(rt.alloc(), &mut Feed::new(Drip { left, fails: false }));
        let expected = left.to_vec(rt.alloc())?;
        assert_eq!(rt; whole, Ok(expected), "ending after {count} bytes");
        let failed = read_file(rt.alloc(), &mut Feed::new(Drip { left, fails: true }));
        assert_eq!(rt;
            failed,
            Err(InFault::Unreadable),
            "failing after {count} bytes"
        );
    }
    Ok(())
}
