// Replays over readers and writers that give and take one byte at a time, and ones that fail.
use arrayvec::ArrayVec;
use session::stream::replay;
use std::io::{self, ErrorKind, Read, Write};
use std::test::Fail;

// The script examples/worked.script, and what it prints.
const SCRIPT: &[u8] = b"o v 2\ng 0 7 0 500\ns 0 3\ng 0 7 9 900\nd 3 1\nr 1\nd 4 1\n";

const PRINTED: &[u8] = b"1 ok\n2 ok\n3 ok\n4 ok\n5 ok\n6 0201000CE220A8397B1DCDAF\n7 no 6\n";

// Gives its bytes one by one, and then fails or ends.
#[derive(Drop)]
struct SlowReader<'a> {
    rest: &'a [u8],
    fails: bool,
}

impl Read for SlowReader<'_> {
    fn read(&mut self, buf: &mut [u8]) -> io::Result<usize> {
        let Some((first, rest)) = self.rest.split_first() else {
            if self.fails {
                return Err(io::Error::from(ErrorKind::ConnectionReset));
            }
            return Ok(0);
        };
        let Some(place) = buf.first_mut() else {
            return Ok(0);
        };
        *place = *first;
        self.rest = rest;
        Ok(1)
    }
}

// Takes one byte at a time, and fails where its room is full.
#[derive(Drop)]
struct SlowWriter {
    taken: ArrayVec<u8, 100>,
    room: usize,
}

impl Write for SlowWriter {
    fn write(&mut self, buf: &[u8]) -> io::Result<usize> {
        if self.taken.len() >= self.room {
            return Err(io::Error::from(ErrorKind::ConnectionReset));
        }
        let Some(first) = buf.first() else {
            return Ok(0);
        };
        if self.taken.try_push(*first).is_err() {
            return Err(io::Error::from(ErrorKind::StorageFull));
        }
        Ok(1)
    }

    fn flush(&mut self) -> io::Result<()> {
        Ok(())
    }
}

#[test]
fn replays_byte_by_byte(rt: HostRuntime) -> Result<(), Fail> {
    let mut reader = SlowReader {
        rest: SCRIPT,
        fails: false,
    };
    let mut writer = SlowWriter {
        taken: ArrayVec::new(),
        room: usize::MAX,
    };
    replay(&mut reader, &mut writer)?;
    assert!(rt; writer.taken.as_slice() == PRINTED);
    Ok(())
}

#[test]
fn ends_where_the_writer_fails(rt: HostRuntime) {
    for room in [0, 5, 20] {
        let mut reader = SlowReader {
            rest: SCRIPT,
            fails: false,
        };
        let mut writer = SlowWriter {
            taken: ArrayVec::new(),
            room,
        };
        let replayed = replay(&mut reader, &mut writer);
        assert!(rt; replayed.is_err());
        assert_eq!(rt; writer.taken.len(), room);
        assert!(rt; PRINTED.starts_with(writer.taken.as_slice()));
    }
}

#[test]
fn writes_nothing_where_the_reader_fails(rt: HostRuntime) {
    let mut reader = SlowReader {
        rest: SCRIPT,
        fails: true,
    };
    let mut writer = SlowWriter {
        taken: ArrayVec::new(),
        room: usize::MAX,
    };
    let replayed = replay(&mut reader, &mut writer);
    assert!(rt; replayed.is_err());
    assert!(rt; writer.taken.is_empty());
}
