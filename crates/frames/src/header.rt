ghost use Rattle.std.specs.Prelude.{◌≡◌};
ghost use Rattle.frames.specs.Headers.{header_bytes, opened};

use synopsis::fault::{DecodeFault, Reason};

/// What a frame's header says after the kind number.
#[derive(Clone, Copy, PartialEq, Eq, Debug)]
pub struct Header {
    /// how many records, maps or sides follow
    pub count: u8,
    /// where the frame ends, which is its length in bytes
    pub end: u16,
}

/// The 4 bytes of the header of a frame of this kind: kind number, count, and the end, highest byte first.
pub fn header_bytes(kind: u8, header: Header) -> [u8; 4]
    ensures { result ≡ header_bytes kind header.count header.end }
{
    let [high, low] = header.end.to_be_bytes();
    [kind, header.count, high, low]
}

/// Reads the header of a frame that should be of this kind, with a count from `fewest` to `most`. It refuses with `Short` fewer
/// than 4 bytes, then with `OtherKind`, then with `Count`. Whether the end is right is the caller's to check.
pub fn read_header(frame: &[u8], kind: u8, fewest: u8, most: u8) -> Result<Header, DecodeFault>
    ensures { result ≡ opened kind fewest most frame.now }
{
    let &[number, count, high, low, ..] = frame else {
        return Err(DecodeFault::new(Reason::Short, frame.len(), kind));
    };
    if number != kind {
        return Err(DecodeFault::new(Reason::OtherKind, 0, kind));
    }
    if count < fewest || count > most {
        return Err(DecodeFault::new(Reason::Count, 1, kind));
    }
    let end = u16::from_be_bytes([high, low]);
    Ok(Header { count, end })
}
