// Bytes, as pairs of capital hex digits show them.
ghost use Rattle.std.specs.Prelude.{◌≡◌, ◌*◌, ◌<◌, ◌≤◌, ◌++◌, true, length, drop};
ghost use Rattle.std.specs.List.{list_all};
ghost use Rattle.script.specs.Fields.{is_hex, hex_value, are_pairs, pair_bytes};

use synopsis::kind::LONGEST;

/// How many bytes of room a line may need: 2,048, those of the longest frame.
pub const ROOM: usize = LONGEST;

// Whether a byte is a capital hex digit.
fn is_hex(byte: u8) -> bool
    ensures { result ≡ is_hex byte }
{
    matches!(byte, b'0'..=b'9' | b'A'..=b'F')
}

// The value of a capital hex digit.
fn hex_value(digit: u8) -> u8
    requires { is_hex digit ≡ true }
    ensures value { result ≡ hex_value digit }
    ensures small { result < 16 }
{
    if digit <= b'9' {
        digit - b'0'
    } else {
        digit - b'A' + 10
    }
}

// Whether all bytes are capital hex digits.
fn are_hex(text: &[u8]) -> bool
    ensures { result ≡ list_all is_hex text.now }
{
    text.iter().all(|byte| is_hex(*byte))
}

// Whether a field is pairs of capital hex digits, as many as a line may show.
pub(crate) fn are_pairs(field: &[u8]) -> bool
    ensures { result ≡ are_pairs field.now }
{
    let (length, hex) = (field.len(), are_hex(field));
    length >= 2 && length <= 2 * ROOM && length % 2 == 0 && hex
}

// Writes the bytes that pairs show at the front of the room; how many they are. The other bytes stay.
pub(crate) fn write_pairs(pairs: &[u8], room: &mut [u8; ROOM]) -> usize
    requires { are_pairs pairs.now ≡ true }
    ensures count { result ≡ length (pair_bytes pairs.now) }
    ensures fits { result ≤ 2048 }
    ensures room { room.new ≡ pair_bytes pairs.now ++ drop result room.old }
{
    let count = pairs.len() / 2;
    for place in 0..count {
        room[place] = 16 * hex_value(pairs[2 * place]) + hex_value(pairs[2 * place + 1]);
    }
    count
}
