// The turns that the words of a generator tell.
use histories::{Call, Turn};
use network::calls::MEMORY;
use readings::Reading;
use synopsis::kind::Synopsis;

pub(crate) const NODES: usize = 7;

fn reading(item: u64) -> Reading {
    Reading {
        tenant: 0,
        item,
        amount: 0,
    }
}

// The call that a word tells. The frame of an ARRIVE is written into the room, and may lack its last byte.
fn call_of<S: Synopsis>(word: u64, is_cut: bool, room: &mut [u8]) -> Call<'_> {
    let node = (word / 16 % 8) as usize;
    let slot = (25 + word / 128 % 8) as usize;
    let rest = word / 1024;
    match word % 16 {
        0 | 1 => Call::Generate {
            node,
            reading: reading(rest % 65_536),
        },
        2 => {
            let length = S::make(reading(word)).encode(room).unwrap_or(0);
            let frame = &room[..length.min(room.len())];
            Call::Arrive {
                node,
                frame: &frame[..frame.len().saturating_sub(usize::from(is_cut))],
            }
        }
        3..=6 => Call::Send { node, slot },
        7..=10 => Call::Deliver { slot, node },
        11..=13 => Call::Drop { slot },
        _ => Call::Read {
            node,
            room: (rest % 1024) as usize,
        },
    }
}

// The turn that a word tells. Now and then it brings too few values, too few bytes or a cut frame.
pub(crate) fn turn_of<S: Synopsis>(word: u64, room: &mut [u8]) -> Turn<'_> {
    let odd = word / 0x1_0000_0000_0000 % 64;
    Turn {
        values: if odd == 0 { NODES - 1 } else { NODES },
        bytes: if odd == 1 { MEMORY - 1 } else { MEMORY },
        call: call_of::<S>(word, odd % 8 == 2, room),
    }
}
