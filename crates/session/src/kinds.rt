// The kinds that a script may open, and which of them have pages.
ghost use Rattle.std.specs.Prelude.{None, Some};
ghost use Rattle.usage.specs.Pages.{page_by};

use crate::paged::Paged;
use bitmaps::maps::Bitmaps;
use least::row::LeastValues;
use sample::row::Sample;
use synopsis::kind::LONGEST;
use usage::page::usage;
use usage::pile::StandardPile;

impl Paged for Bitmaps {
    ghost page = { None };

    fn has_page() -> bool {
        false
    }

    fn write_page(&self, _room: &mut [u8; LONGEST]) -> Option<usize> {
        None
    }
}

impl Paged for LeastValues {
    ghost page = { None };

    fn has_page() -> bool {
        false
    }

    fn write_page(&self, _room: &mut [u8; LONGEST]) -> Option<usize> {
        None
    }
}

impl Paged for Sample {
    ghost page = { None };

    fn has_page() -> bool {
        false
    }

    fn write_page(&self, _room: &mut [u8; LONGEST]) -> Option<usize> {
        None
    }
}

impl Paged for StandardPile {
    ghost page = { Some page_by };

    fn has_page() -> bool {
        true
    }

    fn write_page(&self, room: &mut [u8; LONGEST]) -> Option<usize> {
        match usage(self, room) {
            Ok(end) => Some(end),
            Err(_) => None,
        }
    }
}
