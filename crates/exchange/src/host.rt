ghost use Rattle.std.specs.Prelude.{◌≡◌, IfOk};
ghost use Rattle.least.specs.Least.{least_kind, least_form};
ghost use Rattle.exchange.specs.Hosts.{after_frame};

use arrayvec::ArrayVec;
use least::kind::GREATEST;
use least::row::LeastValues;
use readings::Reading;
use std::io;
use synopsis::kind::Synopsis;
use texts::shown::Pairs;

// A frame, in fixed memory with a length of its own.
pub(crate) type Frame = ArrayVec<u8, GREATEST>;

/// One host of the rack: its name, and the least values of what it has counted.
#[derive(Clone, Copy)]
pub struct Host {
    name: &'static str,
    value: LeastValues,
}

impl Host {
    pub(crate) fn new(name: &'static str) -> Host
        ensures { least_form result.value ≡ least_kind.none }
    {
        Host {
            name,
            value: LeastValues::empty(),
        }
    }

    // Counts a reading.
    pub(crate) fn see(&mut self, rt: &impl Print, reading: Reading) -> io::Result<()>
        ensures { least_form self.new.value ≡ least_kind.join (least_form self.old.value) (least_kind.single reading) }
    {
        self.value.add(reading);
        let name = self.name;
        let Reading { tenant, item, .. } = reading;
        println!(rt; "   {name} sees client {item} of tenant {tenant}")
    }

    // The frame of what is counted.
    pub(crate) fn frame(&self) -> Frame
        ensures { result.items ≡ least_kind.encoding (least_form self.now.value) }
    {
        let mut bytes = [0; GREATEST];
        let length = self.value.encode(&mut bytes).unwrap();
        let mut frame = Frame::from(bytes);
        frame.truncate(length);
        frame
    }

    // Puts the frame on the wire.
    pub(crate) fn send(&self, rt: &impl Print) -> io::Result<Frame>
        ensures { IfOk result (λ frame. frame.items ≡ least_kind.encoding (least_form self.now.value)) }
    {
        let frame = self.frame();
        let name = self.name;
        println!(rt; "   {name} sends {}", Pairs(&frame))?;
        Ok(frame)
    }

    // Decodes a frame, and fuses it into what the host holds; a refused frame changes nothing.
    pub(crate) fn take(&mut self, rt: &impl Print, frame: &[u8]) -> io::Result<()>
        ensures { least_form self.new.value ≡ after_frame (least_form self.old.value) frame.now }
    {
        let name = self.name;
        let mut heard = LeastValues::empty();
        match heard.decode(frame) {
            Ok(()) => {
                self.value.fuse(&heard);
                let total = self.value.length();
                println!(rt; "   {name} takes it, and has a frame of {total} bytes now")
            }
            Err(fault) => println!(rt; "   {name} refuses it: {fault}"),
        }
    }

    pub(crate) fn estimate(&self, rt: &impl Print) -> io::Result<()> {
        let name = self.name;
        let count = self.value.estimate();
        println!(rt; "   {name} counts {count} different clients")
    }
}
