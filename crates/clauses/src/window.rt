// The memories of the two windows: their making, their bytes, and the calls of the IOMMU over the parts that are lent. Each buffer is as long as its call asks, so the call's status is 0.
ghost use Rattle.std.specs.Prelude.{◌≤◌};

use crate::row::{Printer, Stop, WindowCommand};
use clauses_row::BadRow;

// The part of a memory that is lent: where it starts, and its length.
#[derive(Clone, Copy)]
struct Part {
    start: u64,
    length: usize,
    ghost within: { length ≤ 131072 },
}

impl Part {
    fn new([start, length]: [u64; 2]) -> Result<Part, BadRow> {
        if 131072 < length {
            return Err(BadRow);
        }
        Ok(Part {
            start,
            length: length as usize,
        })
    }
}

#[derive(Drop)]
struct Window {
    bytes: [u8; 131072],
    part: Part,
}

impl Window {
    // All bytes are zero.
    fn new(part: Part) -> Window {
        Window {
            bytes: [0; 131072],
            part,
        }
    }

    fn lent(&mut self) -> &mut [u8] {
        &mut self.bytes[..self.part.length]
    }

    fn write(&mut self, [offset, value]: [u64; 2]) -> Result<(), BadRow> {
        if 131064 < offset {
            return Err(BadRow);
        }
        let at = offset as usize;
        memory::put_doubleword(&mut self.bytes[at..at + 8], value);
        Ok(())
    }
}

// Both memories, and the device directory.
#[derive(Drop)]
pub struct Windows {
    first: Window,
    second: Window,
    mode: u64,
    root: u64,
}

impl Windows {
    // None of the second memory is lent.
    pub fn new([start, length, mode, root]: [u64; 4]) -> Result<Windows, BadRow> {
        Ok(Windows {
            first: Window::new(Part::new([start, length])?),
            second: Window::new(Part::new([0, 0])?),
            mode,
            root,
        })
    }

    fn lend(&mut self, [start, length, mode, root]: [u64; 4]) -> Result<(), BadRow> {
        self.first.part = Part::new([start, length])?;
        self.mode = mode;
        self.root = root;
        Ok(())
    }

    // The fifth value is a fault's stage.
    fn request(&mut self, numbers: [u64; 7]) -> Result<[u64; 5], BadRow> {
        let [device, process, flags, access, address, count, data] = numbers;
        if 3 < flags || 2 < access || 0xFFFFFFFF < data {
            return Err(BadRow);
        }
        let mut out = [0; 5];
        capi_iommu::yasmurekh_request(
            self.first.part.start,
            self.first.lent(),
            self.second.part.start,
            self.second.lent(),
            self.mode,
            self.root,
            device,
            process,
            flags,
            access,
            address,
            count,
            data as u32,
            &mut out,
        );
        Ok(out)
    }

    fn take(&mut self, [file, identity]: [u64; 2]) -> [u64; 5] {
        let mut out = [0; 5];
        capi_iommu::yasmurekh_take(
            self.first.part.start,
            self.first.lent(),
            self.second.part.start,
            self.second.lent(),
            file,
            identity,
            &mut out,
        );
        out
    }

    fn take_many(&mut self, [file, doubleword, mask]: [u64; 3]) -> [u64; 5] {
        let mut out = [0; 5];
        capi_many::yasmurekh_take_many(
            self.first.part.start,
            self.first.lent(),
            self.second.part.start,
            self.second.lent(),
            file,
            doubleword,
            mask,
            &mut out,
        );
        out
    }

    // The refusal, the count, and the sums of the pending and of the enable doublewords: they stand in turn from the third word on.
    fn report(&self, [file]: [u64; 1]) -> [u64; 4] {
        let mut out = [0; 66];
        capi_report::yasmurekh_report(
            self.first.part.start,
            &self.first.bytes[..self.first.part.length],
            self.second.part.start,
            &self.second.bytes[..self.second.part.length],
            file,
            &mut out,
        );
        [out[0], out[1], sum(&out[2..]), sum(&out[3..])]
    }

    pub fn obey<R: Print>(
        &mut self,
        printer: &mut Printer<'_, R>,
        command: WindowCommand,
    ) -> Result<(), Stop> {
        match command {
            WindowCommand::Lend(numbers) => self.lend(numbers)?,
            WindowCommand::Write(numbers) => self.first.write(numbers)?,
            WindowCommand::RenewSecond(numbers) => self.second = Window::new(Part::new(numbers)?),
            WindowCommand::LendSecond(numbers) => self.second.part = Part::new(numbers)?,
            WindowCommand::WriteSecond(numbers) => self.second.write(numbers)?,
            WindowCommand::Request(numbers) => printer.answer(&self.request(numbers)?)?,
            WindowCommand::Take(numbers) => printer.answer(&self.take(numbers)[..4])?,
            WindowCommand::TakeMany(numbers) => printer.answer(&self.take_many(numbers)[..4])?,
            WindowCommand::Report(numbers) => printer.answer(&self.report(numbers))?,
        }
        Ok(())
    }
}

// Every second word, added up modulo 2^64.
fn sum(words: &[u64]) -> u64 {
    words
        .iter()
        .step_by(2)
        .fold(0u64, |sum, word| sum.wrapping_add(*word))
}
