// An APLIC domain: its making, its wires and registers, and what it delivers. Each buffer is as long as its call asks, so a status of 1 never comes.
use crate::row::{DomainCommand, Printer, Stop};
use clauses_row::BadRow;

// The words of a domain.
#[derive(Clone, Copy)]
pub struct DomainWords([u64; 87]);

impl DomainWords {
    // MODE, which word 7 has; all others are zero at reset.
    pub fn new([mode]: [u64; 1]) -> Result<DomainWords, BadRow> {
        if 1 < mode {
            return Err(BadRow);
        }
        let mut words = [0; 87];
        words[7] = mode;
        Ok(DomainWords(words))
    }

    fn wire(&mut self, [source, level]: [u64; 2]) -> Result<u64, BadRow> {
        if 1 < level {
            return Err(BadRow);
        }
        Ok(capi_aplic::yasmurekh_aplic_wire(&mut self.0, source, level))
    }

    fn write(&mut self, [offset, value]: [u64; 2]) -> Result<(), BadRow> {
        if 0xFFFFFFFF < value {
            return Err(BadRow);
        }
        capi_aplic::yasmurekh_aplic_write(&mut self.0, offset, value as u32);
        Ok(())
    }

    fn read(&mut self, [offset]: [u64; 1]) -> [u64; 1] {
        let mut out = [0; 1];
        capi_aplic::yasmurekh_aplic_read(&mut self.0, offset, &mut out);
        out
    }

    fn forward(&mut self) -> [u64; 4] {
        let mut out = [0; 4];
        capi_aplic::yasmurekh_aplic_forward(&mut self.0, &mut out);
        out
    }

    // The refusal and the value, which a refused call leaves at 0.
    fn claim(&mut self, [hart]: [u64; 1]) -> [u64; 2] {
        let mut out = [0; 1];
        let refusal = capi_aplic::yasmurekh_aplic_claim(&mut self.0, hart, &mut out);
        [refusal, out[0]]
    }

    fn signal(&mut self, [hart]: [u64; 1]) -> [u64; 2] {
        let mut out = [0; 1];
        let refusal = capi_aplic::yasmurekh_aplic_signal(&mut self.0, hart, &mut out);
        [refusal, out[0]]
    }

    pub fn obey<R: Print>(
        &mut self,
        printer: &mut Printer<'_, R>,
        command: DomainCommand,
    ) -> Result<(), Stop> {
        match command {
            DomainCommand::Wire(numbers) => printer.answer(&[self.wire(numbers)?])?,
            DomainCommand::Write(numbers) => self.write(numbers)?,
            DomainCommand::Read(numbers) => printer.answer(&self.read(numbers))?,
            DomainCommand::Forward(_) => printer.answer(&self.forward())?,
            DomainCommand::Claim(numbers) => printer.answer(&self.claim(numbers))?,
            DomainCommand::Signal(numbers) => printer.answer(&self.signal(numbers))?,
        }
        Ok(())
    }
}
