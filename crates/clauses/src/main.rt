// Answers a text of rows by the proved routines: a line for each call, with its number and what it answered. reference/README.md has the format.
#![tactic(auto)]

ghost use Rattle.std.specs.Prelude.{◌≤◌, IfOk, length};

mod domain;
mod row;
mod window;

use domain::DomainWords;
use row::{Command, Printer, Stop};
use std::io;
use std::io::Read;
use window::Windows;

// A run: what it prints, and the memory and the domain, once a row made them.
#[derive(Drop)]
struct Run<'a, R: Print> {
    printer: Printer<'a, R>,
    windows: Option<Windows>,
    domain: Option<DomainWords>,
}

impl<'a, R: Print> Run<'a, R> {
    fn new(rt: &'a R) -> Self {
        Run {
            printer: Printer { rt, calls: 0 },
            windows: None,
            domain: None,
        }
    }

    fn obey(&mut self, command: Command) -> Result<(), Stop> {
        match command {
            Command::Renew(numbers) => self.windows = Some(Windows::new(numbers)?),
            Command::OnWindows(c) => {
                let windows = self.windows.as_mut().ok_or(Stop::BadRow)?;
                windows.obey(&mut self.printer, c)?
            }
            Command::Reset(numbers) => self.domain = Some(DomainWords::new(numbers)?),
            Command::OnDomain(c) => {
                let domain = self.domain.as_mut().ok_or(Stop::BadRow)?;
                domain.obey(&mut self.printer, c)?
            }
        }
        Ok(())
    }

    // An empty line and a remark do nothing.
    fn line(&mut self, line: &[u8]) -> Result<(), Stop> {
        match line {
            [] | [b'#', ..] => Ok(()),
            row => self.obey(Command::try_from(row)?),
        }
    }
}

fn answer(rt: &impl Print, text: &[u8]) -> io::Result<()> {
    let mut run = Run::new(rt);
    for (before, line) in text.split(|byte| *byte == b'\n').enumerate() {
        match run.line(line) {
            Ok(()) => {}
            Err(Stop::BadRow) => return println!(rt; "bad line {}", before.wrapping_add(1)),
            Err(Stop::Output(error)) => return Err(error),
        }
    }
    Ok(())
}

// Reads until the buffer is full or the input ends, and says how much it read. A loop: std's `read_exact` doesn't say how much of a short input came, and its `read_to_end` needs the heap, of which this program assumes nothing.
fn read_full(input: &mut impl Read, buffer: &mut [u8]) -> io::Result<usize>
    ensures { IfOk result (λ n. n ≤ length buffer.new) }
{
    let mut done: usize = 0;
    while done < buffer.len() {
        let n = input.read(&mut buffer[done..])?;
        if n == 0 {
            return Ok(done);
        }
        done += n;
    }
    Ok(done)
}

// A text that doesn't fit says so: its last rows would go unanswered.
fn main(rt: HostRuntime) -> io::Result<()> {
    let mut text = [0u8; 262144];
    let mut more = [0u8; 1];
    let mut input = rt.reader();
    let n = read_full(&mut input, &mut text)?;
    if read_full(&mut input, &mut more)? != 0 {
        return println!(rt; "the text has more than 262144 bytes");
    }
    answer(&rt, &text[..n])
}
