// What a row says, how a call's answer is printed, and what stops the run.
use clauses_row::{BadRow, read};
use std::io;

// A row by its letter, with its numbers.
#[derive(Clone, Copy, Debug, PartialEq, Eq)]
pub enum Command {
    // START, LENGTH, MODE and ROOT
    Renew([u64; 4]),
    OnWindows(WindowCommand),
    // MODE
    Reset([u64; 1]),
    OnDomain(DomainCommand),
}

// A row that needs a memory.
#[derive(Clone, Copy, Debug, PartialEq, Eq)]
pub enum WindowCommand {
    // START, LENGTH, MODE and ROOT, of the first window
    Lend([u64; 4]),
    // OFFSET and VALUE
    Write([u64; 2]),
    // START and LENGTH, of the second window
    RenewSecond([u64; 2]),
    // START and LENGTH, of the second window
    LendSecond([u64; 2]),
    // OFFSET and VALUE
    WriteSecond([u64; 2]),
    // DEVICE, PROCESS, FLAGS, ACCESS, ADDRESS, COUNT and DATA
    Request([u64; 7]),
    // FILE and IDENTITY
    Take([u64; 2]),
    // FILE, DOUBLEWORD and MASK
    TakeMany([u64; 3]),
    // FILE
    Report([u64; 1]),
}

// A row that needs a domain.
#[derive(Clone, Copy, Debug, PartialEq, Eq)]
pub enum DomainCommand {
    // SOURCE and LEVEL
    Wire([u64; 2]),
    // OFFSET and VALUE
    Write([u64; 2]),
    // OFFSET
    Read([u64; 1]),
    Forward([u64; 0]),
    // HART
    Claim([u64; 1]),
    // HART
    Signal([u64; 1]),
}

impl TryFrom<&[u8]> for Command {
    type Error = BadRow;

    fn try_from(row: &[u8]) -> Result<Command, BadRow> {
        let (letter, text) = row.split_first().ok_or(BadRow)?;
        Ok(match *letter {
            b'm' => Command::Renew(read(text)?),
            b's' => Command::OnWindows(WindowCommand::Lend(read(text)?)),
            b'w' => Command::OnWindows(WindowCommand::Write(read(text)?)),
            b'n' => Command::OnWindows(WindowCommand::RenewSecond(read(text)?)),
            b'o' => Command::OnWindows(WindowCommand::LendSecond(read(text)?)),
            b'v' => Command::OnWindows(WindowCommand::WriteSecond(read(text)?)),
            b'r' => Command::OnWindows(WindowCommand::Request(read(text)?)),
            b't' => Command::OnWindows(WindowCommand::Take(read(text)?)),
            b'k' => Command::OnWindows(WindowCommand::TakeMany(read(text)?)),
            b'p' => Command::OnWindows(WindowCommand::Report(read(text)?)),
            b'd' => Command::Reset(read(text)?),
            b'x' => Command::OnDomain(DomainCommand::Wire(read(text)?)),
            b'y' => Command::OnDomain(DomainCommand::Write(read(text)?)),
            b'z' => Command::OnDomain(DomainCommand::Read(read(text)?)),
            b'f' => Command::OnDomain(DomainCommand::Forward(read(text)?)),
            b'c' => Command::OnDomain(DomainCommand::Claim(read(text)?)),
            b'g' => Command::OnDomain(DomainCommand::Signal(read(text)?)),
            _ => return Err(BadRow),
        })
    }
}

// What ends a run before its text does.
#[derive(Debug, Drop)]
pub enum Stop {
    BadRow,
    Output(io::Error),
}

impl From<BadRow> for Stop {
    fn from(_row: BadRow) -> Stop {
        Stop::BadRow
    }
}

impl From<io::Error> for Stop {
    fn from(error: io::Error) -> Stop {
        Stop::Output(error)
    }
}

// Prints answers, and counts them.
#[derive(Drop)]
pub struct Printer<'a, R: Print> {
    pub rt: &'a R,
    pub calls: u64,
}

impl<R: Print> Printer<'_, R> {
    // A call's line: its number and the values of its answer.
    pub fn answer(&mut self, values: &[u64]) -> Result<(), Stop> {
        let rt = self.rt;
        self.calls = self.calls.wrapping_add(1);
        print!(rt; "{}", self.calls)?;
        for v in values {
            print!(rt; " {v}")?;
        }
        println!(rt)?;
        Ok(())
    }
}
