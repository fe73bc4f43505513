// What a device asks to do, and what a fault says.
#![tactic(auto)]

ghost use Rattle.std.specs.Prelude.{◌≡◌};
ghost use Rattle.causes.specs.Causes.{is_write, is_execute, access_fault, page_fault, guest_page_fault, disallowed as disallowed_of, stage_number};

// 01: "read, write or read-for-execute".
#[derive(Clone, Copy, Debug, PartialEq, Eq)]
pub enum Access {
    Read,
    Write,
    Execute,
}

// 01: "a fault names the stage that found it".
#[derive(Clone, Copy, Debug, PartialEq, Eq)]
pub enum Stage {
    Directory,
    ProcessDirectory,
    First,
    Second,
    MessageTable,
}

// A fault: the standard's cause, and the stage.
#[derive(Clone, Copy, Debug, PartialEq, Eq)]
pub struct FaultInfo {
    pub cause: u64,
    pub stage: Stage,
}

pub fn is_write(x: Access) -> bool
    ensures { result ≡ is_write x }
{
    x == Access::Write
}

pub fn is_execute(x: Access) -> bool
    ensures { result ≡ is_execute x }
{
    x == Access::Execute
}

// The standard's causes, here and below: tables with a row for each access, and no conversion of a type.
pub fn access_fault(x: Access) -> u64
    ensures { result ≡ access_fault x }
{
    match x {
        Access::Execute => 1,
        Access::Read => 5,
        Access::Write => 7,
    }
}

pub fn page_fault(x: Access) -> u64
    ensures { result ≡ page_fault x }
{
    match x {
        Access::Execute => 12,
        Access::Read => 13,
        Access::Write => 15,
    }
}

pub fn guest_page_fault(x: Access) -> u64
    ensures { result ≡ guest_page_fault x }
{
    match x {
        Access::Execute => 20,
        Access::Read => 21,
        Access::Write => 23,
    }
}

// 003: "Transaction type disallowed".
pub fn disallowed() -> FaultInfo
    ensures { result ≡ disallowed_of }
{
    FaultInfo {
        cause: 260,
        stage: Stage::Directory,
    }
}

// A stage's number at a face that knows only numbers. A function, as that face calls it; a From beside it would say the same again.
pub fn stage_number(s: Stage) -> u64
    ensures { result ≡ stage_number s }
{
    match s {
        Stage::Directory => 0,
        Stage::ProcessDirectory => 1,
        Stage::First => 2,
        Stage::Second => 3,
        Stage::MessageTable => 4,
    }
}
