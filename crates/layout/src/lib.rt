// A small memory for the programs, the first window: a device directory of one level, files, and a message table, each a page; and how a program shows an answer.
#![tactic(auto)]

ghost use Rattle.std.specs.Prelude.{◌≤◌};

use causes::Access;
use iommu_files::Answer;
use iommu_refusals::{DeviceRequest, Settings};
use memory::Starts;
use std::fmt;

// The two doublewords of an entry of the message table.
#[derive(Clone, Copy, Debug, PartialEq, Eq)]
pub struct TableEntry {
    pub low: u64,
    pub high: u64,
}

// Puts a doubleword into the window, lowest byte first.
pub fn put(window: &mut [u8; 12288], at: usize, v: u64)
    requires { at ≤ 12280 }
{
    memory::put_doubleword(&mut window[at..at + 8], v);
}

// Puts the entry of a file number.
fn put_entry(window: &mut [u8; 12288], number: usize, entry: TableEntry)
    requires { number ≤ 255 }
{
    let at = 8192 + 16 * number;
    put(window, at, entry.low);
    put(window, at + 8, entry.high);
}

// The first context is the message context of document 01: mask 3, pattern 0x80004, first stage Bare. The table's entry is that of file number 2.
pub fn window(entry: TableEntry) -> [u8; 12288] {
    let mut window = [0u8; 12288];
    put(&mut window, 0, 1);
    put(&mut window, 8, 0x8000000000040000);
    put(&mut window, 32, 0x1000000000040002);
    put(&mut window, 40, 3);
    put(&mut window, 48, 0x80004);
    put_entry(&mut window, 2, entry);
    window
}

// The same with an entry for file number 1 too.
pub fn two_entries(second: TableEntry, first: TableEntry) -> [u8; 12288] {
    let mut both = window(second);
    put_entry(&mut both, 1, first);
    both
}

// Where that memory starts, and a second window.
pub fn starts(second: u64) -> Starts {
    Starts {
        first: 0x40000000,
        second,
    }
}

pub fn settings(second: u64) -> Settings {
    Settings {
        starts: starts(second),
        mode: 2,
        root: 0x40000,
    }
}

// A request of device 0, without a process_id.
pub fn ask(access: Access, address: u64, length: u64) -> DeviceRequest {
    DeviceRequest {
        device: 0,
        process: None,
        supervisor: false,
        access,
        address,
        length,
    }
}

// An answer as the programs print it: its number and three values.
#[derive(Clone, Copy)]
pub struct Shown(pub Answer);

impl fmt::Display for Shown {
    fn fmt<W: fmt::Write>(&self, f: &mut fmt::Formatter<W>) -> fmt::Result {
        let n = iommu_files::to_numbers(self.0);
        write!(f, "{} {} {} {}", n.kind, n.first, n.second, n.third)
    }
}
