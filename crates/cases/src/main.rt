// The worked cases P5 to P10, P13 and P14 of document 01, run by the proved routines, with an empty second window at 0: mark, answer number, three values.
#![tactic(auto)]

use causes::Access;
use layout::{Shown, TableEntry};
use std::io;

// A case's mark, the entry of its file, and its access of four bytes.
#[derive(Clone, Copy)]
struct Case {
    mark: u64,
    entry: TableEntry,
    access: Access,
    address: u64,
    data: u32,
}

// An access of the page under an entry whose second doubleword is 0.
fn plain(mark: u64, low: u64, access: Access) -> Case {
    Case {
        mark,
        entry: TableEntry { low, high: 0 },
        access,
        address: 0x80006000,
        data: 0,
    }
}

// A write under the entry of P6.
fn write(mark: u64, address: u64, data: u32) -> Case {
    Case {
        mark,
        entry: TableEntry {
            low: 0x10000483,
            high: 0x100000000A000005,
        },
        access: Access::Write,
        address,
        data,
    }
}

fn cases() -> [Case; 8] {
    [
        plain(5, 0xA000407, Access::Read),
        write(6, 0x80006000, 37),
        write(7, 0x80006004, 620756992),
        write(8, 0x80006004, 37),
        write(9, 0x80006000, 2047),
        write(10, 0x80006000, 2048),
        plain(13, 0xA000405, Access::Read),
        plain(14, 0xA000407, Access::Execute),
    ]
}

fn run(rt: &impl Print, case: Case) -> io::Result<()> {
    let mut window = layout::window(case.entry);
    let request = layout::ask(case.access, case.address, 4);
    let answer = iommu::request(
        layout::settings(0),
        &mut window,
        &mut [],
        request,
        case.data,
    );
    println!(rt; "P{} {}", case.mark, Shown(answer))
}

fn main(rt: HostRuntime) -> io::Result<()> {
    for case in cases() {
        run(&rt, case)?;
    }
    Ok(())
}
