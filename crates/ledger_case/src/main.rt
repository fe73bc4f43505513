// A small list of calls over two windows, and the ledger that its history gives: what each call was answered, then a row for each interrupt it speaks of.
#![tactic(auto)]

use causes::Access;
use interrupt_file::Report;
use iommu_files::Answer;
use layout::{Shown, TableEntry};
use std::{fmt, io};

// The tables and a file lie in the first window, another file in the second: where the latter starts, and the files.
const SECOND: u64 = 0x50000000;

const FAR: u64 = 0x50000200;

const NEAR: u64 = 0x40001400;

// A call of the list; `identity` of a request is what its data value names.
#[derive(Clone, Copy)]
enum Call {
    Request {
        address: u64,
        length: u64,
        data: u32,
        identity: u64,
    },
    Take {
        file: u64,
        identity: u64,
    },
    TakeMany {
        file: u64,
        doubleword: u64,
        mask: u64,
    },
}

impl fmt::Display for Call {
    fn fmt<W: fmt::Write>(&self, f: &mut fmt::Formatter<W>) -> fmt::Result {
        f.write_str(match self {
            Call::Request { .. } => "request",
            Call::Take { .. } => "take",
            Call::TakeMany { .. } => "take many",
        })
    }
}

// A 4-byte write of the page of a file.
fn send(address: u64, data: u32, identity: u64) -> Call {
    Call::Request {
        address,
        length: 4,
        data,
        identity,
    }
}

fn take(file: u64, identity: u64) -> Call {
    Call::Take { file, identity }
}

fn take_many(doubleword: u64, mask: u64) -> Call {
    Call::TakeMany {
        file: FAR,
        doubleword,
        mask,
    }
}

fn calls() -> [Call; 14] {
    [
        // a store, the same again (merged), and a take
        send(0x80006000, 37, 37),
        send(0x80006000, 37, 37),
        take(FAR, 37),
        // a take that finds nothing, a big-endian store, and a discard
        take(FAR, 37),
        send(0x80006004, 4278648832, 2047),
        send(0x80006000, 2048, 2048),
        // a store to the file in the first window, a refused take and a refused request
        send(0x80005000, 5, 5),
        take(FAR + 1, 37),
        Call::Request {
            address: 0x80006000,
            length: 0,
            data: 37,
            identity: 37,
        },
        // a store that stays, and a take of no identity
        send(0x80006000, 37, 37),
        take(FAR, 2048),
        // the last doubleword, all of it; one that there isn't; and a mask without what is pending there
        take_many(31, 0xffffffffffffffff),
        take_many(32, 1),
        take_many(0, 0xffffffdfffffffff),
    ]
}

// What the ledger keeps for one identity of one file, and the pending bit that it started from.
#[derive(Clone, Copy, Debug, PartialEq, Eq)]
struct Account {
    file: u64,
    identity: u64,
    pending: u64,
    mark: u64,
    stores: u64,
    merged: u64,
    takes: u64,
}

impl Account {
    fn new(file: u64, identity: u64) -> Self {
        Account {
            file,
            identity,
            pending: 0,
            mark: 0,
            stores: 0,
            merged: 0,
            takes: 0,
        }
    }

    fn is_of(&self, file: u64, identity: u64) -> bool {
        self.file == file && self.identity == identity
    }

    // Whether it is of one of the identities that a doubleword of bits stands for.
    fn is_among(&self, file: u64, doubleword: u64, bits: u64) -> bool {
        self.file == file && self.identity / 64 == doubleword && bit(bits, self.identity) == 1
    }

    // A store: "one to the merged stores if the mark is waiting; then the mark is waiting".
    fn store(&mut self) {
        self.stores = self.stores.saturating_add(1);
        self.merged = self.merged.saturating_add(self.mark);
        self.mark = 1;
    }

    // A successful take: "the mark is no longer waiting".
    fn take(&mut self) {
        self.takes = self.takes.saturating_add(1);
        self.mark = 0;
    }

    // Enters a call by its answer: of a take of many, each answered bit is one successful take of its identity.
    fn enter(&mut self, call: Call, answer: Answer) {
        match (call, answer) {
            (Call::Request { identity, .. }, Answer::Stored(d)) if self.is_of(d.file, identity) => {
                self.store()
            }
            (Call::Take { file, identity }, Answer::Taken(taken))
                if taken != 0 && self.is_of(file, identity) => { self.take() }
            (
                Call::TakeMany {
                    file,
                    doubleword,
                    ..
                },
                Answer::Taken(bits),
            ) if self.is_among(file, doubleword, bits) => { self.take() }
            _ => {}
        }
    }
}

// The bit of an identity in its doubleword.
fn bit(word: u64, identity: u64) -> u64 {
    (word >> (identity % 64)) % 2
}

// The pending bit of an identity, as a report of its file has it.
fn pending(report: Report, identity: u64) -> u64 {
    if identity < 2048 {
        return bit(report.pairs[(identity / 64) as usize].pending, identity);
    }
    0
}

fn sum(numbers: [u64; 3]) -> u64 {
    numbers.iter().fold(0, |sum, n| sum.saturating_add(*n))
}

// The memory of both windows, and the three interrupts that the list speaks of: two of the file in the second window, one of that in the first.
#[derive(Drop)]
struct Machine {
    first: [u8; 12288],
    second: [u8; 4096],
    ledger: [Account; 3],
}

impl Machine {
    fn new() -> Self {
        let far = TableEntry {
            low: 0x14000083,
            high: 0x100000000A000005,
        };
        let near = TableEntry {
            low: 0x10000503,
            high: 0xA000006,
        };
        Machine {
            first: layout::two_entries(far, near),
            second: [0; 4096],
            ledger: [
                Account::new(FAR, 37),
                Account::new(FAR, 2047),
                Account::new(NEAR, 5),
            ],
        }
    }

    fn answer(&mut self, call: Call) -> Answer {
        let starts = layout::starts(SECOND);
        let first = &mut self.first;
        let second = &mut self.second;
        match call {
            Call::Request {
                address,
                length,
                data,
                ..
            } => {
                let request = layout::ask(Access::Write, address, length);
                iommu::request(layout::settings(SECOND), first, second, request, data)
            }
            Call::Take { file, identity } => {
                iommu_files::take(starts, first, second, file, identity)
            }
            Call::TakeMany {
                file,
                doubleword,
                mask,
            } => iommu_files::take_many(starts, first, second, file, doubleword, mask),
        }
    }

    // Makes a call, prints its answer, and enters it in the ledger.
    fn run(&mut self, rt: &impl Print, call: Call) -> io::Result<()> {
        let answer = self.answer(call);
        for account in &mut self.ledger {
            account.enter(call, answer);
        }
        println!(rt; "{call} {}", Shown(answer))
    }

    fn report(&self, file: u64) -> Report {
        iommu_files::report(layout::starts(SECOND), &self.first, &self.second, file)
    }

    // A row: file, identity, pending at the start, stores, successful takes, merged stores, pending at the end.
    fn row(&self, rt: &impl Print, a: Account) -> io::Result<()> {
        let end = pending(self.report(a.file), a.identity);
        println!(rt;
            "ledger {} {} {} {} {} {} {end}",
            a.file, a.identity, a.pending, a.stores, a.takes, a.merged
        )
    }

    // pending at the start + stores, and takes + merged + pending at the end, over the rows: pending are the ones that a report of the file in each window counts, the second window's first.
    fn total(&self, rt: &impl Print) -> io::Result<()> {
        let stores = sum(self.ledger.map(|a| a.stores));
        let takes = sum(self.ledger.map(|a| a.takes));
        let merged = sum(self.ledger.map(|a| a.merged));
        let far = self.report(FAR).count;
        let near = self.report(NEAR).count;
        println!(rt; "sum {stores} = {takes} + {merged} + {far} + {near}")
    }
}

fn main(rt: HostRuntime) -> io::Result<()> {
    let mut machine = Machine::new();
    for call in calls() {
        machine.run(&rt, call)?;
    }
    println!(rt; "ledger file identity pending stores takes merged pending")?;
    for account in machine.ledger {
        machine.row(&rt, account)?;
    }
    machine.total(&rt)
}
