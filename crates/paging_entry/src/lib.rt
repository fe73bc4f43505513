// A page-table entry: what it says, and what it leads to.
#![tactic(auto)]

ghost use Rattle.std.specs.Prelude.{◌≡◌, ◌<◌};
ghost use Rattle.causes.specs.Causes.{fault_at};
ghost use Rattle.causes.specs.declared.Stage.TheVariants.{Second};
ghost use Rattle.paging_scheme.specs.Scheme.{page_bits_of};
ghost use Rattle.paging_entry.specs.Purpose.{asked_of, page_fault_of, access_fault_of};
ghost use Rattle.paging_entry.specs.Entry.{pages_for};
ghost use Rattle.paging_entry.specs.Code.{sound_bits, table_bits, access_bits, owner_mask, owner_want, test_of, leaf_bits, raw_load, to_step, told_by, Tight};

use causes::{Access, FaultInfo, Stage};
use std::ops::ControlFlow;

// Why one table is walked; permission, causes and stages go by it.
#[derive(Clone, Copy, Debug, PartialEq, Eq)]
pub enum Purpose {
    // The device's address, by the first stage.
    FirstStage,
    // The guest address that the request leads to, by the second.
    SecondStage,
    // The guest address of a first-stage entry, by the second.
    FirstStageEntry,
    // The guest address of a process-directory entry, by the second.
    ProcessEntry,
}

// The pages that may be used, by their U bit.
#[derive(Clone, Copy, Debug, PartialEq, Eq)]
pub enum Pages {
    // U = 1.
    User,
    // U = 0.
    Supervisor,
    // Either.
    Any,
}

// What is asked of one table.
#[derive(Clone, Copy, Debug, PartialEq, Eq)]
pub struct Lookup {
    pub address: u64,
    pub access: Access,
    pub purpose: Purpose,
    pub pages: Pages,
}

// A page-table entry that maps a page, as the definitions speak of it; the code tests its bits in place.
#[derive(Clone, Copy, Debug, PartialEq, Eq)]
pub struct Leaf {
    pub r: bool,
    pub w: bool,
    pub x: bool,
    pub u: bool,
    pub a: bool,
    pub d: bool,
    pub page: u64,
}

// What a page-table entry says.
#[derive(Clone, Copy, Debug, PartialEq, Eq)]
pub enum Entry {
    Faulty,
    Table(u64),
    Maps(Leaf),
}

// What an entry leads to, before a fault is given its cause: four cases, so no Option or Result.
#[derive(Clone, Copy, Debug, PartialEq, Eq)]
pub enum Raw {
    Arrive(u64),
    Next(u64),
    Faulty,
    Unread,
}

// What a walk asks of a leaf, as numbers: an entry's test then has no branch by access or pages, and no bit is picked out by itself.
#[derive(Clone, Copy, Debug, PartialEq, Eq)]
pub struct LeafTest {
    pub mask: u64,
    pub want: u64,
}

fn sound(e: u64) -> bool
    ensures { result ≡ sound_bits e }
{
    memory::bit(e, 0) & (memory::field(e, 63, 54) == 0)
}

// A non-leaf. Tests joined by `&` become one mask and one compare.
#[tactic(auto, using(crate::proofs::CodeLaws::bit_ways))]
fn is_table(e: u64) -> bool
    ensures { result ≡ table_bits e }
{
    sound(e)
        & !memory::bit(e, 1)
        & !memory::bit(e, 2)
        & !memory::bit(e, 3)
        & !memory::bit(e, 4)
        & !memory::bit(e, 6)
        & !memory::bit(e, 7)
}

// The pages that a request may use in the first stage: SUM opens user pages to a supervisor's reads and writes.
pub fn pages_for(supervisor: bool, sum: bool, x: Access) -> Pages
    ensures { result ≡ pages_for supervisor sum x }
{
    if supervisor {
        if sum & !causes::is_execute(x) {
            return Pages::Any;
        }
        return Pages::Supervisor;
    }
    Pages::User
}

// The bits that an access needs of a leaf: R (2); with it W (4) and D (128), since nothing here marks a page as written; X (8). Here and below a table, a row a case.
fn access_bits(x: Access) -> u64
    ensures { (result ≡ access_bits x) × (result < 256) }
{
    match x {
        Access::Read => 2,
        Access::Write => 134,
        Access::Execute => 8,
    }
}

// U (16) where the pages go by it.
fn owner_mask(pages: Pages) -> u64
    ensures { (result ≡ owner_mask pages) × (result < 256) }
{
    match pages {
        Pages::User | Pages::Supervisor => 16,
        Pages::Any => 0,
    }
}

// U where it must be 1.
fn owner_want(pages: Pages) -> u64
    ensures { (result ≡ owner_want pages) × (result < 256) }
{
    match pages {
        Pages::User => 16,
        Pages::Supervisor | Pages::Any => 0,
    }
}

// The test of a walk's leaves, made once for all levels: V and A (0x41), none of bits 63:54, and what access and pages ask.
pub fn leaf_test(x: Access, pages: Pages) -> LeafTest
    ensures { result ≡ test_of x pages }
{
    let needed = access_bits(x);
    LeafTest {
        mask: 0xffc0_0000_0000_0041 + needed + owner_mask(pages),
        want: 0x41 + needed + owner_want(pages),
    }
}

// A leaf that may be used. W without R faults, also where the access needs neither.
fn is_leaf(e: u64, t: LeafTest) -> bool
    ensures { result ≡ leaf_bits e t }
{
    ((e & t.mask) == t.want) & ((e & 6) != 4)
}

// The access that the page must permit: an implicit access is a read.
pub fn asked(p: Purpose, x: Access) -> Access
    ensures { result ≡ asked_of p x }
{
    match p {
        Purpose::FirstStage | Purpose::SecondStage => x,
        Purpose::FirstStageEntry | Purpose::ProcessEntry => Access::Read,
    }
}

fn guest_fault(cause: u64) -> FaultInfo
    ensures { result ≡ fault_at Second cause }
{
    FaultInfo {
        cause,
        stage: Stage::Second,
    }
}

pub fn page_fault(p: Purpose, x: Access) -> FaultInfo
    ensures { result ≡ page_fault_of p x }
{
    match p {
        Purpose::FirstStage => FaultInfo {
            cause: causes::page_fault(x),
            stage: Stage::First,
        },
        Purpose::SecondStage | Purpose::FirstStageEntry | Purpose::ProcessEntry => {
            guest_fault(causes::guest_page_fault(x))
        }
    }
}

pub fn access_fault(p: Purpose, x: Access) -> FaultInfo
    ensures { result ≡ access_fault_of p x }
{
    match p {
        Purpose::FirstStage => FaultInfo {
            cause: causes::access_fault(x),
            stage: Stage::First,
        },
        Purpose::SecondStage | Purpose::FirstStageEntry => guest_fault(causes::access_fault(x)),
        Purpose::ProcessEntry => FaultInfo {
            cause: 265,
            stage: Stage::ProcessDirectory,
        },
    }
}

// What a loaded entry of level n leads to, by the level's shift.
#[tactic(auto, using(crate::proofs::CodeLaws::entry_ways))]
pub fn read_entry(t: LeafTest, a: u64, n: u64, shift: u64, v: Option<u64>) -> Raw
    requires { (n < 5) × (shift ≡ page_bits_of n) }
    ensures { (result ≡ raw_load t a n v) × Tight result }
{
    let Some(e) = v else {
        return Raw::Unread;
    };
    let page = memory::field(e, 53, 10);
    if is_table(e) {
        return Raw::Next(page);
    }
    if is_leaf(e, t) {
        let size = paging_scheme::power(shift);
        if page * 4096 % size == 0 {
            return Raw::Arrive(page * 4096 + a % size);
        }
        return Raw::Faulty;
    }
    Raw::Faulty
}

// Ends of a walk that no address is. An end is one number, so that it comes back in a register: with an enum short walks ran at two thirds of the rate (D72).
pub const FAULTY: u64 = 0x8000_0000_0000_0000;

pub const UNREAD: u64 = 0x8000_0000_0000_0001;

// The end of a walk, with its cause: the number becomes a Result.
pub fn told(p: Purpose, x: Access, r: u64) -> Result<u64, FaultInfo>
    ensures { result ≡ told_by p x r }
{
    if r < FAULTY {
        return Ok(r);
    }
    if r == FAULTY {
        return Err(page_fault(p, x));
    }
    Err(access_fault(p, x))
}

// A level of a walk, with its cause.
pub fn stepped(p: Purpose, x: Access, r: Raw) -> ControlFlow<Result<u64, FaultInfo>, u64>
    ensures { result ≡ to_step p x r }
{
    match r {
        Raw::Arrive(a) => ControlFlow::Break(Ok(a)),
        Raw::Next(table) => ControlFlow::Continue(table),
        Raw::Faulty => ControlFlow::Break(Err(page_fault(p, x))),
        Raw::Unread => ControlFlow::Break(Err(access_fault(p, x))),
    }
}
