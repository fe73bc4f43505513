// Page-table walks of the first and the second stage.
#![tactic(auto)]

ghost use Rattle.std.specs.Prelude.{◌≡◌, ◌==◌, ◌&&◌, ◌+◌, ◌-◌, ◌*◌, ◌%◌, ◌^◌, ◌<◌, ◌≤◌, true, false, length};
ghost use Rattle.memory.specs.Window.{window_at, memory};
ghost use Rattle.memory.specs.Walk.{run};
ghost use Rattle.paging_scheme.specs.Scheme.{levels_of, signed_of, legal_of, page_bits_of, index_of};
ghost use Rattle.paging_entry.specs.Purpose.{asked_of};
ghost use Rattle.paging_entry.specs.Entry.{faulted as faulted_of};
ghost use Rattle.paging_entry.specs.Code.{test_of, code_of, Tight};
ghost use Rattle.paging.specs.Table.{StageTable};
ghost use Rattle.paging.specs.Levels.{levels as levels_from, walk_of};
ghost use Rattle.paging.specs.Stages.{entry_place, first_stage_of};
ghost use Rattle.paging.specs.Code.{raw_walk, near_walk, Standing, step_at, Small};

use causes::{Access, FaultInfo};
use memory::Windows;
use paging_entry::{LeafTest, Lookup, Pages, Purpose, Raw};
use paging_scheme::Scheme;
use std::marker::Model;
use std::ops::ControlFlow;

// The page table of stage 1 or 2, as iosatp or iohgatp gives it: its root is a page that an entry can name, and the second stage's addresses carry no sign.
#[derive(Clone, Copy)]
pub struct PageTable<const STAGE: u64> {
    pub scheme: Scheme,
    pub root: u64,
}

impl<const STAGE: u64> Model for PageTable<STAGE> {
    ghost Value = { StageTable };

    ghost view = { λ t. record { scheme = t.scheme; root = t.root } };

    ghost inverse = { λ t. record { scheme = t.scheme; root = t.root } };

    ghost invariant = { λ t. (t.root < 2 ^ 44) × (((STAGE == 2) && signed_of t.scheme) ≡ false) };
}

// The first stage's, and the second's.
pub type FirstTable = PageTable<1>;

pub type GuestTable = PageTable<2>;

// Where a walk in one window stands: at its end, as a number, or before an entry that the window doesn't hold: its level, shift and address. An enum of its own: a place where the walk goes on is no error, and none of the two is absent.
#[derive(Clone, Copy, Debug, PartialEq, Eq)]
pub enum Stand {
    End(u64),
    Left(u64, u64, u64),
}

fn faulted(q: Lookup) -> Result<u64, FaultInfo>
    ensures { result ≡ faulted_of q }
{
    let p = q.purpose;
    let x = q.access;
    Err(paging_entry::page_fault(p, x))
}

// Where an entry of a table lies.
fn entry_at(table: u64, i: u64) -> u64
    requires { (table < 2 ^ 44) × (i < 2048) }
    ensures { result ≡ table * 4096 + 8 * i }
{
    table * 4096 + 8 * i
}

// Where the same lies in a window.
fn entry_offset(start: u64, table: u64, i: u64) -> u64
    requires { (table < 2 ^ 44) × (i < 2048) }
    ensures { (result + start) % 2 ^ 64 ≡ table * 4096 + 8 * i }
{
    std::num::wrapping_add_u64(table * 4096, memory::offset(start, 8 * i))
}

// The walk of a table whose entries lie where their addresses say, from an entry of a level on, as far as it stays in one window: one compare a load. The scheme and the level are for the promise alone, and the compiler drops them.
#[tactic(auto, using(crate::proofs::CodeLaws::raw_ways, crate::proofs::StandLaws::stand_ways))]
fn near_walk(
    s: Scheme,
    t: LeafTest,
    a: u64,
    level: u64,
    top: u64,
    place: u64,
    start: u64,
    window: &[u8],
) -> Stand
    requires { (level < 5) × (level < levels_of s) × (top ≡ page_bits_of level) × (start + length window.now ≤ 2 ^ 64) }
    ensures { (result ≡ near_walk s t a (window_at start window.now) level place) × Standing s result }
{
    let mut n = level;
    let mut shift = top;
    let mut d = memory::offset(start, place);
    // No `for` over the levels: the compiler drops the level, and the next place needs the level below, which the last one doesn't have.
    loop {
        match paging_entry::read_entry(t, a, n, shift, memory::load_at(window, d)) {
            Raw::Next(next) => {
                if shift < 21 {
                    return Stand::End(paging_entry::FAULTY);
                }
                n -= 1;
                shift -= 9;
                d = entry_offset(start, next, s.below(a, n, shift));
            }
            Raw::Arrive(p) => {
                return Stand::End(p);
            }
            Raw::Faulty => {
                return Stand::End(paging_entry::FAULTY);
            }
            Raw::Unread => {
                return Stand::Left(n, shift, memory::address(start, d));
            }
        }
    }
}

// The whole of it, from the root's shift and index: where it leaves a window it goes on in the other. Its end is one number, so that it comes back in a register; causes come after it.
fn descend(s: Scheme, t: LeafTest, a: u64, top: u64, index: u64, w: &Windows, root: u64) -> u64
    requires { (root < 2 ^ 44) × (legal_of s a ≡ true) × (top ≡ page_bits_of (levels_of s - 1)) × (index ≡ index_of s a (levels_of s - 1)) × (index < 2048) }
    ensures { (result ≡ code_of (run (memory w.now) (raw_walk s t a root))) × Tight (run (memory w.now) (raw_walk s t a root)) }
{
    let mut n = s.levels() - 1;
    let mut shift = top;
    let mut at = entry_at(root, index);
    let mut order = w.starts;
    let mut near = w.first;
    let mut far = w.second;
    // Each turn is the walk in one window, so nothing is counted here.
    loop {
        match near_walk(s, t, a, n, shift, at, order.first, near) {
            Stand::End(end) => {
                return end;
            }
            Stand::Left(level, low, place) => {
                if !memory::within(order.second, far.len() as u64, place, 8) {
                    return paging_entry::UNREAD;
                }
                n = level;
                shift = low;
                at = place;
                order = memory::turned(order);
                let window = near;
                near = far;
                far = window;
            }
        }
    }
}

// The walk of a guest address. Above its root's shift a legal one has the root's index, of eleven bits, and nothing else. Its callers make the causes: around it and them the compiler would find too much to inline.
#[tactic(auto, using(crate::proofs::CodeLaws::guest_ways))]
pub fn guest_walk(g: GuestTable, t: LeafTest, w: &Windows, a: u64) -> u64
    ensures { (result ≡ code_of (run (memory w.now) (raw_walk g.scheme t a g.root))) × Tight (run (memory w.now) (raw_walk g.scheme t a g.root)) }
{
    let s = g.scheme;
    let top = paging_scheme::root_shift(s.levels());
    let index = a >> top;
    if 2047 < index {
        return paging_entry::FAULTY;
    }
    descend(s, t, a, top, index, w, g.root)
}

// One level of a first-stage table: its entry lies at a guest address. A fault's cause is made where there is one.
#[tactic(auto, using(crate::proofs::CodeLaws::level_ways))]
fn guest_level(
    q: Lookup,
    t: LeafTest,
    g: GuestTable,
    w: &Windows,
    n: u64,
    shift: u64,
    at: u64,
) -> ControlFlow<Result<u64, FaultInfo>, u64>
    requires { (n < 5) × (shift ≡ page_bits_of n) × (t ≡ test_of (asked_of q.purpose q.access) q.pages) }
    ensures { (result ≡ run (memory w.now) (step_at q (entry_place (Some g) q) n at)) × Small result }
{
    let x = q.access;
    let read = paging_entry::leaf_test(Access::Read, Pages::User);
    let place = guest_walk(g, read, w, at);
    if paging_entry::FAULTY <= place {
        return ControlFlow::Break(paging_entry::told(Purpose::FirstStageEntry, x, place));
    }
    let o = q.purpose;
    let v = w.load64(place);
    paging_entry::stepped(o, x, paging_entry::read_entry(t, q.address, n, shift, v))
}

// The walk of first-stage tables under a second stage, from the root's shift and index.
#[tactic(auto, using(crate::proofs::CodeLaws::raw_ways, crate::proofs::CodeLaws::walk_ways))]
fn guest_descend(
    s: Scheme,
    q: Lookup,
    t: LeafTest,
    g: GuestTable,
    top: u64,
    index: u64,
    w: &Windows,
    root: u64,
) -> Result<u64, FaultInfo>
    requires { (root < 2 ^ 44) × (top ≡ page_bits_of (levels_of s - 1)) × (index ≡ index_of s q.address (levels_of s - 1)) × (index < 2048) × (t ≡ test_of (asked_of q.purpose q.access) q.pages) }
    ensures { result ≡ run (memory w.now) (levels_from s q (entry_place (Some g) q) (levels_of s) root) }
{
    let mut n = s.levels() - 1;
    let mut low = top;
    let mut at = entry_at(root, index);
    // No `for` over the levels: the next place needs the level below, which the last one doesn't have.
    loop {
        match guest_level(q, t, g, w, n, low, at) {
            ControlFlow::Break(end) => {
                return end;
            }
            ControlFlow::Continue(next) => {
                if low < 21 {
                    return faulted(q);
                }
                n -= 1;
                low -= 9;
                at = entry_at(next, s.below(q.address, n, low));
            }
        }
    }
}

// The walk of the device's address by tables that lie at guest addresses.
#[tactic(auto, using(crate::proofs::CodeLaws::nested_ways))]
fn nested_walk(f: FirstTable, q: Lookup, g: GuestTable, w: &Windows) -> Result<u64, FaultInfo>
    ensures { result ≡ run (memory w.now) (walk_of f.scheme q (entry_place (Some g) q) f.root) }
{
    let s = f.scheme;
    if !s.legal(q.address) {
        return faulted(q);
    }
    let o = q.purpose;
    let x = q.access;
    let pages = q.pages;
    let t = paging_entry::leaf_test(paging_entry::asked(o, x), pages);
    let levels = s.levels();
    let top = paging_scheme::root_shift(levels);
    let index = s.index(q.address, levels - 1);
    guest_descend(s, q, t, g, top, index, w, f.root)
}

// The walk of the device's address by tables that lie where their addresses say.
#[tactic(auto, using(crate::proofs::CodeLaws::device_ways))]
fn device_walk(f: FirstTable, t: LeafTest, w: &Windows, a: u64) -> u64
    ensures { (result ≡ code_of (run (memory w.now) (raw_walk f.scheme t a f.root))) × Tight (run (memory w.now) (raw_walk f.scheme t a f.root)) }
{
    let s = f.scheme;
    if !s.legal(a) {
        return paging_entry::FAULTY;
    }
    let levels = s.levels();
    let index = s.index(a, levels - 1);
    descend(s, t, a, paging_scheme::root_shift(levels), index, w, f.root)
}

// The device's address, by the first stage.
#[tactic(auto, using(crate::proofs::CodeLaws::first_ways))]
pub fn first_stage(
    first: Option<FirstTable>,
    second: Option<GuestTable>,
    x: Access,
    pages: Pages,
    w: &Windows,
    a: u64,
) -> Result<u64, FaultInfo>
    ensures { result ≡ run (memory w.now) (first_stage_of first second x pages a) }
{
    let Some(f) = first else {
        return Ok(a);
    };
    match second {
        Some(g) => {
            let q = Lookup {
                address: a,
                access: x,
                purpose: Purpose::FirstStage,
                pages,
            };
            nested_walk(f, q, g, w)
        }
        None => {
            let end = device_walk(f, paging_entry::leaf_test(x, pages), w, a);
            paging_entry::told(Purpose::FirstStage, x, end)
        }
    }
}
