// What the tables say of a request: 003's steps, over what is lent.
#![tactic(auto)]

ghost use Rattle.std.specs.Prelude.{◌≡◌, false, ◌<◌, ◌^◌, length};
ghost use Rattle.memory.specs.Window.{memory};
ghost use Rattle.memory.specs.Walk.{run};
ghost use Rattle.paging.specs.Stages.{second_stage_of};
ghost use Rattle.paging_entry.specs.declared.Purpose.TheVariants.{SecondStage};
ghost use Rattle.paging_entry.specs.Entry.{pages_for};
ghost use Rattle.iommu_translation.specs.Translate.{untranslated as untranslated_of, on_message, message_table, guest_of, stages_of, on_device, directory_of, translate_of};

use causes::{Access, FaultInfo, Stage};
use directory_context::DecodedContext;
use directory_entry::Tree;
use iommu_refusals::{DeviceRequest, Settings};
use memory::Windows;
use message::{Destination, Message};
use message_recognition::MessageTable;
use paging::{FirstTable, GuestTable};
use paging_entry::{Pages, Purpose};

// A message to be recorded: where, and the addresses of the device context and of the message entry that say so.
#[derive(Clone, Copy, Debug, PartialEq, Eq)]
pub struct Recording {
    pub destination: Destination,
    pub context: u64,
    pub entry: u64,
}

// What the tables say of a request, before the store is looked at.
#[derive(Clone, Copy, Debug, PartialEq, Eq)]
pub enum Outcome {
    Translated(u64),
    Redirected(u64),
    Recorded(Recording),
}

// An address that no stage translates.
#[tactic(auto, using(crate::proofs::Translation::untranslated_ways))]
fn untranslated(x: Access, a: u64) -> Result<Outcome, FaultInfo>
    ensures { result ≡ untranslated_of x a }
{
    if a < 72057594037927936 {
        return Ok(Outcome::Translated(a));
    }
    Err(FaultInfo {
        cause: causes::access_fault(x),
        stage: Stage::Directory,
    })
}

// What a message entry says, with the address of the device context that led to it.
fn on_message(context: u64, m: Message) -> Outcome
    ensures { Ok result ≡ on_message context (Ok m) }
{
    match m {
        Message::Redirect(a) => Outcome::Redirected(a),
        Message::Record(destination, entry) => Outcome::Recorded(Recording {
            destination,
            context,
            entry,
        }),
    }
}

// The message table, where a guest address is one of its messages.
#[tactic(auto, using(crate::proofs::Translation::message_ways), unfolding(crate::specs::Translate::message_table))]
fn message_table(c: &DecodedContext, a: u64) -> Option<MessageTable>
    ensures { result ≡ message_table c.now.messages a }
{
    let Some(t) = c.messages else {
        return None;
    };
    if message_recognition::recognised(t.mask, t.pattern, a) {
        return Some(t);
    }
    None
}

// A guest address by the second stage: that which the request leads to.
#[tactic(auto, using(crate::proofs::Translation::second_ways))]
fn second_stage(
    second: Option<GuestTable>,
    x: Access,
    w: &Windows,
    a: u64,
) -> Result<u64, FaultInfo>
    ensures { result ≡ run (memory w.now) (second_stage_of second SecondStage x a) }
{
    let Some(g) = second else {
        return Ok(a);
    };
    let t = paging_entry::leaf_test(x, Pages::User);
    paging_entry::told(Purpose::SecondStage, x, paging::guest_walk(g, t, w, a))
}

// The guest address after the first stage: a message, or the second stage's.
fn guest(c: &DecodedContext, q: DeviceRequest, w: &Windows, a: u64) -> Result<Outcome, FaultInfo>
    ensures { result ≡ run (memory w.now) (guest_of c.now q.access a) }
{
    let x = q.access;
    if let Some(t) = message_table(c, a) {
        let m = message::message_of(t, x, w, a)?;
        return Ok(on_message(c.address, m));
    }
    let second = c.second;
    let place = second_stage(second, x, w, a)?;
    Ok(Outcome::Translated(place))
}

// The first-stage pages that a request may use, with SUM.
fn pages_of(q: DeviceRequest, sum: bool) -> Pages
    ensures { result ≡ pages_for q.supervisor sum q.access }
{
    let x = q.access;
    paging_entry::pages_for(q.supervisor, sum, x)
}

// Both stages, with the first stage's table and SUM.
fn stages(
    c: &DecodedContext,
    q: DeviceRequest,
    first: Option<FirstTable>,
    sum: bool,
    w: &Windows,
) -> Result<Outcome, FaultInfo>
    ensures { result ≡ run (memory w.now) (stages_of c.now q first sum) }
{
    let x = q.access;
    if first.is_none() & c.second.is_none() {
        return untranslated(x, q.address);
    }
    let pages = pages_of(q, sum);
    let a = paging::first_stage(first, c.second, x, pages, w, q.address)?;
    guest(c, q, w, a)
}

// Steps 7 to 20, with the device context.
#[tactic(auto, using(crate::proofs::Translation::info_ways))]
fn with_context(c: &DecodedContext, q: DeviceRequest, w: &Windows) -> Result<Outcome, FaultInfo>
    ensures { result ≡ run (memory w.now) (on_device q (Ok c.now)) }
{
    let p = directory_process::first_table(c, q.process, q.supervisor, q.access, w)?;
    let first: Option<FirstTable> = p.table;
    stages(c, q, first, p.sum, w)
}

// Steps 5 to 20, with a directory.
fn in_directory(s: Settings, q: DeviceRequest, w: &Windows) -> Result<Outcome, FaultInfo>
    requires { (1 < s.mode) × (s.mode < 5) × (s.root < 2 ^ 44) }
    ensures { result ≡ run (memory w.now) (directory_of s q) }
{
    let levels = s.mode - 1;
    if directory_entry::too_wide(Tree::Device, levels, q.device) {
        return Err(causes::disallowed());
    }
    // A match: this Rattle has no proof of `?` on a context, which holds structs with models in options.
    match directory_device::device_context(levels, s.root, q.device, w) {
        Ok(c) => with_context(&c, q, w),
        Err(f) => Err(f),
    }
}

// The same windows, that which holds an address first.
fn ordered<'a>(w: &Windows<'a>, a: u64) -> Windows<'a>
    ensures { memory result ≡ memory w.now }
{
    if memory::within(w.starts.second, w.second.len() as u64, a, 1) {
        return Windows {
            starts: memory::turned(w.starts),
            first: w.second,
            second: w.first,
        };
    }
    Windows {
        starts: w.starts,
        first: w.first,
        second: w.second,
    }
}

// What the tables say of a request. Walks begin in the window that holds the directory's root.
#[tactic(auto, using(crate::proofs::Translation::mode_ways))]
pub fn translate(s: Settings, q: DeviceRequest, w: &Windows) -> Result<Outcome, FaultInfo>
    requires { (s.mode < 5) × (s.root < 2 ^ 44) }
    ensures { result ≡ run (memory w.now) (translate_of s q) }
{
    if s.mode == 0 {
        return Err(FaultInfo {
            cause: 256,
            stage: Stage::Directory,
        });
    }
    if s.mode == 1 {
        return untranslated(q.access, q.address);
    }
    in_directory(s, q, &ordered(w, s.root * 4096))
}
