// Messages to virtual interrupt files: the entries of the message table.
#![tactic(auto)]

ghost use Rattle.std.specs.Prelude.{◌≡◌, ◌*◌, ◌%◌, ◌^◌, ◌<◌, length, eqb};
ghost use Rattle.memory.specs.Window.{memory};
ghost use Rattle.memory.specs.Walk.{run};
ghost use Rattle.message.specs.Table.{alignment, table_fault, permitted as permitted_of, translate_reserved, record_reserved, destination_of, on_translate, on_notice, on_message_entry, message_of};

use causes::{Access, FaultInfo, Stage};
use memory::Windows;
use message_recognition::MessageTable;

// Where an entry in MRIF mode has a message recorded, and the notice that it asks for: a number to be written at an address.
#[derive(Clone, Copy, Debug, PartialEq, Eq)]
pub struct Destination {
    pub file: u64,
    pub notice: u64,
    pub number: u64,
}

// What a message entry says; one in MRIF mode with its own address. Neither case is a failure.
#[derive(Clone, Copy, Debug, PartialEq, Eq)]
pub enum Message {
    Redirect(u64),
    Record(Destination, u64),
}

// Whether a table at a page is aligned for as many files as the mask can number.
fn aligned(page: u64, mask: u64) -> bool
    requires { (page < 2 ^ 44) × (mask < 2 ^ 52) }
    ensures { result ≡ eqb (page * 4096 % alignment mask) 0 }
{
    let size = 16u64 << u64::count_ones(mask);
    if size < 4096 {
        return true;
    }
    page * 4096 % size == 0
}

// A fault of the table: 261 where it can't be read, 262 for an entry that isn't valid, 263 for a misconfigured one, 1 for read-for-execute.
fn table_fault(cause: u64) -> Result<Message, FaultInfo>
    ensures { result ≡ table_fault cause }
{
    Err(FaultInfo {
        cause,
        stage: Stage::MessageTable,
    })
}

// An entry permits reads and writes.
fn permitted(x: Access, m: Message) -> Result<Message, FaultInfo>
    ensures { result ≡ permitted_of x m }
{
    match x {
        Access::Execute => table_fault(1),
        Access::Read | Access::Write => Ok(m),
    }
}

// Bits 9:3 and 62:54.
#[tactic(auto, using(memory::proofs::Tests::tests), unfolding(crate::specs::Table::translate_reserved))]
fn translate_reserved(e: u64) -> bool
    ensures { result ≡ translate_reserved e }
{
    memory::any_set(e, 9, 3) | memory::any_set(e, 62, 54)
}

// Bits 6:3 and 62:54 of the first doubleword, 59:54 and 63:61 of the second.
#[tactic(auto, using(memory::proofs::Tests::or4), unfolding(crate::specs::Table::record_reserved))]
fn record_reserved(e: u64, n: u64) -> bool
    ensures { result ≡ record_reserved e n }
{
    memory::any_set(e, 6, 3)
        | memory::any_set(e, 62, 54)
        | memory::any_set(n, 59, 54)
        | memory::any_set(n, 63, 61)
}

// The file's address in bits 53:7; the notice's page in bits 53:10 and its number in bits 9:0 and, for bit 10, in bit 60.
fn destination_of(e: u64, n: u64) -> Destination
    ensures { result ≡ destination_of e n }
{
    Destination {
        file: memory::field(e, 53, 7) * 512,
        notice: memory::field(n, 53, 10) * 4096,
        number: memory::field(n, 9, 0) + 1024 * memory::field(n, 60, 60),
    }
}

// A redirected message keeps its place in the page.
#[tactic(auto, using(memory::proofs::Choices::flags, crate::proofs::Entries::redirects), unfolding(crate::specs::Table::on_translate))]
fn on_translate(x: Access, a: u64, e: u64) -> Result<Message, FaultInfo>
    ensures { result ≡ on_translate x a e }
{
    if translate_reserved(e) {
        return table_fault(263);
    }
    permitted(
        x,
        Message::Redirect(memory::field(e, 53, 10) * 4096 + a % 4096),
    )
}

// A recorded message, by its entry's address and both doublewords.
#[tactic(auto, using(crate::proofs::Entries::recorded, memory::proofs::Choices::flags), unfolding(crate::specs::Table::on_notice))]
fn on_notice(x: Access, at: u64, e: u64, n: u64) -> Result<Message, FaultInfo>
    ensures { result ≡ on_notice x at e n }
{
    if record_reserved(e, n) {
        return table_fault(263);
    }
    permitted(x, Message::Record(destination_of(e, n), at))
}

// What an entry says; the second doubleword is read in MRIF mode alone.
#[tactic(auto, using(crate::proofs::Entries::entries))]
fn on_message_entry(x: Access, a: u64, w: &Windows, at: u64, e: u64) -> Result<Message, FaultInfo>
    requires { (at < 2 ^ 57) }
    ensures { result ≡ run (memory w.now) (on_message_entry x a at e) }
{
    if !memory::bit(e, 0) {
        return table_fault(262);
    }
    if memory::bit(e, 63) {
        return table_fault(263);
    }
    match memory::field(e, 2, 1) {
        1 => {
            let Some(n) = w.load64(at + 8) else {
                return table_fault(261);
            };
            on_notice(x, at, e, n)
        }
        3 => on_translate(x, a, e),
        _ => table_fault(263),
    }
}

// What the table says of a message to a guest address.
#[tactic(auto, using(crate::proofs::Entries::messages))]
pub fn message_of(t: MessageTable, x: Access, w: &Windows, a: u64) -> Result<Message, FaultInfo>
    ensures { result ≡ run (memory w.now) (message_of t.page t.mask x a) }
{
    if !aligned(t.page, t.mask) {
        return table_fault(263);
    }
    let at = t.page * 4096 + 16 * message_recognition::extract(a / 4096, t.mask);
    let Some(e) = w.load64(at) else {
        return table_fault(261);
    };
    on_message_entry(x, a, w, at, e)
}
