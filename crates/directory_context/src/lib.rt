// The contexts of devices and processes, with the checks that 003 makes of them.
#![tactic(auto)]

ghost use Rattle.std.specs.Prelude.{◌≡◌, ◌<◌, ◌^◌};
ghost use Rattle.memory.specs.Choice.{any};
ghost use Rattle.directory_context.specs.Device.{device_misconfigured, messages_of, decoded_of};
ghost use Rattle.directory_context.specs.Process.{process_misconfigured};
ghost use Rattle.directory_context.specs.Code.{control_tests, table_tests, first_tests, second_tests};

use message_recognition::MessageTable;
use paging::GuestTable;

// 01: "The context is 64 bytes in the order tc, iohgatp, ta, fsc, msiptp, mask, pattern, reserved".
#[derive(Clone, Copy, Debug, PartialEq, Eq)]
pub struct DeviceContext {
    pub tc: u64,
    pub iohgatp: u64,
    pub ta: u64,
    pub fsc: u64,
    pub msiptp: u64,
    pub mask: u64,
    pub pattern: u64,
    pub reserved: u64,
}

// What a device context that passes its checks says, and where it lies.
#[derive(Clone, Copy)]
pub struct DecodedContext {
    pub address: u64,
    // iohgatp.
    pub second: Option<GuestTable>,
    // msiptp, with mask and pattern.
    pub messages: Option<MessageTable>,
    // The first stage's table, or with PDTV the process directory.
    pub fsc: u64,
    pub pdtv: bool,
    pub dpe: bool,
}

// 01: "a leaf is 16 bytes, ta .., then fsc".
#[derive(Clone, Copy, Debug, PartialEq, Eq)]
pub struct ProcessContext {
    pub ta: u64,
    pub fsc: u64,
}

// Bits of a guest page number: the mask and the pattern have no more.
const GUEST_PAGE_BITS: u64 = 47;

// Reserved bits of the doublewords that hold control and attributes.
fn control_reserved(c: DeviceContext) -> bool
    ensures { result ≡ any (control_tests c) }
{
    memory::any_set(c.tc, 3, 1)
        | memory::any_set(c.tc, 8, 6)
        | memory::any_set(c.tc, 63, 10)
        | memory::any_set(c.ta, 11, 0)
        | memory::any_set(c.ta, 63, 32)
}

// Reserved bits of the doublewords that hold tables, mask and pattern.
fn table_reserved(c: DeviceContext) -> bool
    ensures { result ≡ any (table_tests c) }
{
    memory::any_set(c.fsc, 59, 44)
        | memory::any_set(c.msiptp, 59, 44)
        | memory::any_set(c.mask, 63, GUEST_PAGE_BITS)
        | memory::any_set(c.pattern, 63, GUEST_PAGE_BITS)
        | memory::nonzero(c.reserved)
}

// fsc has no mode that PDTV allows, or DPE stands without PDTV.
fn first_wrong(c: DeviceContext) -> bool
    ensures { result ≡ any (first_tests c) }
{
    if memory::bit(c.tc, 5) {
        return 3 < directory_entry::root_mode(c.fsc);
    }
    if memory::bit(c.tc, 9) {
        return true;
    }
    !directory_entry::valid_mode(c.fsc)
}

// iohgatp and msiptp have modes that can't be, alone or together, or the root isn't on 16 KiB.
fn second_wrong(c: DeviceContext) -> bool
    ensures { result ≡ any (second_tests c) }
{
    if directory_entry::bare(c.iohgatp) {
        return !directory_entry::bare(c.msiptp);
    }
    !directory_entry::valid_mode(c.iohgatp)
        | (1 < directory_entry::root_mode(c.msiptp))
        | (directory_entry::root_page(c.iohgatp) % 4 != 0)
}

// All checks of 003, in groups of a few tests.
#[tactic(auto, using(crate::proofs::Device::device_tests))]
pub fn device_misconfigured(c: DeviceContext) -> bool
    ensures { result ≡ device_misconfigured c }
{
    control_reserved(c) | table_reserved(c) | first_wrong(c) | second_wrong(c)
}

// The message table; none where msiptp is Off.
fn message_table(c: DeviceContext) -> Option<MessageTable>
    requires { c.mask < 2 ^ 52 }
    ensures { result ≡ messages_of c }
{
    if directory_entry::bare(c.msiptp) {
        return None;
    }
    Some(MessageTable {
        page: directory_entry::root_page(c.msiptp),
        mask: c.mask,
        pattern: c.pattern,
    })
}

// What the context at an address says, once for all that ask.
pub fn decode(address: u64, c: DeviceContext) -> DecodedContext
    requires { c.mask < 2 ^ 52 }
    ensures { result ≡ decoded_of address c }
{
    DecodedContext {
        address,
        second: directory_entry::second_table(c.iohgatp),
        messages: message_table(c),
        fsc: c.fsc,
        pdtv: memory::bit(c.tc, 5),
        dpe: memory::bit(c.tc, 9),
    }
}

#[tactic(auto, using(crate::proofs::Process::process_checks))]
pub fn process_misconfigured(c: ProcessContext) -> bool
    ensures { result ≡ process_misconfigured c }
{
    memory::any_set(c.ta, 11, 3)
        | memory::any_set(c.ta, 63, 32)
        | memory::any_set(c.fsc, 59, 44)
        | !directory_entry::valid_mode(c.fsc)
}
