// The device directory: the context of a device.
#![tactic(auto)]

ghost use Rattle.std.specs.Prelude.{◌≡◌, length, ◌-◌, ◌*◌, ◌%◌, ◌<◌, ◌≤◌, ◌^◌};
ghost use Rattle.memory.specs.Window.{doubleword, memory};
ghost use Rattle.memory.specs.Walk.{run};
ghost use Rattle.paging.specs.Stages.{direct};
ghost use Rattle.directory_walk.specs.Pointers.{leaf_place};
ghost use Rattle.directory_device.specs.Device.{checked_device, device_context_at, device_context_of};
ghost use Rattle.directory_device.specs.Code.{Placed};

use causes::FaultInfo;
use directory_context::{DecodedContext, DeviceContext};
use directory_entry::Tree;
use memory::Windows;

// The context in the bytes of its entry, whose first doubleword is known.
fn words_of(bytes: &[u8], tc: u64) -> DeviceContext
    requires { 64 ≤ length bytes.now }
    ensures { result ≡ record { tc = tc; iohgatp = doubleword bytes.now 8; ta = doubleword bytes.now 16; fsc = doubleword bytes.now 24; msiptp = doubleword bytes.now 32; mask = doubleword bytes.now 40; pattern = doubleword bytes.now 48; reserved = doubleword bytes.now 56 } }
{
    DeviceContext {
        tc,
        iohgatp: memory::doubleword_at(bytes, 8),
        ta: memory::doubleword_at(bytes, 16),
        fsc: memory::doubleword_at(bytes, 24),
        msiptp: memory::doubleword_at(bytes, 32),
        mask: memory::doubleword_at(bytes, 40),
        pattern: memory::doubleword_at(bytes, 48),
        reserved: memory::doubleword_at(bytes, 56),
    }
}

// A context that was read at an address, by its checks.
fn checked_device(a: u64, c: DeviceContext) -> Result<DecodedContext, FaultInfo>
    ensures { result ≡ checked_device a c }
{
    if directory_context::device_misconfigured(c) {
        return Err(directory_entry::misconfigured(Tree::Device));
    }
    Ok(directory_context::decode(a, c))
}

// The context at an address: on whole pages it lies in one window or in none.
#[tactic(auto, using(crate::proofs::Device::device_context_ways))]
fn device_context_at(w: &Windows, a: u64) -> Result<DecodedContext, FaultInfo>
    requires { (a % 64 ≡ 0) × (a < 2 ^ 60) }
    ensures { result ≡ run (memory w.now) (device_context_at a) }
{
    let entry = w.entry(a, 64);
    if entry.len() < 64 {
        return Err(directory_entry::load_fault(Tree::Device));
    }
    let tc = memory::doubleword_at(entry, 0);
    if !memory::bit(tc, 0) {
        return Err(directory_entry::invalid(Tree::Device));
    }
    checked_device(a, words_of(entry, tc))
}

// From the root's page to where the context of a device lies. A loop of its own beside the process directory's, which asks the second stage at each step: this one has one caller and is inlined there.
fn device_place(levels: u64, root: u64, d: u64, w: &Windows) -> Result<u64, FaultInfo>
    requires { (root < 2 ^ 44) }
    ensures { (result ≡ run (memory w.now) (leaf_place Tree.Device d direct (levels - 1) (root * 4096))) × Placed result }
{
    let mut table = root * 4096;
    for n in (1..levels).rev() {
        let at = table + 8 * directory_entry::directory_index(Tree::Device, d, n);
        table = directory_entry::pointer(Tree::Device, w.load64(at))?;
    }
    let i = directory_entry::directory_index(Tree::Device, d, 0);
    Ok(table + directory_entry::leaf_offset(Tree::Device, i))
}

// The context of a device, from the directory's root page and number of levels.
#[tactic(auto, using(crate::proofs::Device::device_ways))]
pub fn device_context(
    levels: u64,
    root: u64,
    d: u64,
    w: &Windows,
) -> Result<DecodedContext, FaultInfo>
    requires { (root < 2 ^ 44) }
    ensures { result ≡ run (memory w.now) (device_context_of levels root d) }
{
    let a = device_place(levels, root, d, w)?;
    device_context_at(w, a)
}
