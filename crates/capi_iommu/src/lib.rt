// A request and a take for C and Rust: numbers and lent slices alone. Every input is answered. Each routine tests its own buffer and has its own status, as C asks: no shell over them is plainer.
#![tactic(auto)]

ghost use Rattle.std.specs.Prelude.{◌≡◌, ◌≤◌, length as length_of};
ghost use Rattle.memory.specs.Window.{lent, lent_at, Leaves};
ghost use Rattle.capi_room.specs.Room.{status};
ghost use Rattle.capi_iommu.specs.Face.{stage_of, with_answer, chosen_of, process_of, settings_at, request_face, after_face};
ghost use Rattle.capi_iommu.specs.Calls.{requested, taken, status_of, words_of, left_of};

use causes::Access;
use iommu_files::Answer;
use iommu_refusals::{DeviceRequest, Settings};
use memory::Starts;
use refusal::Refusal;

// The access that a number names.
fn choose(access: u64) -> Option<Access>
    ensures { result ≡ chosen_of access }
{
    match access {
        0 => Some(Access::Read),
        1 => Some(Access::Write),
        2 => Some(Access::Execute),
        _ => None,
    }
}

// Flag 1: a process_id is given.
fn process_of(flags: u64, process: u64) -> Option<u64>
    ensures { result ≡ process_of flags process }
{
    if flags % 2 == 1 {
        return Some(process);
    }
    None
}

// A fault's stage; 0 for any other answer.
fn stage_of(a: Answer) -> u64
    ensures { result ≡ stage_of a }
{
    match a {
        Answer::Fault(f) => causes::stage_number(f.stage),
        _ => 0,
    }
}

// Puts an answer into the first five words of a buffer.
pub fn put_answer(out: &mut [u64], a: Answer)
    requires { 5 ≤ length_of out.old }
    ensures { out.new ≡ with_answer out.old a }
{
    let n = iommu_files::to_numbers(a);
    let stage = stage_of(a);
    out[0] = n.kind;
    out[1] = n.first;
    out[2] = n.second;
    out[3] = n.third;
    out[4] = stage;
}

// Where both windows start, and the directory.
fn settings_at(first: u64, second: u64, mode: u64, root: u64) -> Settings
    ensures { result ≡ settings_at first second mode root }
{
    let starts = Starts { first, second };
    Settings { starts, mode, root }
}

// A request by its numbers, one by one as the C function has them.
#[tactic(auto, using(crate::proofs::Faces::face_ways))]
fn face(
    s: Settings,
    first: &mut [u8],
    second: &mut [u8],
    device: u64,
    process: u64,
    flags: u64,
    access: u64,
    address: u64,
    length: u64,
    value: u32,
) -> Answer
    ensures answer { result ≡ request_face (lent s.starts first.old second.old) s.mode s.root device process flags access address length value }
    ensures bytes { Leaves (after_face (lent s.starts first.old second.old) s.mode s.root device process flags access address length value) first.new second.new }
{
    let Some(x) = choose(access) else {
        return Answer::Refused(Refusal::UnknownNumber.number());
    };
    if 3 < flags {
        return Answer::Refused(Refusal::UnknownNumber.number());
    }
    let request = DeviceRequest {
        device,
        process: process_of(flags, process),
        supervisor: 2 <= flags,
        access: x,
        address,
        length,
    };
    iommu::request(s, first, second, request, value)
}

// A request. Status 0: `out` holds kind, three values and stage; status 1: `out` has fewer than five words, and nothing changed.
pub fn yasmurekh_request(
    first_start: u64,
    first: &mut [u8],
    second_start: u64,
    second: &mut [u8],
    mode: u64,
    root: u64,
    device: u64,
    process: u64,
    flags: u64,
    access: u64,
    address: u64,
    length: u64,
    value: u32,
    out: &mut [u64],
) -> u64
    ensures told { result ≡ status_of (requested mode root device process flags access address length value out.old) }
    ensures answer { out.new ≡ words_of (lent_at first_start first.old second_start second.old) (requested mode root device process flags access address length value out.old) }
    ensures bytes { Leaves (left_of (lent_at first_start first.old second_start second.old) (requested mode root device process flags access address length value out.old)) first.new second.new }
{
    if out.len() < 5 {
        return 1;
    }
    let settings = settings_at(first_start, second_start, mode, root);
    let a = face(
        settings, first, second, device, process, flags, access, address, length, value,
    );
    put_answer(out, a);
    0
}

// A take. Status and `out` as for a request.
#[tactic(auto, using(capi_room::proofs::Rooms::room_ways, crate::proofs::Faces::answer_ways))]
pub fn yasmurekh_take(
    first_start: u64,
    first: &mut [u8],
    second_start: u64,
    second: &mut [u8],
    file: u64,
    identity: u64,
    out: &mut [u64],
) -> u64
    ensures told { result ≡ status_of (taken file identity out.old) }
    ensures answer { out.new ≡ words_of (lent_at first_start first.old second_start second.old) (taken file identity out.old) }
    ensures bytes { Leaves (left_of (lent_at first_start first.old second_start second.old) (taken file identity out.old)) first.new second.new }
{
    if out.len() < 5 {
        return 1;
    }
    let starts = Starts {
        first: first_start,
        second: second_start,
    };
    let a = iommu_files::take(starts, first, second, file, identity);
    put_answer(out, a);
    0
}
