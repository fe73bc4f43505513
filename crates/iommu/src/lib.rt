// One request, one answer: the whole path over what is lent.
#![tactic(auto)]

ghost use Rattle.std.specs.Prelude.{◌≡◌, true, ◌+◌, ◌%◌, ◌^◌, ◌≤◌, ◌<◌, length};
ghost use Rattle.memory.specs.Choice.{pick};
ghost use Rattle.memory.specs.Window.{Leaves};
ghost use Rattle.memory.specs.Code.{Walkable};
ghost use Rattle.interrupt_file.specs.File.{is_file, after_store};
ghost use Rattle.iommu_files.specs.Answers.{Answered};
ghost use Rattle.iommu.specs.Request.{reversed as reversed_of, identity_of, storable_as, over_tables, finish as finish_of, stored_by, request_of, after_request};
ghost use Rattle.iommu_refusals.specs.Refusals.{is_lent_file};
ghost use Rattle.refusal.specs.declared.Refusal.TheVariants.{FileOutside, FileOverTables};
ghost use Rattle.iommu.specs.Code.{stored_if};

use iommu_files::Answer;
use iommu_refusals::{DeviceRequest, Settings};
use iommu_translation::{Outcome, Recording};
use memory::{Starts, Windows};
use refusal::Refusal;

// The four bytes of a data value reversed.
fn reversed(value: u32) -> u64
    ensures { result ≡ reversed_of value }
{
    let d = value as u64;
    d % 256 * 16777216 + d / 256 % 256 * 65536 + d / 65536 % 256 * 256 + d / 16777216 % 256
}

// The identity that a message's data value names.
fn identity(q: DeviceRequest, value: u32) -> u64
    ensures { result ≡ identity_of q value }
{
    if q.address % 4096 == 4 {
        return reversed(value);
    }
    value as u64
}

// Whether an access under MRIF mode stores its message.
#[tactic(auto, using(crate::proofs::Requests::storable_ways))]
fn storable(q: DeviceRequest, n: u64) -> bool
    ensures { result ≡ storable_as q n }
{
    let x = q.access;
    if causes::is_write(x) {
        if q.length == 4 {
            let at = q.address % 4096;
            return ((at == 0) | (at == 4)) & (n <= 2047);
        }
        return false;
    }
    false
}

// Makes an identity of a file pending where a window holds the file, and says whether it does.
fn store_in(start: u64, window: &mut [u8], file: u64, n: u64) -> bool
    requires { (n < 2048) × (start % 4096 ≡ 0) × (length window.old % 4096 ≡ 0) × (start + length window.old ≤ 2 ^ 64) }
    ensures answer { result ≡ is_file start (length window.old) file }
    ensures bytes { window.new ≡ pick result (after_store start window.old file n) window.old }
{
    if interrupt_file::is_file(start, window.len() as u64, file) {
        interrupt_file::store(start, window, file, n);
        return true;
    }
    false
}

// The same in whichever window holds it. Both are lent by `&mut` and stand apart, as on the face; a struct over them is still to be tried.
fn store_lent(starts: Starts, first: &mut [u8], second: &mut [u8], file: u64, n: u64) -> bool
    requires { (n < 2048) × Walkable starts (length first.old) (length second.old) }
    ensures answer { result ≡ is_lent_file starts (length first.old) (length second.old) file }
    ensures bytes { Leaves (stored_if result starts first.old second.old file n) first.new second.new }
{
    if store_in(starts.first, first, file, n) {
        return true;
    }
    store_in(starts.second, second, file, n)
}

// Whether a file's page holds the device context or the message entry that lead to it.
fn over_tables(r: Recording) -> bool
    ensures { result ≡ over_tables r }
{
    let page = r.destination.file / 4096 * 4096;
    memory::within(page, 4096, r.context, 64) | memory::within(page, 4096, r.entry, 16)
}

// The refusal of a store over tables, which comes after that of a file in neither window.
fn over_refusal(starts: Starts, n: u64, m: u64, file: u64) -> Refusal
    requires { Walkable starts n m }
    ensures { result ≡ pick (is_lent_file starts n m file) FileOverTables FileOutside }
{
    if iommu_refusals::is_lent_file(starts, n, m, file) {
        return Refusal::FileOverTables;
    }
    Refusal::FileOutside
}

// Records a message in its file, or says why not. Whether it lies over tables is asked first, since it seldom does; 2007 still comes before 2012.
#[tactic(auto, using(crate::proofs::Requests::record_ways))]
fn record_message(
    starts: Starts,
    first: &mut [u8],
    second: &mut [u8],
    q: DeviceRequest,
    value: u32,
    r: Recording,
) -> Answer
    requires { Walkable starts (length first.old) (length second.old) }
    ensures answer { result ≡ finish_of starts (length first.old) (length second.old) q value (Ok (Outcome.Recorded r)) }
    ensures bytes { Leaves (stored_by starts first.old second.old q value result) first.new second.new }
{
    let n = identity(q, value);
    if storable(q, n) {
        let d = r.destination;
        if over_tables(r) {
            let why = over_refusal(starts, first.len() as u64, second.len() as u64, d.file);
            return Answer::Refused(why.number());
        }
        if store_lent(starts, first, second, d.file, n) {
            return Answer::Stored(d);
        }
        return Answer::Refused(Refusal::FileOutside.number());
    }
    Answer::Discarded
}

// One request, one answer.
#[tactic(auto, using(crate::proofs::Requests::request_ways), unfolding(crate::specs::Request::after_request))]
pub fn request(
    s: Settings,
    first: &mut [u8],
    second: &mut [u8],
    q: DeviceRequest,
    value: u32,
) -> Answer
    ensures answer { Answered result (request_of s first.old second.old q value) }
    ensures bytes { Leaves (after_request s first.old second.old q value) first.new second.new }
{
    let starts = s.starts;
    let n = first.len() as u64;
    let m = second.len() as u64;
    if let Err(why) = iommu_refusals::request_refusal(s, n, m, q) {
        return Answer::Refused(why.number());
    }
    let lent = Windows {
        starts,
        first,
        second,
    };
    match iommu_translation::translate(s, q, &lent) {
        Ok(Outcome::Translated(a)) => Answer::Translated(a),
        Ok(Outcome::Redirected(a)) => Answer::Redirected(a),
        Ok(Outcome::Recorded(r)) => record_message(starts, first, second, q, value, r),
        Err(f) => Answer::Fault(f),
    }
}
