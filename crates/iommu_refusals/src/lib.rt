// What a request, a take and a report ask, and the checks before any table is read.
#![tactic(auto)]

ghost use Rattle.std.specs.Prelude.{◌≡◌, ◌&&◌, leb, ◌+◌, ◌^◌, ◌<◌};
ghost use Rattle.memory.specs.Code.{Walkable};
ghost use Rattle.iommu_refusals.specs.Refusals.{bad_windows, overlap, is_lent_file, bad_directory, bad_process, absent, bad_length, request_refusal, take_many_refusal, report_refusal};
ghost use Rattle.iommu_refusals.specs.Code.{off_pages, too_large, window_refusal, Whole, Accepted, Takeable, Reportable};

use causes::Access;
use memory::Starts;
use refusal::Refusal;

// Where the two windows start, and the device directory. A window's length is that of its lent bytes.
#[derive(Clone, Copy)]
pub struct Settings {
    pub starts: Starts,
    pub mode: u64,
    pub root: u64,
}

// A device's request. The data value of a 4-byte write stands beside it.
#[derive(Clone, Copy)]
pub struct DeviceRequest {
    pub device: u64,
    pub process: Option<u64>,
    pub supervisor: bool,
    pub access: Access,
    pub address: u64,
    pub length: u64,
}

// 2^56: no window goes beyond it.
const HIGHEST_END: u64 = 72057594037927936;

// 2^57: a start or a length of it is too large, and two below it have a sum that fits.
const ALONE_TOO_LARGE: u64 = 144115188075855872;

// A start or a length that is no multiple of 4,096: all four tests become one.
fn off_pages(starts: Starts, n: u64, m: u64) -> bool
    ensures { result ≡ off_pages starts n m }
{
    (starts.first % 4096 != 0) | (n % 4096 != 0) | (starts.second % 4096 != 0) | (m % 4096 != 0)
}

// A start or a length so large that a sum might not fit: with the tests above one mask.
fn too_large(starts: Starts, n: u64, m: u64) -> bool
    ensures { result ≡ too_large starts n m }
{
    (ALONE_TOO_LARGE <= starts.first)
        | (ALONE_TOO_LARGE <= n)
        | (ALONE_TOO_LARGE <= starts.second)
        | (ALONE_TOO_LARGE <= m)
}

// BadWindows: whole pages, all below 2^56, in either window.
#[tactic(auto, using(crate::proofs::Refusals::window_ways))]
fn bad_windows(starts: Starts, n: u64, m: u64) -> bool
    ensures { result ≡ bad_windows starts n m }
{
    if off_pages(starts, n, m) | too_large(starts, n, m) {
        return true;
    }
    (HIGHEST_END < starts.first + n) | (HIGHEST_END < starts.second + m)
}

// Overlap: each starts before both end; an empty one ends where it starts.
fn overlapping(starts: Starts, n: u64, m: u64) -> bool
    requires { (starts.first + n < 2 ^ 64) × (starts.second + m < 2 ^ 64) }
    ensures { result ≡ overlap starts n m }
{
    let end = starts.first + n;
    let other = starts.second + m;
    (starts.first < end) & (starts.first < other) & (starts.second < end) & (starts.second < other)
}

// What is answered where no check stops a call.
const PASSED: Result<(), Refusal> = Ok(());

// The first check that the windows fail refuses them.
#[tactic(auto, using(crate::proofs::Refusals::windows_checks))]
fn window_refusal(starts: Starts, n: u64, m: u64) -> Result<(), Refusal>
    ensures { (result ≡ window_refusal starts n m) × Whole starts n m result }
{
    if bad_windows(starts, n, m) {
        return Err(Refusal::BadWindows);
    }
    if overlapping(starts, n, m) {
        return Err(Refusal::Overlap);
    }
    Ok(())
}

// Whether an address is that of a file that lies in either window.
pub fn is_lent_file(starts: Starts, n: u64, m: u64, file: u64) -> bool
    requires { Walkable starts n m }
    ensures { result ≡ is_lent_file starts n m file }
{
    if interrupt_file::is_file(starts.first, n, file) {
        return true;
    }
    interrupt_file::is_file(starts.second, m, file)
}

// BadDirectory: a directory mode that there is, and a root page below 2^56.
fn bad_directory(mode: u64, root: u64) -> bool
    ensures { result ≡ bad_directory mode root }
{
    (4 < mode) | (17592186044416 <= root)
}

// BadDevice.
fn bad_device(d: u64) -> bool
    ensures { result ≡ leb (2 ^ 24) d }
{
    16777216 <= d
}

// BadProcess.
fn bad_process(p: Option<u64>) -> bool
    ensures { result ≡ bad_process p }
{
    match p {
        None => false,
        Some(n) => 1048576 <= n,
    }
}

// NoProcess: supervisor without a process_id.
fn unnamed(supervisor: bool, p: Option<u64>) -> bool
    ensures { result ≡ (supervisor && absent p) }
{
    supervisor & p.is_none()
}

// BadLength: nothing to access, or an access that leaves its page.
fn bad_length(address: u64, len: u64) -> bool
    ensures { result ≡ bad_length address len }
{
    if len == 0 {
        return true;
    }
    4096 - address % 4096 < len
}

// The first check that a request fails refuses it.
pub fn request_refusal(s: Settings, n: u64, m: u64, q: DeviceRequest) -> Result<(), Refusal>
    ensures { (result ≡ request_refusal s n m q) × Accepted s n m result }
{
    window_refusal(s.starts, n, m)?;
    if bad_directory(s.mode, s.root) {
        return Err(Refusal::BadDirectory);
    }
    if bad_device(q.device) {
        return Err(Refusal::BadDevice);
    }
    let p = q.process;
    if bad_process(p) {
        return Err(Refusal::BadProcess);
    }
    if unnamed(q.supervisor, p) {
        return Err(Refusal::NoProcess);
    }
    if bad_length(q.address, q.length) {
        return Err(Refusal::BadLength);
    }
    PASSED
}

// The first check that a take of many fails refuses it; that of one fails the same, with the doubleword of its identity.
#[tactic(auto, using(crate::proofs::Refusals::file_checks))]
pub fn take_many_refusal(starts: Starts, n: u64, m: u64, file: u64, d: u64) -> Result<(), Refusal>
    ensures { (result ≡ take_many_refusal starts n m file d) × Takeable starts n m file d result }
{
    window_refusal(starts, n, m)?;
    if !is_lent_file(starts, n, m, file) {
        return Err(Refusal::NoFile);
    }
    if 31 < d {
        return Err(Refusal::BadIdentity);
    }
    PASSED
}

// The first check that a report fails refuses it.
#[tactic(auto, using(crate::proofs::Refusals::file_checks))]
pub fn report_refusal(starts: Starts, n: u64, m: u64, file: u64) -> Result<(), Refusal>
    ensures { (result ≡ report_refusal starts n m file) × Reportable starts n m file result }
{
    window_refusal(starts, n, m)?;
    if !is_lent_file(starts, n, m, file) {
        return Err(Refusal::NoFile);
    }
    PASSED
}
