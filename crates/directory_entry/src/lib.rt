// What one entry of either directory says, and the fields that their doublewords share.
#![tactic(auto)]

ghost use Rattle.std.specs.Prelude.{◌≡◌, false, ◌*◌, ◌<◌, ◌^◌};
ghost use Rattle.paging_scheme.specs.Scheme.{signed_of};
ghost use Rattle.directory_entry.specs.declared.Tree.TheVariants.{Process};
ghost use Rattle.directory_entry.specs.Entries.{load_fault, invalid as invalid_of, misconfigured as misconfigured_of, pointer_of, by_level, directory_index, leaf_size, too_wide};
ghost use Rattle.directory_entry.specs.Fields.{root_mode_of, root_page_of, bare_of, scheme_mode, valid_mode, first_scheme, second_scheme, first_table, second_table};
ghost use Rattle.directory_entry.specs.Code.{Below};

use causes::{FaultInfo, Stage};
use paging::{FirstTable, GuestTable, PageTable};
use paging_scheme::Scheme;

// The two directories.
#[derive(Clone, Copy, Debug, PartialEq, Eq)]
pub enum Tree {
    Device,
    Process,
}

// An entry that can't be read.
pub fn load_fault(t: Tree) -> FaultInfo
    ensures { result ≡ load_fault t }
{
    match t {
        Tree::Device => FaultInfo {
            cause: 257,
            stage: Stage::Directory,
        },
        Tree::Process => FaultInfo {
            cause: 265,
            stage: Stage::ProcessDirectory,
        },
    }
}

// An entry with V = 0.
pub fn invalid(t: Tree) -> FaultInfo
    ensures { result ≡ invalid_of t }
{
    match t {
        Tree::Device => FaultInfo {
            cause: 258,
            stage: Stage::Directory,
        },
        Tree::Process => FaultInfo {
            cause: 266,
            stage: Stage::ProcessDirectory,
        },
    }
}

// An entry with reserved bits, or a context that fails a check.
pub fn misconfigured(t: Tree) -> FaultInfo
    ensures { result ≡ misconfigured_of t }
{
    match t {
        Tree::Device => FaultInfo {
            cause: 259,
            stage: Stage::Directory,
        },
        Tree::Process => FaultInfo {
            cause: 267,
            stage: Stage::ProcessDirectory,
        },
    }
}

// A non-leaf entry as it was loaded: the address of the next table.
#[tactic(auto, using(crate::proofs::Entries::pointer_ways))]
pub fn pointer(t: Tree, v: Option<u64>) -> Result<u64, FaultInfo>
    ensures { (result ≡ pointer_of t v) × Below (2 ^ 56) result }
{
    let Some(e) = v else {
        return Err(load_fault(t));
    };
    if !memory::bit(e, 0) {
        return Err(invalid(t));
    }
    if memory::any_set(e, 9, 1) | memory::any_set(e, 63, 54) {
        return Err(misconfigured(t));
    }
    Ok(memory::field(e, 53, 10) * 4096)
}

// The first, the second or the third, by the level.
fn by_level(n: u64, a: u64, b: u64, c: u64) -> u64
    requires { (a < 512) × (b < 512) × (c < 512) }
    ensures { (result ≡ by_level n a b c) × (result < 512) }
{
    match n {
        0 => a,
        1 => b,
        _ => c,
    }
}

// Which entry is a process's: one shift for all above the leaf's, so that a walk keeps the process_id alone.
#[tactic(auto, using(crate::proofs::Entries::process_index_ways))]
fn process_index(id: u64, n: u64) -> u64
    ensures { (result ≡ directory_index Process id n) × (result < 512) }
{
    if n == 0 {
        return memory::field(id, 7, 0);
    }
    let low = if n == 1 { 8 } else { 17 };
    memory::field(memory::field(id, 19, 0), low + 8, low)
}

// Which entry of a table n levels above the leaf's is that of a device or a process.
pub fn directory_index(t: Tree, id: u64, n: u64) -> u64
    ensures { (result ≡ directory_index t id n) × (result < 512) }
{
    match t {
        Tree::Device => by_level(
            n,
            memory::field(id, 5, 0),
            memory::field(id, 14, 6),
            memory::field(id, 23, 15),
        ),
        Tree::Process => process_index(id, n),
    }
}

// How far into its table a context lies.
pub fn leaf_offset(t: Tree, i: u64) -> u64
    requires { i < 512 }
    ensures { (result ≡ leaf_size t * i) × (result < 2 ^ 15) }
{
    match t {
        Tree::Device => 64 * i,
        Tree::Process => 16 * i,
    }
}

// An index above the level count isn't zero.
#[tactic(auto, using(crate::proofs::Entries::wide_ways))]
pub fn too_wide(t: Tree, levels: u64, id: u64) -> bool
    ensures { result ≡ too_wide t levels id }
{
    if 2 < levels {
        return false;
    }
    if directory_index(t, id, 2) != 0 {
        return true;
    }
    (levels <= 1) & (directory_index(t, id, 1) != 0)
}

// Mode and page of iohgatp, fsc and msiptp.
pub fn root_mode(w: u64) -> u64
    ensures { result ≡ root_mode_of w }
{
    w >> 60
}

pub fn root_page(w: u64) -> u64
    ensures { (result ≡ root_page_of w) × (result < 2 ^ 44) }
{
    memory::field(w, 43, 0)
}

pub fn bare(w: u64) -> bool
    ensures { result ≡ bare_of w }
{
    root_mode(w) == 0
}

// A mode that stands for a scheme.
fn scheme_mode(mode: u64) -> bool
    ensures { result ≡ scheme_mode mode }
{
    (8 <= mode) & (mode <= 10)
}

pub fn valid_mode(w: u64) -> bool
    ensures { result ≡ valid_mode w }
{
    bare(w) | scheme_mode(root_mode(w))
}

// The schemes that a mode means; asked of a mode that stands for one.
fn first_scheme(mode: u64) -> Scheme
    ensures { result ≡ first_scheme mode }
{
    match mode {
        10 => Scheme::Sv57,
        9 => Scheme::Sv48,
        _ => Scheme::Sv39,
    }
}

fn second_scheme(guest: u64) -> Scheme
    ensures { (result ≡ second_scheme guest) × (signed_of result ≡ false) }
{
    match guest {
        10 => Scheme::Sv57x4,
        9 => Scheme::Sv48x4,
        _ => Scheme::Sv39x4,
    }
}

// The first stage's table, as fsc gives it; none where it is Bare.
pub fn iosatp(fsc: u64) -> Option<FirstTable>
    ensures { result ≡ first_table fsc }
{
    if bare(fsc) {
        return None;
    }
    Some(PageTable {
        scheme: first_scheme(root_mode(fsc)),
        root: root_page(fsc),
    })
}

// The second stage's, as iohgatp gives it.
pub fn second_table(iohgatp: u64) -> Option<GuestTable>
    ensures { result ≡ second_table iohgatp }
{
    if bare(iohgatp) {
        return None;
    }
    Some(PageTable {
        scheme: second_scheme(root_mode(iohgatp)),
        root: root_page(iohgatp),
    })
}
