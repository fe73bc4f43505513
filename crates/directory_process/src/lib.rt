// The process directory, and the first stage that a device's and a process's contexts give a request.
#![tactic(auto)]

ghost use Rattle.std.specs.Prelude.{◌≡◌, length, ◌<◌, ◌^◌};
ghost use Rattle.memory.specs.Window.{memory};
ghost use Rattle.memory.specs.Walk.{run};
ghost use Rattle.directory_process.specs.Process.{checked_process, process_context_at, process_table, process_too_wide, first_table_of};
ghost use Rattle.directory_process.specs.Code.{wanted_of};

use causes::{Access, FaultInfo};
use directory_context::{DecodedContext, ProcessContext};
use directory_entry::Tree;
use memory::Windows;
use paging::FirstTable;

// 003, steps 7 to 16: the first stage's table, and SUM.
#[derive(Clone, Copy)]
pub struct FirstStage {
    pub table: Option<FirstTable>,
    pub sum: bool,
}

// A context that was read, by its checks and its ENS: the first stage that it gives.
fn checked_process(supervisor: bool, c: ProcessContext) -> Result<FirstStage, FaultInfo>
    ensures { result ≡ checked_process supervisor c }
{
    if directory_context::process_misconfigured(c) {
        return Err(directory_entry::misconfigured(Tree::Process));
    }
    if supervisor & !memory::bit(c.ta, 1) {
        return Err(causes::disallowed());
    }
    Ok(FirstStage {
        table: directory_entry::iosatp(c.fsc),
        sum: memory::bit(c.ta, 2),
    })
}

// The context at an address.
fn process_context_at(supervisor: bool, w: &Windows, a: u64) -> Result<FirstStage, FaultInfo>
    requires { (a < 2 ^ 60) }
    ensures { result ≡ run (memory w.now) (process_context_at supervisor a) }
{
    let Some(ta) = w.load64(a) else {
        return Err(directory_entry::load_fault(Tree::Process));
    };
    if !memory::bit(ta, 0) {
        return Err(directory_entry::invalid(Tree::Process));
    }
    let Some(fsc) = w.load64(a + 8) else {
        return Err(directory_entry::load_fault(Tree::Process));
    };
    checked_process(supervisor, ProcessContext { ta, fsc })
}

// The first stage of a process.
#[tactic(auto, using(crate::proofs::Process::table_ways))]
fn process_table(
    c: &DecodedContext,
    supervisor: bool,
    x: Access,
    p: u64,
    w: &Windows,
) -> Result<FirstStage, FaultInfo>
    ensures { result ≡ run (memory w.now) (process_table c.now supervisor x p) }
{
    if directory_entry::bare(c.fsc) {
        return Ok(FirstStage {
            table: None,
            sum: false,
        });
    }
    let a = directory_walk::leaf_place(
        Tree::Process,
        &c.second,
        x,
        p,
        directory_entry::root_mode(c.fsc),
        directory_entry::root_page(c.fsc),
        w,
    )?;
    process_context_at(supervisor, w, a)
}

// A process_id wider than the process directory's mode allows.
fn process_too_wide(fsc: u64, p: u64) -> bool
    ensures { result ≡ process_too_wide fsc p }
{
    !directory_entry::bare(fsc)
        & directory_entry::too_wide(Tree::Process, directory_entry::root_mode(fsc), p)
}

// The process to look for in a process directory: under DPE it is 0 where none is given.
fn wanted(dpe: bool, process: Option<u64>) -> Option<u64>
    ensures { result ≡ wanted_of dpe process }
{
    if dpe {
        return Some(process.unwrap_or(0));
    }
    process
}

// The first stage's table for a request, and SUM. One call of `process_table`, so that it is inlined here.
#[tactic(auto, using(crate::proofs::Process::first_table_ways))]
pub fn first_table(
    c: &DecodedContext,
    process: Option<u64>,
    supervisor: bool,
    x: Access,
    w: &Windows,
) -> Result<FirstStage, FaultInfo>
    ensures { result ≡ run (memory w.now) (first_table_of c.now process supervisor x) }
{
    if !c.pdtv {
        return match process {
            Some(_) => Err(causes::disallowed()),
            None => Ok(FirstStage {
                table: directory_entry::iosatp(c.fsc),
                sum: false,
            }),
        };
    }
    let Some(p) = wanted(c.dpe, process) else {
        return Ok(FirstStage {
            table: None,
            sum: false,
        });
    };
    if process_too_wide(c.fsc, p) {
        return Err(causes::disallowed());
    }
    process_table(c, supervisor, x, p, w)
}
