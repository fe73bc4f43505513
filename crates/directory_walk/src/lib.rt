// The walk over a directory's non-leaf entries, from its root to where a context lies.
#![tactic(auto)]

ghost use Rattle.std.specs.Prelude.{◌≡◌, false, ◌-◌, ◌*◌, ◌<◌, ◌^◌, length};
ghost use Rattle.memory.specs.Window.{memory};
ghost use Rattle.memory.specs.Walk.{run};
ghost use Rattle.paging.specs.Code.{Within};
ghost use Rattle.directory_entry.specs.Code.{Below};
ghost use Rattle.directory_walk.specs.Pointers.{guest_place, leaf_place};

use causes::{Access, FaultInfo};
use directory_entry::Tree;
use memory::Windows;
use paging::GuestTable;
use paging_entry::{Pages, Purpose};

// Where the entry at an address lies: the second stage says, where it is on. Its test stands here, so that a Bare one costs no call. Inlined, since windows and tables whose address a call takes are kept in memory.
#[inline(always)]
#[tactic(auto, using(crate::proofs::Pointers::place_ways))]
fn place(second: &Option<GuestTable>, x: Access, w: &Windows, a: u64) -> Result<u64, FaultInfo>
    ensures { (result ≡ run (memory w.now) (guest_place second.now x a)) × Within a result }
{
    let Some(g) = second else {
        return Ok(a);
    };
    let t = paging_entry::leaf_test(Access::Read, Pages::User);
    paging_entry::told(Purpose::ProcessEntry, x, paging::guest_walk(*g, t, w, a))
}

// From the root's page to where the context of a device or a process lies, by the second stage g: for the device directory a Bare one.
pub fn leaf_place(
    t: Tree,
    g: &Option<GuestTable>,
    x: Access,
    id: u64,
    levels: u64,
    root: u64,
    w: &Windows,
) -> Result<u64, FaultInfo>
    requires { root < 2 ^ 44 }
    ensures { (result ≡ run (memory w.now) (leaf_place t id (guest_place g.now x) (levels - 1) (root * 4096))) × Below (2 ^ 60) result }
{
    let mut table = root * 4096;
    for n in (1..levels).rev() {
        let at = table + 8 * directory_entry::directory_index(t, id, n);
        let a = place(g, x, w, at)?;
        table = directory_entry::pointer(t, w.load64(a))?;
    }
    let leaf = table + directory_entry::leaf_offset(t, directory_entry::directory_index(t, id, 0));
    place(g, x, w, leaf)
}
