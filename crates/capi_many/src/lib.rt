// A take of many for C and Rust. Each routine tests its own buffer and has its own status, as C asks: no shell over them is plainer.
#![tactic(auto)]

ghost use Rattle.std.specs.Prelude.{◌≡◌};
ghost use Rattle.memory.specs.Window.{lent_at, Leaves};
ghost use Rattle.capi_iommu.specs.Calls.{taken_many, status_of, words_of, left_of};

use memory::Starts;

// A take of many. Status and `out` as for a request.
#[tactic(auto, using(capi_room::proofs::Rooms::room_ways, capi_iommu::proofs::Faces::answer_ways))]
pub fn yasmurekh_take_many(
    first_start: u64,
    first: &mut [u8],
    second_start: u64,
    second: &mut [u8],
    file: u64,
    doubleword: u64,
    mask: u64,
    out: &mut [u64],
) -> u64
    ensures told { result ≡ status_of (taken_many file doubleword mask out.old) }
    ensures answer { out.new ≡ words_of (lent_at first_start first.old second_start second.old) (taken_many file doubleword mask out.old) }
    ensures bytes { Leaves (left_of (lent_at first_start first.old second_start second.old) (taken_many file doubleword mask out.old)) first.new second.new }
{
    if out.len() < 5 {
        return 1;
    }
    let starts = Starts {
        first: first_start,
        second: second_start,
    };
    let a = iommu_files::take_many(starts, first, second, file, doubleword, mask);
    capi_iommu::put_answer(out, a);
    0
}
