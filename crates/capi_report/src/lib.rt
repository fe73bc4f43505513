// The report for C and Rust: a file in either lent window, read into the words of a lent buffer. Each routine tests its own buffer and has its own status, as C asks: no shell over them is plainer.
#![tactic(auto)]

ghost use Rattle.std.specs.Prelude.{◌≡◌, ◌≤◌, ◌<◌, length as length_of};
ghost use Rattle.memory.specs.Window.{lent, lent_at};
ghost use Rattle.iommu_refusals.specs.Code.{Reportable};
ghost use Rattle.capi_room.specs.Room.{status, fitting};
ghost use Rattle.capi_report.specs.Words.{with_pairs, with_report, report_in};
ghost use Rattle.capi_report.specs.Code.{number_told, file_bytes, word_in, pair_in, pending_ones};

use memory::{Starts, Windows};
use refusal::Refusal;

// The number of a refusal, and 0 for none.
fn number_told(checked: Result<(), Refusal>) -> u64
    ensures { result ≡ number_told checked }
{
    match checked {
        Ok(()) => 0,
        Err(why) => why.number(),
    }
}

// The bytes of a file, as a part of whichever window holds it; none where a report is refused.
fn file_bytes<'a>(
    starts: Starts,
    first: &'a [u8],
    second: &'a [u8],
    file: u64,
    checked: Result<(), Refusal>,
) -> &'a [u8]
    requires { Reportable starts (length_of first.now) (length_of second.now) file checked }
    ensures { result.now ≡ file_bytes (lent starts first.now second.now) file checked }
{
    match checked {
        Ok(()) => {
            let lent = Windows {
                starts,
                first,
                second,
            };
            lent.entry(file, 512)
        }
        Err(_) => &first[0..0],
    }
}

// The doubleword at an index, or 0 where it isn't whole in the bytes.
fn word_in(bytes: &[u8], i: usize) -> u64
    requires { i < 1024 }
    ensures { result ≡ word_in bytes.now i }
{
    if bytes.len() < i + 8 {
        return 0;
    }
    memory::doubleword_at(bytes, i)
}

// Puts the pairs of a file's bytes into the words of a buffer from the third on, and gives the ones of their pending doublewords. One loop for a file and for a refusal: a loop of zeros alone would become a call of memset.
fn put_pairs(bytes: &[u8], out: &mut [u64]) -> u64
    requires { 66 ≤ length_of out.old }
    ensures count { result ≡ pending_ones (pair_in bytes.now) 32 }
    ensures words { out.new ≡ with_pairs out.old (pair_in bytes.now) 32 }
{
    let mut count: u64 = 0;
    for k in 0..32 {
        let pending = word_in(bytes, 16 * k);
        let enable = word_in(bytes, 16 * k + 8);
        out[2 + 2 * k] = pending;
        out[3 + 2 * k] = enable;
        count += interrupt_file::ones(pending);
    }
    count
}

// A report. Status 0: `out` holds the refusal, the count, and 32 pairs of doublewords, pending then enable; status 1: `out` has fewer than 66 words, and nothing changed.
pub fn yasmurekh_report<'a>(
    first_start: u64,
    first: &'a [u8],
    second_start: u64,
    second: &'a [u8],
    file: u64,
    out: &mut [u64],
) -> u64
    ensures told { result ≡ status 66 out.old }
    ensures answer { out.new ≡ fitting 66 out.old out.old (with_report out.old (report_in (lent_at first_start first.now second_start second.now) file)) }
{
    if out.len() < 66 {
        return 1;
    }
    let starts = Starts {
        first: first_start,
        second: second_start,
    };
    let n = first.len() as u64;
    let m = second.len() as u64;
    let checked = iommu_refusals::report_refusal(starts, n, m, file);
    out[0] = number_told(checked);
    let count = put_pairs(file_bytes(starts, first, second, file, checked), out);
    out[1] = count;
    0
}
