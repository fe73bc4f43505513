// A report.
ghost use Rattle.std.specs.Prelude.{◌≡◌};
ghost use Rattle.memory.specs.Window.{lent_at};
ghost use Rattle.capi_room.specs.Room.{status, fitting};
ghost use Rattle.capi_report.specs.Words.{with_report, report_in};

// A report. Status 0: `out` holds the refusal, the count, and 32 pairs of doublewords, pending then enable; status 1: `out` has fewer than 66 words, and nothing changed.
#[unsafe(no_mangle)]
pub extern "C" fn yasmurekh_report<'a>(
    first_start: u64,
    first: &'a [u8],
    second_start: u64,
    second: &'a [u8],
    file: u64,
    out: &mut [u64],
) -> u64
    ensures told { result ≡ status 66 out.old }
    ensures answer { out.new ≡ fitting 66 out.old out.old (with_report out.old (report_in (lent_at first_start first.now second_start second.now) file)) }
{
    capi_report::yasmurekh_report(first_start, first, second_start, second, file, out)
}
