// A request and a take.
ghost use Rattle.std.specs.Prelude.{◌≡◌};
ghost use Rattle.memory.specs.Window.{lent_at, Leaves};
ghost use Rattle.capi_iommu.specs.Calls.{requested, taken, status_of, words_of, left_of};

// A request. Status 0: `out` holds kind, three values and stage; status 1: `out` has fewer than five words, and nothing changed.
#[unsafe(no_mangle)]
pub extern "C" fn yasmurekh_request(
    first_start: u64,
    first: &mut [u8],
    second_start: u64,
    second: &mut [u8],
    mode: u64,
    root: u64,
    device: u64,
    process: u64,
    flags: u64,
    access: u64,
    address: u64,
    length: u64,
    value: u32,
    out: &mut [u64],
) -> u64
    ensures told { result ≡ status_of (requested mode root device process flags access address length value out.old) }
    ensures answer { out.new ≡ words_of (lent_at first_start first.old second_start second.old) (requested mode root device process flags access address length value out.old) }
    ensures bytes { Leaves (left_of (lent_at first_start first.old second_start second.old) (requested mode root device process flags access address length value out.old)) first.new second.new }
{
    capi_iommu::yasmurekh_request(
        first_start,
        first,
        second_start,
        second,
        mode,
        root,
        device,
        process,
        flags,
        access,
        address,
        length,
        value,
        out,
    )
}

// A take. Status and `out` as for a request.
#[unsafe(no_mangle)]
pub extern "C" fn yasmurekh_take(
    first_start: u64,
    first: &mut [u8],
    second_start: u64,
    second: &mut [u8],
    file: u64,
    identity: u64,
    out: &mut [u64],
) -> u64
    ensures told { result ≡ status_of (taken file identity out.old) }
    ensures answer { out.new ≡ words_of (lent_at first_start first.old second_start second.old) (taken file identity out.old) }
    ensures bytes { Leaves (left_of (lent_at first_start first.old second_start second.old) (taken file identity out.old)) first.new second.new }
{
    capi_iommu::yasmurekh_take(
        first_start,
        first,
        second_start,
        second,
        file,
        identity,
        out,
    )
}
