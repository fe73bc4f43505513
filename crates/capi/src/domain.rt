// The routines of an APLIC domain.
ghost use Rattle.std.specs.Prelude.{◌≡◌, true, false, not, eqb, drop, set};
ghost use Rattle.register.specs.Register.{idc_of};
ghost use Rattle.word.specs.Word.{digit};
ghost use Rattle.hart.specs.Hart.{hart_refusal};
ghost use Rattle.aplic_calls.specs.Direct.{claimed, claim_value, claims, signalled};
ghost use Rattle.aplic_calls.specs.Calls.{wire_table, wire_refusal, write_table, ignores, read_table, after_read, forward_table, sent_of};
ghost use Rattle.aplic_words.specs.State.{delivery_in, table_in};
ghost use Rattle.capi_room.specs.Room.{status};
ghost use Rattle.capi_aplic.specs.Wired.{domain_status, room_status, under_status, with_sent};

// A wire of a domain takes a level: 0 low, any other number high. Status 0, the refusal's number, or 1: `state` has fewer than 87 words; unless it is 0 nothing changed.
#[unsafe(no_mangle)]
pub extern "C" fn yasmurekh_aplic_wire(state: &mut [u64], source: u64, level: u64) -> u64
    ensures told { result ≡ domain_status state.old (wire_refusal source) }
    ensures table { table_in state.new ≡ under_status result (table_in state.old) (wire_table source (not (eqb level 0)) (table_in state.old)) }
    ensures beyond { drop 87 state.new ≡ drop 87 state.old }
    ensures refused { (result ≡ 0 → ⊥) → state.new ≡ state.old }
{
    capi_aplic::yasmurekh_aplic_wire(state, source, level)
}

// A register of a domain is written. Status 0, or 1 as for a wire.
#[unsafe(no_mangle)]
pub extern "C" fn yasmurekh_aplic_write(state: &mut [u64], offset: u64, value: u32) -> u64
    ensures told { result ≡ domain_status state.old 0 }
    ensures table { table_in state.new ≡ under_status result (table_in state.old) (write_table offset value (table_in state.old)) }
    ensures beyond { drop 87 state.new ≡ drop 87 state.old }
    ensures refused { (result ≡ 0 → ⊥) → state.new ≡ state.old }
    ensures ignored { ignores (delivery_in state.old) offset ≡ true → state.new ≡ state.old }
{
    capi_aplic::yasmurekh_aplic_write(state, offset, value)
}

// A register of a domain is read. Status 0: `out` holds the value; status 1: `state` or `out` is too short, and nothing changed.
#[unsafe(no_mangle)]
pub extern "C" fn yasmurekh_aplic_read(state: &mut [u64], offset: u64, out: &mut [u64]) -> u64
    ensures told { result ≡ domain_status state.old (status 1 out.old) }
    ensures answer { out.new ≡ under_status result out.old (set out.old 0 (read_table offset (table_in state.old))) }
    ensures table { table_in state.new ≡ under_status result (table_in state.old) (after_read offset (table_in state.old)) }
    ensures beyond { drop 87 state.new ≡ drop 87 state.old }
    ensures refused { (result ≡ 0 → ⊥) → state.new ≡ state.old }
    ensures same { claims (delivery_in state.old) (idc_of offset) ≡ false → state.new ≡ state.old }
{
    capi_aplic::yasmurekh_aplic_read(state, offset, out)
}

// A hart claims its top interrupt. Status 0: `out` holds what a read of its claimi tells; status 1 as for a read, then 2014 for a hart number above 15: nothing changed.
#[unsafe(no_mangle)]
pub extern "C" fn yasmurekh_aplic_claim(state: &mut [u64], hart: u64, out: &mut [u64]) -> u64
    ensures told { result ≡ domain_status state.old (room_status 1 out.old (hart_refusal hart)) }
    ensures answer { out.new ≡ under_status result out.old (set out.old 0 (claim_value hart (table_in state.old))) }
    ensures table { table_in state.new ≡ under_status result (table_in state.old) (claimed hart (table_in state.old)) }
    ensures beyond { drop 87 state.new ≡ drop 87 state.old }
    ensures refused { (result ≡ 0 → ⊥) → state.new ≡ state.old }
{
    capi_aplic::yasmurekh_aplic_claim(state, hart, out)
}

// Whether a hart is signalled. Status 0: `out` holds 1 where it is, else 0; the other statuses as for a claim.
#[unsafe(no_mangle)]
pub extern "C" fn yasmurekh_aplic_signal(state: &mut [u64], hart: u64, out: &mut [u64]) -> u64
    ensures told { result ≡ domain_status state.old (room_status 1 out.old (hart_refusal hart)) }
    ensures answer { out.new ≡ under_status result out.old (set out.old 0 (digit (signalled hart (table_in state.old)))) }
    ensures words { state.new ≡ state.old }
{
    capi_aplic::yasmurekh_aplic_signal(state, hart, out)
}

// A source of a domain is forwarded. Status 0: `out` holds 1 and the message's hart index, guest index and identity, or four zeros; status 1 as for a read.
#[unsafe(no_mangle)]
pub extern "C" fn yasmurekh_aplic_forward(state: &mut [u64], out: &mut [u64]) -> u64
    ensures told { result ≡ domain_status state.old (status 4 out.old) }
    ensures answer { out.new ≡ under_status result out.old (with_sent out.old (sent_of (table_in state.old))) }
    ensures table { table_in state.new ≡ under_status result (table_in state.old) (forward_table (table_in state.old)) }
    ensures beyond { drop 87 state.new ≡ drop 87 state.old }
    ensures refused { (result ≡ 0 → ⊥) → state.new ≡ state.old }
    ensures idle { sent_of (table_in state.old) ≡ None → state.new ≡ state.old }
{
    capi_aplic::yasmurekh_aplic_forward(state, out)
}
