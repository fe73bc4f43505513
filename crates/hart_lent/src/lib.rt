// A hart's delivery record, lent and changed in place.
#![tactic(auto)]

ghost use Rattle.std.specs.Prelude.{◌≡◌, ltb};
ghost use Rattle.hart.specs.Hart.{wrote_of, in_domain};
ghost use Rattle.aplic_calls.specs.Direct.{claim_table, claim_hart, topi};
ghost use Rattle.aplic.specs.Domain.{table_of};

use aplic::{Claimed, Domain};
use hart::Hart;
use register::HartRegister;

// A write of one of the record's registers.
pub fn write_in_place(x: &mut Hart, k: HartRegister, v: u32)
    ensures { x.new ≡ wrote_of k v x.old }
{
    *x = x.wrote(k, v);
}

// A claim by a hart whose record is lent; the result has it too.
pub fn claim_in_place(d: Domain, hart: u64, x: &mut Hart) -> Claimed
    ensures { (table_of result.domain ≡ claim_table hart x.old.threshold (table_of d)) × (x.new ≡ claim_hart hart x.old (table_of d)) × (result.answer ≡ in_domain (ltb hart 16) (topi hart x.old.threshold (table_of d))) × (result.hart ≡ x.new) }
{
    let c = d.claim_with(hart, *x);
    *x = c.hart;
    c
}
