//! The rules on timings, of the base block and of a rated profile.
ghost use Rattle.std.specs.Prelude.{◌≡◌};
ghost use Rattle.rules.specs.Rules.{trc_identity, ordering, supported, cas_latency, clock_multiple, on_ladder, standard_rate};

use crate::table::{
    cas_latency_not_supported, non_integer_cas_latency, non_integer_clock_timing,
    non_standard_data_rate, timing_ordering_violation, trc_identity_mismatch,
};
use crate::{ClockTimingParam, Edition, TimingOrder};
use decoders::timing::{CasLatencies, Picoseconds};
use findings::Finding;

// The ladder of data rates: where it starts, and how far its rates lie apart.
const LADDER_START: u32 = 3200;

const LADDER_STEP: u32 = 400;

// tRC = tRAS + tRP.
pub(crate) fn check_trc_identity(
    trc: Picoseconds,
    tras: Picoseconds,
    trp: Picoseconds,
) -> Option<Finding>
    ensures { result ≡ trc_identity trc.0 tras.0 trp.0 }
{
    let sum = u64::from(tras.0) + u64::from(trp.0);
    (u64::from(trc.0) != sum).then(|| trc_identity_mismatch(trc.0, tras.0, trp.0))
}

/// A required ordering: the first at least the second. Of plain times, of whatever record.
pub fn check_ordering(
    relation: TimingOrder,
    larger: Picoseconds,
    smaller: Picoseconds,
) -> Option<Finding>
    ensures { result ≡ ordering relation larger.0 smaller.0 }
{
    (larger.0 < smaller.0).then(|| timing_ordering_violation(relation, larger.0, smaller.0))
}

// The operating CAS latency tAA / tCK must be whole, and then in the set, where there is one. After a fraction the set is not asked.
pub(crate) fn check_cas_latency(
    taa: Picoseconds,
    tck: Picoseconds,
    set: Option<CasLatencies>,
) -> Option<Finding>
    ensures { result ≡ cas_latency taa.0 tck.0 set }
{
    if tck.0 == 0 {
        return None;
    }
    if taa.0 % tck.0 != 0 {
        return Some(non_integer_cas_latency(taa.0, tck.0));
    }
    check_supported(set, taa.0 / tck.0)
}

// A whole CAS latency must be in the set, where there is one; one that no u16 holds is in none.
fn check_supported(set: Option<CasLatencies>, cas_latency: u32) -> Option<Finding>
    ensures { result ≡ supported set cas_latency }
{
    let set = set?;
    let supported = u16::try_from(cas_latency).is_ok_and(|cas_latency| set.contains(cas_latency));
    (!supported).then(|| cas_latency_not_supported(cas_latency))
}

// tRCD or tRP must be a whole multiple of tCK.
pub(crate) fn check_clock_multiple(
    param: ClockTimingParam,
    value: Picoseconds,
    tck: Picoseconds,
) -> Option<Finding>
    ensures { result ≡ clock_multiple param value.0 tck.0 }
{
    (tck.0 != 0 && value.0 % tck.0 != 0).then(|| non_integer_clock_timing(param, value.0, tck.0))
}

// The data rate must be on the edition's ladder; a rate of 0 is silent.
pub(crate) fn check_standard_rate(data_rate_mt_s: u32, edition: Edition) -> Option<Finding>
    ensures { result ≡ standard_rate edition data_rate_mt_s }
{
    (data_rate_mt_s != 0 && !is_standard(data_rate_mt_s, edition)).then(|| non_standard_data_rate(
        data_rate_mt_s,
    ))
}

// On the ladder: from its start to the edition's end by its step.
#[tactic(auto, unfolding(crate::specs::Rules::on_ladder))]
fn is_standard(rate: u32, edition: Edition) -> bool
    ensures { result ≡ on_ladder edition rate }
{
    LADDER_START <= rate && rate <= edition.top() && rate % LADDER_STEP == 0
}
