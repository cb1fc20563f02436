//! The clock table: nine times of a timing record as whole counts of the minimum clock cycle.
ghost use Rattle.std.specs.Prelude.{◌≡◌, ◌<◌};
ghost use Rattle.decoders.specs.Clocks.{clocks_of, clock_table_of};

use crate::timing::{Picoseconds, Timings};
use reading::Refusal;

/// Counts of clock cycles, under the names of the times.
#[derive(Clone, Copy, Debug, PartialEq, Eq)]
pub struct ClockTable {
    pub taa: u32,
    pub trcd: u32,
    pub trp: u32,
    pub tras: u32,
    pub trc: u32,
    pub twr: u32,
    pub trfc1: u32,
    pub trfc2: u32,
    pub trfcsb: u32,
}

/// For each of the nine times its count of clock cycles.
#[tactic(auto, unfolding(crate::specs::Clocks::clock_table_of))]
pub fn clock_table(timings: Timings) -> Result<ClockTable, Refusal>
    ensures { result ≡ clock_table_of «timings» }
{
    let tck = timings.tckavg_min.0;
    if tck == 0 {
        return Err(Refusal::ZeroClock);
    }
    Ok(ClockTable {
        taa: cycles(timings.taa, tck),
        trcd: cycles(timings.trcd, tck),
        trp: cycles(timings.trp, tck),
        tras: cycles(timings.tras, tck),
        trc: cycles(timings.trc, tck),
        twr: cycles(timings.twr, tck),
        trfc1: cycles(timings.trfc1, tck),
        trfc2: cycles(timings.trfc2, tck),
        trfcsb: cycles(timings.trfcsb, tck),
    })
}

// A time in clocks, as JEDEC rounds it: two divisions, here as one. The products need more than 32 bits, the count does not.
// Kept: `as`, since that is proved, and `try_from` would add an error that cannot be.
#[tactic(auto, using(crate::proofs::Least::at_once))]
fn cycles(time: Picoseconds, tck: u32) -> u32
    requires { 0 < tck }
    ensures { result ≡ clocks_of tck time.0 }
{
    (u64::from(time.0) * 997 / (u64::from(tck) * 1000) + 1) as u32
}
