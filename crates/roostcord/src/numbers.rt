//! Records as numbers, in the order that station/roostcord.h gives, over the front of a list that C lends.
ghost use Rattle.std.specs.Prelude.{◌≡◌, ℕ, ◌+◌, ◌*◌, ◌≤◌, ◌++◌, [], ◌∷◌, List, IfOk, length, take};
ghost use Rattle.reading.specs.Lent.{laid};
ghost use Rattle.findings.specs.Hold.{to_list};
ghost use Rattle.roostcord.specs.Numbers.{identity_numbers, timing_numbers, clock_numbers, manufacturing_numbers, finding_numbers, ddr4_numbers, numbers_in, timings_list, listed_in, list_after};
ghost use Rattle.roostcord.specs.Parts.{first_timing_numbers};

use ddr4::Ddr4;
use decoders::clocks::ClockTable;
use decoders::identity::IdentityAndBase;
use decoders::timing::Timings;
use findings::Finding;
use manufacturing::Manufacturing;
use reading::Refusal;

// How many numbers a finding is, and how many the timings are.
pub(crate) const FINDING_NUMBERS: usize = 6;

const TIMING_NUMBERS: usize = 30;

// The `N` numbers as which C sees a record, or all of them but the last.
pub(crate) trait Record<const N: usize> {
    ghost numbers_of: { Self → List ℕ };

    fn numbers(&self) -> [u32; N]
        ensures { result ≡ numbers_of self.now };
}

impl Record<18> for IdentityAndBase {
    ghost numbers_of = { identity_numbers };

    #[inline(always)]
    fn numbers(&self) -> [u32; 18] {
        [
            self.spd_bytes_total.into(),
            self.spd_revision.major.into(),
            self.spd_revision.minor.into(),
            self.device_type.code().into(),
            self.module_type.code().into(),
            self.hybrid.into(),
            self.density_per_die.gigabits().into(),
            self.package_type.code().into(),
            self.die_count.into(),
            self.row_address_bits.into(),
            self.column_address_bits.into(),
            self.io_width.bits().into(),
            self.bank_groups.count().into(),
            self.banks_per_bank_group.count().into(),
            self.package_ranks_per_channel.into(),
            self.rank_mix_asymmetric.into(),
            self.channels_per_dimm.into(),
            self.primary_bus_width_bits.into(),
        ]
    }
}

// All but the data rate, which `put_timings` lays behind them.
// Kept: `as`, since each half of the mask is proved to fit.
impl Record<29> for Timings {
    ghost numbers_of = { first_timing_numbers };

    #[inline(always)]
    #[tactic(auto, unfolding(crate::specs::Parts::first_timing_numbers))]
    fn numbers(&self) -> [u32; 29] {
        let mask = self.supported_cas_latencies.0;
        [
            self.tckavg_min.0,
            self.tckavg_max.0,
            (mask % 4294967296) as u32,
            (mask / 4294967296 % 256) as u32,
            self.taa.0,
            self.trcd.0,
            self.trp.0,
            self.tras.0,
            self.trc.0,
            self.twr.0,
            self.trfc1.0,
            self.trfc2.0,
            self.trfcsb.0,
            self.trrd_l.time.0,
            self.trrd_l.clocks.0.into(),
            self.tccd_l.time.0,
            self.tccd_l.clocks.0.into(),
            self.tccd_l_wr.time.0,
            self.tccd_l_wr.clocks.0.into(),
            self.tccd_l_wr2.time.0,
            self.tccd_l_wr2.clocks.0.into(),
            self.tfaw.time.0,
            self.tfaw.clocks.0.into(),
            self.twtr_l.time.0,
            self.twtr_l.clocks.0.into(),
            self.twtr_s.time.0,
            self.twtr_s.clocks.0.into(),
            self.trtp.time.0,
            self.trtp.clocks.0.into(),
        ]
    }
}

impl Record<9> for ClockTable {
    ghost numbers_of = { clock_numbers };

    #[inline(always)]
    fn numbers(&self) -> [u32; 9] {
        [
            self.taa,
            self.trcd,
            self.trp,
            self.tras,
            self.trc,
            self.twr,
            self.trfc1,
            self.trfc2,
            self.trfcsb,
        ]
    }
}

// A manufacturing block, and how many bytes its part number has.
#[derive(Clone, Copy)]
pub(crate) struct Labelled {
    pub(crate) block: Manufacturing,
    pub(crate) part_len: u32,
}

impl Record<11> for Labelled {
    ghost numbers_of = { λ labelled. manufacturing_numbers labelled.block labelled.part_len };

    #[inline(always)]
    fn numbers(&self) -> [u32; 11] {
        let m = &self.block;
        [
            m.module_manufacturer.bank.into(),
            m.module_manufacturer.code.into(),
            m.manufacturing_location.into(),
            m.manufacturing_date.year.into(),
            m.manufacturing_date.week.into(),
            m.serial_number.0,
            m.revision_code.into(),
            m.dram_manufacturer.bank.into(),
            m.dram_manufacturer.code.into(),
            m.dram_stepping.into(),
            self.part_len,
        ]
    }
}

impl Record<9> for Ddr4 {
    ghost numbers_of = { ddr4_numbers };

    #[inline(always)]
    fn numbers(&self) -> [u32; 9] {
        [
            self.megabits,
            self.io_width_bits.into(),
            self.bus_width_bits.into(),
            self.tck,
            self.taa,
            self.trcd,
            self.trp,
            self.tras,
            self.trc,
        ]
    }
}

impl Record<FINDING_NUMBERS> for Finding {
    ghost numbers_of = { λ finding. finding_numbers (finding ∷ []) };

    #[inline(always)]
    fn numbers(&self) -> [u32; FINDING_NUMBERS] {
        [
            self.code.into(),
            self.severity.number().into(),
            self.sub.into(),
            self.first,
            self.second,
            self.third,
        ]
    }
}

// The numbers of a record that was decoded, over the front of a list that has room for them: how many. Refusal 4 comes before the decoder's.
#[inline(always)]
#[tactic(auto, unfolding(crate::specs::Numbers::listed_in, crate::specs::Numbers::list_after))]
pub(crate) fn put<const N: usize, R: Record<N> + Drop>(
    answer: Result<R, Refusal>,
    out: &mut [u32],
) -> Result<usize, Refusal>
    ensures answer { result ≡ listed_in N (numbers_in R.numbers_of answer) (length out.old) }
    ensures later { out.new ≡ list_after N (numbers_in R.numbers_of answer) out.old }
    ensures count { IfOk result (λ n. n ≡ N) }
{
    if out.len() < N {
        return Err(Refusal::ListTooShort);
    }
    let record = answer?;
    lay(&record, out);
    Ok(N)
}

// A record's numbers over the front of a list that has room for them.
#[inline(always)]
fn lay<const N: usize, R: Record<N>>(decoded: &R, out: &mut [u32])
    requires { N ≤ length out.old }
    ensures front { out.new ≡ laid (R.numbers_of decoded.now) out.old }
    ensures many { length (R.numbers_of decoded.now) ≡ N }
{
    let numbers = decoded.numbers();
    out[..N].copy_from_slice(&numbers);
}

// The numbers of an image's timings likewise.
// Kept: beside `put`: room is asked before the image is read, and the rate, which branches, comes behind the others, so that no number waits for either.
#[inline(always)]
#[tactic(auto, using(crate::proofs::Rate::rate_laid), unfolding(crate::specs::Numbers::listed_in, crate::specs::Numbers::list_after, crate::specs::Numbers::timings_list))]
pub(crate) fn put_timings(image: &[u8], out: &mut [u32]) -> Result<usize, Refusal>
    ensures answer { result ≡ listed_in 30 (timings_list image.now) (length out.old) }
    ensures later { out.new ≡ list_after 30 (timings_list image.now) out.old }
    ensures count { IfOk result (λ n. n ≡ 30) }
{
    if out.len() < TIMING_NUMBERS {
        return Err(Refusal::ListTooShort);
    }
    let timings = decoders::timing::decode_timings(image)?;
    lay(&timings, out);
    out[TIMING_NUMBERS - 1] = timings.base_data_rate_mt_s();
    Ok(TIMING_NUMBERS)
}

// The numbers of findings, one behind the other, behind the first `from` of a list that has room for them.
// Kept: places are reckoned from the count of findings, since std says nothing of what a slice ends as behind chunks_exact_mut.
pub(crate) fn put_findings(findings: &[Finding], from: usize, out: &mut [u32])
    requires { from + 6 * length findings.now ≤ length out.old }
    ensures { out.new ≡ laid (take from out.old ++ finding_numbers findings.now) out.old }
{
    for (i, finding) in findings.iter().enumerate() {
        let at = from + FINDING_NUMBERS * i;
        out[at..at + FINDING_NUMBERS].copy_from_slice(&finding.numbers());
    }
}

// Those of what a rule found, if it found something, behind the first `from`: how many there are then.
// Kept: beside `put_findings`, which wants a list: by `ddr4rules::lint_ddr4_image` and its list a lint of a DDR4 image took 198 instructions, so 120.
pub(crate) fn put_found(found: Option<Finding>, from: usize, out: &mut [u32]) -> usize
    requires { from + 6 ≤ length out.old }
    ensures count { result ≡ from + length (finding_numbers (to_list found)) }
    ensures later { out.new ≡ laid (take from out.old ++ finding_numbers (to_list found)) out.old }
{
    let Some(finding) = found else {
        return from;
    };
    out[from..from + FINDING_NUMBERS].copy_from_slice(&finding.numbers());
    from + FINDING_NUMBERS
}
