//! The rules and the linter. A rule answers one finding or none; the findings of an image come in document 01's order.
//! The linter hands them out as a list that is lent from rule to rule, as records by value, as numbers in two lent lists, or as records in a
//! lent list.
#![tactic(auto)]

ghost use Rattle.std.specs.Prelude.{◌≡◌, ◌<◌, ◌≤◌, length};
ghost use Rattle.reading.specs.Lent.{laid, listed};
ghost use Rattle.findings.specs.Hold.{holding};
ghost use Rattle.rules.specs.Table.{order_sub, clock_sub};
ghost use Rattle.rules.specs.Rules.{device_count, capacity, coherence, top};
ghost use Rattle.rules.specs.Lint.{edition_of, lint_of, replied, listing_of, lint_answer_of, findings_of, rated_findings, rated_of};
ghost use Rattle.rules.specs.Lanes.{small_of, numbers_of, flat, lint_numbers_of, heads_after, numbers_after};

use decoders::identity::{IdentityAndBase, PackageType};
use decoders::timing::{Picoseconds, Timings};
use findings::{Finding, Findings, MOST};
pub use gather::Gathered;
use reading::Refusal;
use table::{non_integer_device_count, package_die_count_mismatch};

mod gather;
mod regions;
mod table;
pub mod timing;

// A finding is three small numbers in the one list and three large ones in the other.
const MOST_NUMBERS: usize = 3 * MOST;

// A rated profile has five rules.
const MOST_RATED: usize = 5;

/// The edition of JESD79-5 whose ladder a data rate is held to.
#[derive(Clone, Copy, Debug, PartialEq, Eq)]
pub enum Edition {
    First,
    Second,
}

impl Edition {
    // Where its ladder ends.
    pub(crate) fn top(self) -> u32
        ensures { result ≡ top self }
    {
        match self {
            Edition::First => 6400,
            Edition::Second => 8800,
        }
    }
}

/// Only here does a number become an edition, so a call that takes an edition need not refuse one.
impl TryFrom<u32> for Edition {
    type Error = Refusal;

    ghost try_from_gives = { λ number answer. answer ≡ edition_of number };

    fn try_from(number: u32) -> Result<Self, Refusal> {
        match number {
            1 => Ok(Edition::First),
            2 => Ok(Edition::Second),
            _ => Err(Refusal::UnknownEdition),
        }
    }
}

/// The edition of a number.
// Kept: a public function beside `Edition::try_from`, since callers and their proofs go by its name and its contract.
pub fn edition_of(number: u32) -> Result<Edition, Refusal>
    ensures { result ≡ edition_of number }
{
    number.try_into()
}

/// A timing ordering that must hold; it chooses the finding's sub.
#[derive(Clone, Copy, Debug, PartialEq, Eq)]
pub enum TimingOrder {
    /// tRAS must be at least tRCD.
    RasGeRcd,
    /// tRC must be at least tRAS.
    RcGeRas,
}

impl TimingOrder {
    // The finding's sub.
    fn sub(self) -> u8
        ensures { result ≡ order_sub self }
    {
        match self {
            TimingOrder::RasGeRcd => 1,
            TimingOrder::RcGeRas => 2,
        }
    }
}

/// A timing that must be a whole multiple of the cycle time; it chooses the finding's sub.
#[derive(Clone, Copy, Debug, PartialEq, Eq)]
pub enum ClockTimingParam {
    Trcd,
    Trp,
}

impl ClockTimingParam {
    // The finding's sub.
    fn sub(self) -> u8
        ensures { result ≡ clock_sub self }
    {
        match self {
            ClockTimingParam::Trcd => 1,
            ClockTimingParam::Trp => 2,
        }
    }
}

/// The timings of a rated profile, which the caller supplies.
#[derive(Clone, Copy, Debug, PartialEq, Eq)]
pub struct RatedTimings {
    pub cycle_time: Picoseconds,
    pub taa: Picoseconds,
    pub trcd: Picoseconds,
    pub trp: Picoseconds,
    pub tras: Picoseconds,
    pub data_rate_mt_s: u32,
}

/// What linting an image answers by value. A decoder's refusal stands for its record alone.
#[derive(Clone, Copy, Debug, PartialEq, Eq)]
pub struct Linted {
    pub identity: Result<IdentityAndBase, Refusal>,
    pub timings: Result<Timings, Refusal>,
    pub findings: Findings,
}

/// The same with the findings in a lent list, so many of them.
#[derive(Clone, Copy, Debug, PartialEq, Eq)]
pub struct LintRecords {
    pub identity: Result<IdentityAndBase, Refusal>,
    pub timings: Result<Timings, Refusal>,
    pub count: usize,
}

/// An image's lint by value: both decoders' answers and the findings.
#[tactic(auto, unfolding(findings::specs::Hold::holding))]
pub fn lint_image(image: &[u8], edition: Edition) -> Linted
    ensures { result ≡ lint_of edition image.now }
{
    let mut found = Gathered::new();
    let records = lint_into(image, edition, &mut found);
    Linted {
        identity: records.identity,
        timings: records.timings,
        findings: found.by_value(),
    }
}

/// The same with the findings in a list that is lent, which holds them alone afterwards: every rule, in document 01's order. A rule on a record
/// is silent where its decoder refused.
#[tactic(auto, using(crate::proofs::Never::coherent, crate::proofs::Parts::in_parts), unfolding(findings::specs::Hold::holding))]
pub fn lint_into(image: &[u8], edition: Edition, found: &mut Gathered) -> LintRecords
    ensures answer { result ≡ listing_of edition image.now }
    ensures later { found.new ≡ findings_of edition image.now }
{
    found.clear();
    found.check_regions(image);
    let identity = decoders::identity::decode_identity_and_base(image);
    found.check_identity(&identity);
    let timings = decoders::timing::decode_timings(image);
    found.check_base_timings(&timings, edition);
    LintRecords {
        identity,
        timings,
        count: found.as_slice().len(),
    }
}

/// Lints an image into two lent lists of at least forty-five numbers: for each finding its code, severity and sub in the one, its three
/// numbers in the other.
// Kept: two lists beside each other are what `lint_numbers` promises.
#[tactic(auto, unfolding(crate::specs::Lanes::lint_numbers_of, crate::specs::Lanes::heads_after, crate::specs::Lanes::numbers_after))]
pub fn lint_numbers(
    image: &[u8],
    edition: Edition,
    heads: &mut [u8],
    numbers: &mut [u32],
) -> Result<LintRecords, Refusal>
    ensures answer { result ≡ lint_numbers_of edition image.now heads.old numbers.old }
    ensures heads { heads.new ≡ heads_after edition image.now heads.old numbers.old }
    ensures numbers { numbers.new ≡ numbers_after edition image.now heads.old numbers.old }
{
    if heads.len() < MOST_NUMBERS || numbers.len() < MOST_NUMBERS {
        return Err(Refusal::ListTooShort);
    }
    let mut found = Gathered::new();
    let records = lint_into(image, edition, &mut found);
    lay_numbers(found.as_slice(), heads, numbers);
    Ok(records)
}

// The numbers of findings over the front of two lists that have room for them.
// Kept: heads and numbers beside each other, as `lint_numbers` takes them.
// Kept: places are reckoned from the count of findings, since std says nothing of what a slice ends as behind chunks_exact_mut.
fn lay_numbers(found: &[Finding], heads: &mut [u8], numbers: &mut [u32])
    requires { (length found.now ≤ 15) × (45 ≤ length heads.old) × (45 ≤ length numbers.old) }
    ensures heads { heads.new ≡ laid (flat small_of found.now) heads.old }
    ensures numbers { numbers.new ≡ laid (flat numbers_of found.now) numbers.old }
{
    for (i, f) in found.iter().enumerate() {
        heads[3 * i..3 * i + 3].copy_from_slice(&[f.code, f.severity.number(), f.sub]);
        numbers[3 * i..3 * i + 3].copy_from_slice(&[f.first, f.second, f.third]);
    }
}

/// Lints an image into a lent list of at least fifteen places: the first places hold the findings, the others stay.
#[tactic(auto, unfolding(crate::specs::Lint::lint_answer_of, findings::specs::Hold::holding))]
pub fn lint(image: &[u8], edition: Edition, list: &mut [Finding]) -> Result<LintRecords, Refusal>
    ensures answer { result ≡ lint_answer_of edition image.now list.old }
    ensures later { list.new ≡ listed 15 (findings_of edition image.now) list.old }
{
    if list.len() < MOST {
        return Err(Refusal::ListTooShort);
    }
    let mut found = Gathered::new();
    let records = lint_into(image, edition, &mut found);
    let found = found.as_slice();
    list[..found.len()].copy_from_slice(found);
    Ok(records)
}

/// What `lint` answers of a list of so many places.
// Kept: it is public, and hands on the count that it is given, of whatever lint.
pub fn lint_reply(len: usize, linted: Linted) -> Result<LintRecords, Refusal>
    ensures { result ≡ replied len linted }
{
    if len < MOST {
        return Err(Refusal::ListTooShort);
    }
    Ok(LintRecords {
        identity: linted.identity,
        timings: linted.timings,
        count: linted.findings.count,
    })
}

// The bus width must be a positive multiple of the I/O width, or the device count per rank is no whole number.
fn check_capacity(identity: &IdentityAndBase) -> Option<Finding>
    ensures { result ≡ capacity identity.now }
{
    check_device_count(identity.primary_bus_width_bits, identity.io_width.bits())
}

/// The same of plain widths, of whatever record.
pub fn check_device_count(bus_width_bits: u16, io_width_bits: u16) -> Option<Finding>
    ensures { result ≡ device_count bus_width_bits io_width_bits }
{
    (io_width_bits == 0 || bus_width_bits == 0 || bus_width_bits % io_width_bits != 0).then(
        || non_integer_device_count(bus_width_bits, io_width_bits),
    )
}

/// The rules that apply to a rated profile, into a lent list of at least five places.
#[tactic(auto, unfolding(crate::specs::Lint::rated_of, crate::specs::Lint::rated_findings))]
pub fn check_rated_profile(
    r: RatedTimings,
    edition: Edition,
    list: &mut [Finding],
) -> Result<usize, Refusal>
    ensures answer { result ≡ rated_of edition r list.old }
    ensures later { list.new ≡ listed 5 (rated_findings edition r) list.old }
{
    if list.len() < MOST_RATED {
        return Err(Refusal::ListTooShort);
    }
    let mut found = Gathered::new();
    found.check_rated(r, edition);
    let found = found.as_slice();
    list[..found.len()].copy_from_slice(found);
    Ok(found.len())
}

/// The findings of a rated profile by value, at most five.
#[tactic(auto, unfolding(crate::specs::Lint::rated_findings))]
pub fn rated_findings(r: RatedTimings, edition: Edition) -> Findings
    ensures { result ≡ holding (rated_findings edition r) }
{
    let mut found = Gathered::new();
    found.check_rated(r, edition);
    found.by_value()
}

/// One die in a monolithic package, more in the others. No decoded image breaks this; it is asked of any package and die count.
pub fn check_package_coherence(package_type: PackageType, die_count: u8) -> Option<Finding>
    ensures { result ≡ coherence package_type die_count }
{
    let coherent = match package_type {
        PackageType::Monolithic => die_count == 1,
        PackageType::DualDie | PackageType::ThreeDs => 1 < die_count,
    };
    (!coherent).then(|| package_die_count_mismatch(package_type, die_count))
}
