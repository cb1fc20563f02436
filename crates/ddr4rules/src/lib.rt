//! The linter of a DDR4 image: three of DDR5's rules on its record.
#![tactic(auto)]

ghost use Rattle.std.specs.Prelude.{◌≡◌};
ghost use Rattle.reading.specs.Lent.{listed};
ghost use Rattle.findings.specs.Hold.{holding};
ghost use Rattle.ddr4rules.specs.Lint.{ddr4_says, in_order, ddr4_findings_of, ddr4_lint_of, ddr4_answer_of};

use ddr4::Ddr4;
use decoders::timing::Picoseconds;
use findings::{Finding, Findings};
use reading::Refusal;
use rules::TimingOrder;

// How many places a lent list must have.
const PLACES: usize = findings::MOST;

/// What each of the three rules says.
#[derive(Clone, Copy, Debug, PartialEq, Eq)]
pub struct Ddr4Checked {
    pub devices: Option<Finding>,
    pub ras: Option<Finding>,
    pub rc: Option<Finding>,
}

impl Ddr4Checked {
    // What they found, in order.
    fn findings(self) -> Findings
        ensures { result ≡ holding (in_order self) }
    {
        findings::of_three(self.devices, self.ras, self.rc)
    }
}

/// What linting an image answers by value. A refused image has no findings.
#[derive(Clone, Copy, Debug, PartialEq, Eq)]
pub struct Ddr4Linted {
    pub ddr4: Result<Ddr4, Refusal>,
    pub findings: Findings,
}

/// The record, and how many findings are in the lent list.
#[derive(Clone, Copy, Debug, PartialEq, Eq)]
pub struct Ddr4Records {
    pub ddr4: Ddr4,
    pub count: usize,
}

/// An image's lint by value: the decoder's answer and the findings, at most three.
#[tactic(auto, using(crate::proofs::Few::by_answer), unfolding(crate::specs::Lint::ddr4_found))]
pub fn lint_ddr4_image(image: &[u8]) -> Ddr4Linted
    ensures { result ≡ ddr4_lint_of image.now }
{
    let ddr4 = ddr4::decode_ddr4(image);
    let findings = match ddr4 {
        Ok(d) => check_ddr4(d).findings(),
        Err(_) => findings::of_three(None, None, None),
    };
    Ddr4Linted { ddr4, findings }
}

/// Lint an image into a lent list of at least fifteen places: the first places hold the findings, the others stay.
#[tactic(auto, using(crate::proofs::Few::by_answer, crate::proofs::Few::record_few, findings::proofs::Laws::filled), unfolding(crate::specs::Lint::ddr4_answer_of, crate::specs::Lint::ddr4_found, findings::specs::Hold::holding))]
pub fn lint_ddr4(image: &[u8], list: &mut [Finding]) -> Result<Ddr4Records, Refusal>
    ensures answer { result ≡ ddr4_answer_of image.now list.old }
    ensures later { list.new ≡ listed 15 (ddr4_findings_of image.now) list.old }
{
    if list.len() < PLACES {
        return Err(Refusal::ListTooShort);
    }
    let ddr4 = ddr4::decode_ddr4(image)?;
    let findings = check_ddr4(ddr4).findings();
    findings::fill(list, PLACES, findings);
    Ok(Ddr4Records {
        ddr4,
        count: findings.count,
    })
}

/// What each rule says of a record: the device count, tRAS against tRCD, tRC against tRAS.
pub fn check_ddr4(d: Ddr4) -> Ddr4Checked
    ensures { result ≡ ddr4_says d }
{
    let trcd = Picoseconds(d.trcd);
    let tras = Picoseconds(d.tras);
    let trc = Picoseconds(d.trc);
    Ddr4Checked {
        devices: rules::check_device_count(d.bus_width_bits, d.io_width_bits),
        ras: rules::timing::check_ordering(TimingOrder::RasGeRcd, tras, trcd),
        rc: rules::timing::check_ordering(TimingOrder::RcGeRas, trc, tras),
    }
}
