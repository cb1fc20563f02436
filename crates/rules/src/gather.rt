//! The findings of an image, gathered rule by rule.
ghost use Rattle.std.specs.Prelude.{◌≡◌, ◌+◌, ◌<◌, ◌≤◌, [], ◌++◌, None, Ok, length};
ghost use Rattle.rules.specs.Parts.{of_answer};
ghost use Rattle.decoders.specs.declared.identity.IdentityAndBase.{IdentityAndBase};
ghost use Rattle.reading.specs.View.{view};
ghost use Rattle.findings.specs.Hold.{holding, to_list, cat};
ghost use Rattle.rules.specs.Regions.{region_rules};
ghost use Rattle.rules.specs.Rules.{coherence, identity_rules, timing_rules, rated_rules, each};

use crate::regions::{REGIONS, check_reserved_region};
use crate::timing::{
    check_cas_latency, check_clock_multiple, check_ordering, check_standard_rate,
    check_trc_identity,
};
use crate::{
    ClockTimingParam, Edition, RatedTimings, TimingOrder, check_capacity, check_package_coherence,
};
use decoders::identity::IdentityAndBase;
use decoders::timing::Timings;
use findings::{Finding, Findings, MOST};
use reading::Refusal;
use std::marker::Model;

/// A list of at most fifteen findings. It is lent from rule to rule, and so never copied.
// Kept: places with a count beside them: no heap in the library.
#[derive(Drop)]
pub struct Gathered {
    items: [Finding; MOST],
    count: usize,
}

impl Model for Gathered {
    ghost use Rattle.std.specs.Prelude.{List, ◌≤◌, take};
    ghost use Rattle.findings.specs.declared.Finding.{Finding};

    ghost Value = { List Finding };

    ghost view = { λ f. take f.count f.items };

    ghost invariant = { λ f. f.count ≤ 15 };
}

impl Gathered {
    /// No finding.
    pub fn new() -> Self
        ensures { result ≡ [] }
    {
        Gathered {
            items: findings::blanks(),
            count: 0,
        }
    }

    /// The findings, in order.
    pub fn as_slice(&self) -> &[Finding]
        ensures value { result.now ≡ self.now }
        ensures at_most_fifteen { length self.now ≤ 15 }
    {
        &self.items[..self.count]
    }

    /// The same by value: the places past them are blank.
    #[tactic(auto, using(findings::proofs::Laws::blanks_filled), unfolding(findings::specs::Hold::holding))]
    pub fn by_value(&self) -> Findings
        ensures { result ≡ holding self.now }
    {
        let found = self.as_slice();
        let count = found.len();
        let mut items = findings::blanks();
        items[..count].copy_from_slice(found);
        Findings { items, count }
    }

    // No finding again.
    pub(crate) fn clear(&mut self)
        ensures { self.new ≡ [] }
    {
        self.count = 0;
    }

    // What the seven rules on the reserved regions find.
    pub(crate) fn check_regions(&mut self, image: &[u8])
        requires { length self.old ≤ 8 }
        ensures found { self.new ≡ self.old ++ cat (each region_rules (view image.now)) }
        ensures room { length self.new ≤ length self.old + 7 }
    {
        for region in REGIONS {
            self.note(check_reserved_region(image, region));
        }
    }

    // What the two rules on an identity record find, where there is one.
    pub(crate) fn check_identity(&mut self, identity: &Result<IdentityAndBase, Refusal>)
        requires room { length self.old ≤ 13 }
        requires coherent { (d : IdentityAndBase) → identity.now ≡ Ok d → coherence d.package_type d.die_count ≡ None }
        ensures found { self.new ≡ self.old ++ of_answer identity_rules identity.now }
        ensures room { length self.new ≤ length self.old + 1 }
    {
        if let Ok(identity) = identity {
            self.note(check_capacity(identity));
            self.note(check_package_coherence(identity.package_type, identity.die_count));
        }
    }

    // What the seven rules on a timing record find, where there is one.
    pub(crate) fn check_base_timings(
        &mut self,
        timings: &Result<Timings, Refusal>,
        edition: Edition,
    )
        requires { length self.old ≤ 8 }
        ensures found { self.new ≡ self.old ++ of_answer (timing_rules edition) timings.now }
        ensures room { length self.new ≤ length self.old + 7 }
    {
        if let Ok(t) = timings {
            let tck = t.tckavg_min;
            self.note(check_trc_identity(t.trc, t.tras, t.trp));
            self.note(check_ordering(TimingOrder::RasGeRcd, t.tras, t.trcd));
            self.note(check_ordering(TimingOrder::RcGeRas, t.trc, t.tras));
            self.note(check_cas_latency(t.taa, tck, Some(t.supported_cas_latencies)));
            self.note(check_clock_multiple(ClockTimingParam::Trcd, t.trcd, tck));
            self.note(check_clock_multiple(ClockTimingParam::Trp, t.trp, tck));
            self.note(check_standard_rate(t.base_data_rate_mt_s(), edition));
        }
    }

    // What the five rules on a rated profile find.
    pub(crate) fn check_rated(&mut self, r: RatedTimings, edition: Edition)
        requires { length self.old ≤ 10 }
        ensures found { self.new ≡ self.old ++ cat (each (rated_rules edition) r) }
        ensures room { length self.new ≤ length self.old + 5 }
    {
        let tck = r.cycle_time;
        self.note(check_ordering(TimingOrder::RasGeRcd, r.tras, r.trcd));
        self.note(check_cas_latency(r.taa, tck, None));
        self.note(check_clock_multiple(ClockTimingParam::Trcd, r.trcd, tck));
        self.note(check_clock_multiple(ClockTimingParam::Trp, r.trp, tck));
        self.note(check_standard_rate(r.data_rate_mt_s, edition));
    }

    // One more, where a rule found it.
    fn note(&mut self, found: Option<Finding>)
        requires { length self.old < 15 }
        ensures found { self.new ≡ self.old ++ to_list found }
        ensures room { length self.new ≤ length self.old + 1 }
    {
        if let Some(finding) = found {
            self.items[self.count] = finding;
            self.count += 1;
        }
    }
}
