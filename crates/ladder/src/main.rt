//! Holds the rule of the ladder to tables of its rates, nine for edition 1 and fifteen for edition 2, and writes what came out: for every rate from
//! 0 to 20,000, and for as many at the edges of 16, 31 and 32 bits. The rule is asked through a rated profile, which alone takes any rate. No other
//! code has the tables; that the search of them answers as the rule's definition does, for every edition and rate, is proved.
#![tactic(auto)]

ghost use Rattle.std.specs.Prelude.{◌≡◌, ◌+◌, ◌<◌, ◌^◌};
ghost use Rattle.rules.specs.Rules.{on_ladder};

use decoders::timing::Picoseconds;
use findings::{Finding, Findings, Severity};
use printing::text;
use rules::{Edition, RatedTimings};
use std::io;

// The data rates in MT/s of the first JESD79-5.
const FIRST_DDR5_RATES: [u32; 9] = [3200, 3600, 4000, 4400, 4800, 5200, 5600, 6000, 6400];

// The JEDEC-standard DDR5 data rates in MT/s.
const STANDARD_DDR5_RATES: [u32; 15] = [
    3200, 3600, 4000, 4400, 4800, 5200, 5600, 6000, 6400, 6800, 7200, 7600, 8000, 8400, 8800,
];

// How many rates follow the first of a run.
const MORE: u32 = 20000;

// Whether the edition's table has the rate.
#[tactic(auto, using(rules::proofs::Ladder::listed))]
fn is_listed(rate: u32, edition: Edition) -> bool
    ensures { result ≡ on_ladder edition rate }
{
    match edition {
        Edition::First => FIRST_DDR5_RATES.contains(&rate),
        Edition::Second => STANDARD_DDR5_RATES.contains(&rate),
    }
}

// A profile that keeps every rule but, it may be, that of its rate.
fn profile(rate: u32) -> RatedTimings {
    RatedTimings {
        cycle_time: Picoseconds(416),
        taa: Picoseconds(16640),
        trcd: Picoseconds(16640),
        trp: Picoseconds(16640),
        tras: Picoseconds(32000),
        data_rate_mt_s: rate,
    }
}

// Whether the rule says of the rate what the table says: nothing of 0 and of the table's own, and of every other its finding and no more.
fn agrees(rate: u32, listed: bool, said: &Findings) -> bool {
    if rate == 0 || listed {
        said.count == 0
    } else {
        let standard_rate = Finding {
            code: 7,
            severity: Severity::Info,
            sub: 0,
            first: rate,
            second: 0,
            third: 0,
        };
        said.count == 1 && said.items[0] == standard_rate
    }
}

// Of a run of rates: how many the table has, how many the rule found fault with, and of how many the two say different things.
#[derive(Clone, Copy)]
struct Counts {
    listed: u32,
    found: u32,
    differ: u32,
}

impl Counts {
    // One rate more. The table is searched once for it and the rule asked once.
    fn and(self, rate: u32, edition: Edition) -> Self {
        let listed = is_listed(rate, edition);
        let said = rules::rated_findings(profile(rate), edition);
        Counts {
            listed: self.listed.saturating_add(listed.into()),
            found: self.found.saturating_add((0 < said.count).into()),
            differ: self
                .differ
                .saturating_add((!agrees(rate, listed, &said)).into()),
        }
    }
}

// Of the rate `first` and those behind it.
fn compare(rt: &impl Print, first: u32, edition: Edition) -> io::Result<()>
    requires { first + 20000 < 2 ^ 32 }
{
    let last = first + MORE;
    let none = Counts {
        listed: 0,
        found: 0,
        differ: 0,
    };
    let Counts {
        listed,
        found,
        differ,
    } = (first..=last).fold(none, |counts, rate| counts.and(rate, edition));
    println!(rt;
        " rates {first} to {last}: in the table {listed}, findings {found}, differences {differ}"
    )
}

fn run(rt: &impl Print, edition: Edition) -> io::Result<()> {
    compare(rt, 0, edition)?;
    compare(rt, (1 << 16) - MORE / 2, edition)?;
    compare(rt, (1 << 31) - MORE / 2, edition)?;
    compare(rt, u32::MAX - MORE, edition)
}

fn main(rt: HostRuntime) -> io::Result<()> {
    text(&rt, b"edition 1\n")?;
    run(&rt, Edition::First)?;
    text(&rt, b"edition 2\n")?;
    run(&rt, Edition::Second)
}
