//! Calls what takes a lent list of records, which no other program does: with lists that are too short, exact and longer, and writes what
//! was answered, what stands in the places written, and how many of the others stayed as they were. Last, it asks for editions by number.
//! All is under edition 2 but where a line says edition 1. DDR4 images are in `ddr4_cases`.
//!
//! A list is the first `len` of seventeen places, which all hold the finding `MARK` before the call. Five functions lend one through `lend`,
//! and `write_from` lends one to be written: the array and the answer come back by value, so that the rest of the program is on values alone.
#![tactic(auto)]

ghost use Rattle.std.specs.Prelude.{◌≡◌, ◌≤◌, ◌++◌, List, length, take, drop};
ghost use Rattle.std.specs.Fn.{FnOnceReturnsAtMut};
ghost use Rattle.reading.specs.Lent.{listed};
ghost use Rattle.rules.specs.Lint.{lint_answer_of, findings_of, rated_of, rated_findings};
ghost use Rattle.report.specs.Read.{read_of, read_after};
ghost use Rattle.report.specs.Write.{write_of, written_over};
ghost use Rattle.pieces.specs.Fed.{kept_of};

use decoders::timing::Picoseconds;
use findings::{Finding, Findings, Severity};
use pieces::Pieces;
use printing::{refused, text, yes};
use reading::Refusal;
use report::Counted;
use rules::{Edition, LintRecords, RatedTimings};
use std::io;

mod ddr4_cases;

const PLACES: usize = 17;

// The places that a call asks for, and those that one on a rated profile does.
const ASKED: usize = 15;

const ASKED_RATED: usize = 5;

// What stands in every place before a call. No rule has its code.
const MARK: Finding = Finding {
    code: 77,
    severity: Severity::Info,
    sub: 77,
    first: 77,
    second: 77,
    third: 77,
};

// What stands in every byte of a buffer before a report is written into it.
const FILLER: u8 = 170;

// Seventeen places, of which a call is lent the first `len`.
// Kept: places with a length beside them: the program has no heap, and a call is lent fewer than there are.
#[derive(Clone, Copy)]
struct Lent {
    list: [Finding; PLACES],
    len: usize,
    ghost in_range: { len ≤ 17 },
}

impl Lent {
    // All places hold the mark. More than there are can't be lent.
    fn marked(len: usize) -> Self {
        Lent {
            list: [MARK; PLACES],
            len: len.min(PLACES),
        }
    }
}

// What a call answered, and what then stands in the seventeen places.
#[derive(Clone, Copy)]
struct After<A> {
    list: [Finding; PLACES],
    answer: Result<A, Refusal>,
}

// Lends the places to a call.
fn lend<A, F: FnOnce(&mut [Finding]) -> Result<A, Refusal>>(lent: Lent, call: F) -> After<A>
    requires { F.IsAlwaysCallable call }
    ensures { (after : List Finding) × (FnOnceReturnsAtMut F.FnOnce call (take lent.len lent.list) result.answer after) × (result.list ≡ after ++ drop lent.len lent.list) }
{
    let mut list = lent.list;
    let answer = call(&mut list[..lent.len]);
    After { list, answer }
}

fn lint_into(image: &[u8], edition: Edition, lent: Lent) -> After<LintRecords>
    ensures answer { result.answer ≡ lint_answer_of edition image.now (take lent.len lent.list) }
    ensures later { result.list ≡ listed 15 (findings_of edition image.now) (take lent.len lent.list) ++ drop lent.len lent.list }
{
    lend(lent, |list| rules::lint(image, edition, list))
}

fn pieces_into(state: Pieces, lent: Lent) -> After<LintRecords>
    ensures answer { result.answer ≡ lint_answer_of state.edition (kept_of state) (take lent.len lent.list) }
    ensures later { result.list ≡ listed 15 (findings_of state.edition (kept_of state)) (take lent.len lent.list) ++ drop lent.len lent.list }
{
    lend(lent, |list| state.lint(list))
}

fn rated_into(profile: RatedTimings, edition: Edition, lent: Lent) -> After<usize>
    ensures answer { result.answer ≡ rated_of edition profile (take lent.len lent.list) }
    ensures later { result.list ≡ listed 5 (rated_findings edition profile) (take lent.len lent.list) ++ drop lent.len lent.list }
{
    lend(
        lent,
        |list| rules::check_rated_profile(profile, edition, list),
    )
}

fn read_into(bytes: &[u8], lent: Lent) -> After<Counted>
    ensures answer { result.answer ≡ read_of bytes.now (length (take lent.len lent.list)) }
    ensures later { result.list ≡ read_after bytes.now (take lent.len lent.list) ++ drop lent.len lent.list }
{
    lend(lent, |list| report::read(bytes, list))
}

fn write_from(flags: u8, lent: &Lent, out: &mut [u8]) -> Result<usize, Refusal>
    ensures answer { result ≡ write_of flags (take lent.now.len lent.now.list) (length out.old) }
    ensures later { out.new ≡ written_over (write_of flags (take lent.now.len lent.now.list) (length out.old)) flags (take lent.now.len lent.now.list) out.old }
{
    report::write(flags, &lent.list[..lent.len], out)
}

// What a call answers beside the list.
trait Answered {
    fn tell(&self, rt: &impl Print) -> io::Result<()>;
}

impl Answered for LintRecords {
    fn tell(&self, rt: &impl Print) -> io::Result<()> {
        let flags = report::flags_of(self.identity, self.timings);
        print!(rt; " flags {flags} count {}", self.count)
    }
}

impl Answered for Counted {
    fn tell(&self, rt: &impl Print) -> io::Result<()> {
        print!(rt; " flags {} count {}", self.flags, self.count)
    }
}

// The count of findings alone.
impl Answered for usize {
    fn tell(&self, rt: &impl Print) -> io::Result<()> {
        print!(rt; " count {self}")
    }
}

// A finding's line: code, severity (0 error, 1 warning, 2 info), sub, numbers.
fn show_one(rt: &impl Print, f: Finding) -> io::Result<()> {
    let severity = f.severity.number();
    println!(rt;
        "  {} {severity} {} {} {} {}",
        f.code, f.sub, f.first, f.second, f.third
    )
}

// A line for each of the first places. Kept: a count beside the list, here and below: it is what the call answered.
fn show(rt: &impl Print, list: &[Finding], count: usize) -> io::Result<()> {
    for one in list.iter().take(count) {
        show_one(rt, *one)?;
    }
    Ok(())
}

fn places(rt: &impl Print, label: &[u8], len: usize) -> io::Result<()> {
    text(rt, label)?;
    print!(rt; " {len} places:")
}

// Whether the first n places of two lists hold the same.
fn same_places(a: &[Finding], b: &[Finding], n: usize) -> bool {
    a.iter().zip(b).take(n).all(|(x, y)| x == y)
}

// How many of those behind the first `from` are as they were.
fn kept<T: PartialEq>(rt: &impl Print, list: &[T], from: usize, before: &T) -> io::Result<()> {
    let rest = list.get(from..).unwrap_or(&[]);
    let stayed = rest.iter().filter(|&one| one == before).count();
    println!(rt; ", stayed {stayed} of {}", rest.len())
}

// The end of a line: what was answered, what is known by value, and the places that are not in use.
fn told<A: Answered + Drop>(rt: &impl Print, after: After<A>, found: Findings) -> io::Result<()> {
    let After { list, answer } = after;
    let in_use = match answer {
        Ok(records) => {
            records.tell(rt)?;
            text(rt, b", as by value")?;
            yes(rt, same_places(&list, &found.items, found.count))?;
            found.count
        }
        Err(why) => {
            refused(rt, why)?;
            0
        }
    };
    kept(rt, &list, in_use, &MARK)
}

// Kept: a case, and a function over `lend`, for each of the calls, since each promises what its own call does.
fn lint_case(
    rt: &impl Print,
    label: &[u8],
    image: &[u8],
    edition: Edition,
    len: usize,
) -> io::Result<()> {
    places(rt, label, len)?;
    let found = rules::lint_image(image, edition).findings;
    told(rt, lint_into(image, edition, Lent::marked(len)), found)
}

// The last finding of an image.
fn lint_last(rt: &impl Print, image: &[u8], edition: Edition) -> io::Result<()> {
    let after = lint_into(image, edition, Lent::marked(ASKED));
    if let Ok(records) = after.answer {
        if let Some(last) = after.list.iter().take(records.count).last() {
            show_one(rt, *last)?;
        }
    }
    Ok(())
}

// A state that holds the image, fed in two pieces.
fn fed(image: &[u8; 512], edition: Edition) -> Pieces {
    let half = Pieces::of(edition).feed(0, &image[0..200]).state;
    half.feed(200, &image[200..]).state
}

fn pieces_case(rt: &impl Print, label: &[u8], state: Pieces, len: usize) -> io::Result<()> {
    places(rt, label, len)?;
    let found = state.lint_image().findings;
    told(rt, pieces_into(state, Lent::marked(len)), found)
}

fn rated_case(
    rt: &impl Print,
    label: &[u8],
    profile: RatedTimings,
    edition: Edition,
    len: usize,
) -> io::Result<()> {
    places(rt, label, len)?;
    let found = rules::rated_findings(profile, edition);
    told(rt, rated_into(profile, edition, Lent::marked(len)), found)
}

fn read_case(rt: &impl Print, label: &[u8], bytes: &[u8], len: usize) -> io::Result<()> {
    places(rt, label, len)?;
    let found = report::read_findings(bytes).findings;
    told(rt, read_into(bytes, Lent::marked(len)), found)
}

// What was written, read into a list again.
fn back(rt: &impl Print, lent: &Lent, out: &[u8]) -> io::Result<()> {
    text(rt, b", read back")?;
    let again = read_into(out, Lent::marked(ASKED)).list;
    yes(rt, same_places(&lent.list, &again, lent.len))
}

// Writes so many findings into a buffer that is all filler.
fn write_case(rt: &impl Print, label: &[u8], lent: &Lent, out: &mut [u8]) -> io::Result<()> {
    text(rt, label)?;
    print!(rt; " {} of the list into {} bytes:", lent.len, out.len())?;
    let in_use = match write_from(3, lent, out) {
        Ok(n) => {
            print!(rt; " bytes {n}")?;
            back(rt, lent, out)?;
            n
        }
        Err(why) => {
            refused(rt, why)?;
            0
        }
    };
    kept(rt, out, in_use, &FILLER)
}

// A DDR5 image with a finding of every rule that an image can break, fifteen: the seven regions, the device count (bus 8, I/O 16), and
// the timing rules of the last bench line.
// Kept: its own image, so that a program's output goes by what stands in it alone.
fn sample() -> [u8; 512] {
    let mut image = [0; 512];
    // The identity.
    for (at, byte) in [(0, 0x30), (2, 0x12), (3, 0x02), (4, 0x04), (6, 0x40)] {
        image[at] = byte;
    }
    // tCK, tAA, tRCD, tRP, tRAS, tRC.
    for (at, time) in [
        (20, 400u16),
        (30, 401),
        (32, 403),
        (34, 401),
        (36, 402),
        (38, 401),
    ] {
        image[at..at + 2].copy_from_slice(&time.to_le_bytes());
    }
    // A byte of each region.
    for (at, byte) in [
        (15, 7),
        (29, 3),
        (127, 4),
        (190, 1),
        (214, 5),
        (239, 6),
        (509, 9),
    ] {
        image[at] = byte;
    }
    image
}

// The same at 8000 MT/s (tCK 250), a rate that edition 2 has and edition 1 has not.
fn fast() -> [u8; 512] {
    let mut image = sample();
    image[20..22].copy_from_slice(&250u16.to_le_bytes());
    image
}

// A rated profile that breaks four of its five rules, and the fifth where the edition does not have the rate.
fn profile(data_rate_mt_s: u32) -> RatedTimings {
    RatedTimings {
        cycle_time: Picoseconds(400),
        taa: Picoseconds(401),
        trcd: Picoseconds(403),
        trp: Picoseconds(401),
        tras: Picoseconds(402),
        data_rate_mt_s,
    }
}

fn linting(rt: &impl Print, image: &[u8; 512]) -> io::Result<()> {
    for len in [0, 14, 15, 17] {
        lint_case(rt, b"lint,", image, Edition::Second, len)?;
    }
    lint_case(
        rt,
        b"lint of 236 bytes,",
        &image[0..236],
        Edition::Second,
        15,
    )?;
    lint_case(rt, b"lint of 16 bytes,", &image[0..16], Edition::Second, 17)?;
    lint_case(rt, b"lint of no bytes,", &[], Edition::Second, 14)?;
    lint_case(rt, b"lint of no bytes,", &[], Edition::Second, 15)
}

// Edition 1 has one finding more, the rate's, behind the others.
fn linting_fast(rt: &impl Print, image: &[u8; 512]) -> io::Result<()> {
    let first = b"lint of 8000 MT/s under edition 1,";
    let second = b"lint of 8000 MT/s under edition 2,";
    lint_case(rt, first, image, Edition::First, 14)?;
    lint_case(rt, first, image, Edition::First, 15)?;
    lint_last(rt, image, Edition::First)?;
    lint_case(rt, second, image, Edition::Second, 14)?;
    lint_case(rt, second, image, Edition::Second, 15)?;
    lint_last(rt, image, Edition::Second)
}

fn feeding(rt: &impl Print, image: &[u8; 512]) -> io::Result<()> {
    let whole = fed(image, Edition::Second);
    for len in [0, 14, 15, 17] {
        pieces_case(rt, b"Pieces::lint,", whole, len)?;
    }
    let fresh = Pieces::of(Edition::Second);
    pieces_case(rt, b"Pieces::lint of a fresh state,", fresh, 14)?;
    pieces_case(rt, b"Pieces::lint of a fresh state,", fresh, 15)
}

// A state of edition 1 is held to the linter's answer by value, not to its own.
fn feeding_fast(rt: &impl Print, image: &[u8; 512]) -> io::Result<()> {
    places(rt, b"Pieces::lint of 8000 MT/s under edition 1,", ASKED)?;
    let found = rules::lint_image(image, Edition::First).findings;
    let state = fed(image, Edition::First);
    told(rt, pieces_into(state, Lent::marked(ASKED)), found)
}

fn rating(rt: &impl Print) -> io::Result<()> {
    let rated = profile(5000);
    for len in [0, 4, 5, 8] {
        rated_case(rt, b"check_rated_profile,", rated, Edition::Second, len)?;
    }
    let after = rated_into(rated, Edition::Second, Lent::marked(ASKED_RATED));
    show(rt, &after.list, ASKED_RATED)
}

fn rating_fast(rt: &impl Print) -> io::Result<()> {
    let first = b"check_rated_profile of 8000 MT/s under edition 1,";
    let second = b"check_rated_profile of 8000 MT/s under edition 2,";
    rated_case(rt, first, profile(8000), Edition::First, ASKED_RATED)?;
    rated_case(rt, second, profile(8000), Edition::Second, ASKED_RATED)
}

fn writing(rt: &impl Print, mut list: [Finding; PLACES]) -> io::Result<()> {
    let none = Lent { list, len: 0 };
    write_case(rt, b"write,", &none, &mut [FILLER; 5])?;
    write_case(rt, b"write,", &none, &mut [FILLER; 4])?;
    let two = Lent { list, len: 2 };
    write_case(rt, b"write,", &two, &mut [FILLER; 33])?;
    write_case(rt, b"write,", &two, &mut [FILLER; 32])?;
    let most = Lent { list, len: 15 };
    write_case(rt, b"write,", &most, &mut [FILLER; 215])?;
    write_case(rt, b"write,", &most, &mut [FILLER; 214])?;
    write_case(rt, b"write,", &most, &mut [FILLER; 230])?;
    // Sixteen and seventeen findings that are all the table's, and one that is not.
    list[15] = list[0];
    list[16] = list[1];
    let sixteen = Lent { list, len: 16 };
    let seventeen = Lent { list, len: 17 };
    write_case(rt, b"write,", &sixteen, &mut [FILLER; 230])?;
    write_case(rt, b"write,", &seventeen, &mut [FILLER; 230])?;
    write_case(rt, b"write,", &sixteen, &mut [FILLER; 4])?;
    write_case(rt, b"write code 77,", &Lent::marked(1), &mut [FILLER; 230])
}

fn read_most(rt: &impl Print, list: [Finding; PLACES]) -> io::Result<()> {
    let mut most = [0; 215];
    let _ = write_from(3, &Lent { list, len: 15 }, &mut most);
    for len in [0, 14, 15, 17] {
        read_case(rt, b"read 15 findings,", &most, len)?;
    }
    Ok(())
}

fn read_two(rt: &impl Print, list: [Finding; PLACES]) -> io::Result<()> {
    let mut two = [0; 33];
    let _ = write_from(2, &Lent { list, len: 2 }, &mut two);
    for len in [14, 15, 17] {
        read_case(rt, b"read 2 findings,", &two, len)?;
    }
    two[2] = 2;
    read_case(rt, b"read version 2,", &two, 14)?;
    read_case(rt, b"read version 2,", &two, 17)
}

fn number_of(edition: Edition) -> u8 {
    match edition {
        Edition::First => 1,
        Edition::Second => 2,
    }
}

fn edition_case(rt: &impl Print, n: u32) -> io::Result<()> {
    print!(rt; "edition_of {n}:")?;
    match rules::edition_of(n) {
        Ok(edition) => print!(rt; " edition {}", number_of(edition))?,
        Err(why) => refused(rt, why)?,
    }
    text(rt, b"\n")
}

// A refused number gives a state too, so its edition is told with either answer.
fn fresh_case(rt: &impl Print, n: u32) -> io::Result<()> {
    print!(rt; "Pieces::fresh {n}:")?;
    let made = Pieces::fresh(n);
    match made.answer {
        Ok(count) => print!(rt; " taken {count}")?,
        Err(why) => refused(rt, why)?,
    }
    println!(rt; ", edition {}", number_of(made.state.edition))
}

fn editions(rt: &impl Print) -> io::Result<()> {
    for n in [0, 1, 2, 3, u32::MAX] {
        edition_case(rt, n)?;
    }
    for n in [1, 2, 3] {
        fresh_case(rt, n)?;
    }
    Ok(())
}

fn main(rt: HostRuntime) -> io::Result<()> {
    let image = sample();
    let fast = fast();
    linting(&rt, &image)?;
    let list = lint_into(&image, Edition::Second, Lent::marked(ASKED)).list;
    show(&rt, &list, ASKED)?;
    linting_fast(&rt, &fast)?;
    feeding(&rt, &image)?;
    feeding_fast(&rt, &fast)?;
    rating(&rt)?;
    rating_fast(&rt)?;
    writing(&rt, list)?;
    read_most(&rt, list)?;
    read_two(&rt, list)?;
    ddr4_cases::run(&rt, &image)?;
    editions(&rt)
}
