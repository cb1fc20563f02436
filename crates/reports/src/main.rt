//! Runs what is only run of the report form and of the calls by value, and writes what came out: a report written and read back, every refusal
//! of the writer and the reader, the report table, the package rule on pairs that no image has, regions at the edges of an image, and the first
//! byte that is missing of some ranges.
#![tactic(auto)]

ghost use Rattle.std.specs.Prelude.{◌<◌};

use decoders::identity::PackageType;
use findings::{Finding, Findings, Severity};
use printing::{number, refused, text, yes};
use reading::Refusal;
use report::Counted;
use rules::Edition;
use std::io;

// The bytes of a report of two findings, and those of the longest, and one more.
const TWO: usize = 33;

const ROOM: usize = 216;

// What stands in every byte of a buffer before a report is written into it.
const FILLER: u8 = 255;

// Every flag.
const FLAGS: u8 = 3;

// The most ranges that are asked for at once.
const RANGES: usize = 2;

fn wrote(rt: &impl Print, answer: Result<usize, Refusal>) -> io::Result<()> {
    match answer {
        Ok(n) => print!(rt; " {n} bytes"),
        Err(why) => refused(rt, why),
    }
}

fn told(rt: &impl Print, answer: Result<Counted, Refusal>) -> io::Result<()> {
    match answer {
        Ok(counted) => print!(rt; " flags {} count {}", counted.flags, counted.count),
        Err(why) => refused(rt, why),
    }
}

// The end of a line: whether it is so.
fn so(rt: &impl Print, label: &[u8], holds: bool) -> io::Result<()> {
    text(rt, label)?;
    yes(rt, holds)?;
    text(rt, b"\n")
}

// A DDR5 image with findings of every kind of rule, and both records.
// Kept: its own image, so that a program's output goes by what stands in it alone.
fn sample() -> [u8; 512] {
    let mut image = [0; 512];
    for (at, byte) in [
        (0, 0x30),
        (2, 0x12),
        (3, 0x02),
        (4, 0x04),
        (6, 0x40),
        (15, 7),
        (190, 1),
        (509, 9),
    ] {
        image[at] = byte;
    }
    // tCK, tAA, tRCD, tRP, tRAS, tRC.
    for (at, time) in [
        (20, 400u16),
        (30, 401),
        (32, 403),
        (34, 401),
        (36, 402),
        (38, 401),
    ] {
        image[at..at + 2].copy_from_slice(&time.to_le_bytes());
    }
    image
}

// An image's report, made by one call and by two, and read back.
fn image_report(rt: &impl Print, image: &[u8]) -> io::Result<()> {
    let mut once = [FILLER; ROOM];
    let mut twice = [FILLER; ROOM];
    text(rt, b"lint_report:")?;
    wrote(
        rt,
        report::lint_report(image, Edition::Second, &mut once).written,
    )?;
    text(rt, b"\nlint_image, write_findings:")?;
    let linted = rules::lint_image(image, Edition::Second);
    let flags = report::flags_of(linted.identity, linted.timings);
    wrote(
        rt,
        report::write_findings(flags, linted.findings, &mut twice),
    )?;
    so(rt, b", the same bytes", once == twice)?;
    text(rt, b"read_findings:")?;
    let again = report::read_findings(&once);
    told(rt, again.answer)?;
    so(
        rt,
        b", the same findings",
        again.findings == linted.findings,
    )
}

// The same image where the buffer is one byte short.
fn image_short(rt: &impl Print, image: &[u8]) -> io::Result<()> {
    let before = [FILLER; 158];
    let mut out = before;
    text(rt, b"lint_report, a byte short:")?;
    wrote(
        rt,
        report::lint_report(image, Edition::Second, &mut out).written,
    )?;
    so(rt, b", unchanged", out == before)
}

fn decoded<T: Drop>(rt: &impl Print, label: &[u8], answer: Result<T, Refusal>) -> io::Result<()> {
    text(rt, label)?;
    match answer {
        Ok(_) => text(rt, b" decoded"),
        Err(why) => refused(rt, why),
    }
}

// Both decoders' answers beside the report's: a refusal stands for its record alone.
fn image_told(rt: &impl Print, label: &[u8], image: &[u8]) -> io::Result<()> {
    let mut out = [FILLER; ROOM];
    let reported = report::lint_report(image, Edition::Second, &mut out);
    text(rt, label)?;
    decoded(rt, b" identity", reported.identity)?;
    decoded(rt, b", timings", reported.timings)?;
    text(rt, b",")?;
    wrote(rt, reported.written)?;
    text(rt, b"\n")
}

fn decoders_told(rt: &impl Print) -> io::Result<()> {
    let mut image = sample();
    image_told(rt, b"lint_report, 512 bytes:", &image)?;
    image_told(rt, b"lint_report, 235 of them:", &image[0..235])?;
    image_told(rt, b"lint_report, 93 of them:", &image[0..93])?;
    image[2] = 12;
    image_told(rt, b"lint_report, byte 2 is 12:", &image)
}

fn finding(code: u8, severity: Severity, sub: u8, first: u32, second: u32) -> Finding {
    Finding {
        code,
        severity,
        sub,
        first,
        second,
        third: 0,
    }
}

// Two findings of the table, the second as given.
fn pair(second: Finding) -> Findings {
    let mut items = findings::blanks();
    items[0] = finding(3, Severity::Error, 2, u32::MAX, 1);
    items[1] = second;
    Findings { items, count: 2 }
}

fn region() -> Finding {
    finding(8, Severity::Warning, 0, 448, 255)
}

// Writes findings into a buffer that is all filler.
fn write_case(
    rt: &impl Print,
    label: &[u8],
    flags: u8,
    found: Findings,
    out: &mut [u8],
) -> io::Result<()> {
    text(rt, label)?;
    wrote(rt, report::write_findings(flags, found, out))?;
    so(rt, b", unchanged", out.iter().all(|&byte| byte == FILLER))
}

// Two findings are 33 bytes. Into 32 the answer is 8, or 12 where the findings are not the form's.
fn writer(rt: &impl Print) -> io::Result<()> {
    let good = pair(region());
    let many = Findings { count: 16, ..good };
    let severe = pair(finding(8, Severity::Error, 0, 448, 255));
    let sub = pair(finding(8, Severity::Warning, 1, 448, 255));
    let large = pair(finding(8, Severity::Warning, 0, 448, 256));
    write_case(rt, b"write 2 findings:", FLAGS, good, &mut [FILLER; TWO])?;
    // Each of these is refused, and so leaves the buffer as it was.
    let mut out = [FILLER; TWO];
    write_case(rt, b"write 16 findings:", FLAGS, many, &mut out)?;
    write_case(rt, b"write flags 4:", 4, good, &mut out)?;
    let code = pair(findings::blank());
    write_case(rt, b"write code 0:", FLAGS, code, &mut out)?;
    write_case(rt, b"write code 8 as an error:", FLAGS, severe, &mut out)?;
    write_case(rt, b"write code 8 with sub 1:", FLAGS, sub, &mut out)?;
    write_case(rt, b"write code 8 with byte 256:", FLAGS, large, &mut out)?;
    let mut short = [FILLER; TWO - 1];
    write_case(
        rt,
        b"write 2 findings, a byte short:",
        FLAGS,
        good,
        &mut short,
    )?;
    let label = b"write code 8 with byte 256, a byte short:";
    write_case(rt, label, FLAGS, large, &mut short)
}

// Reads, and tells how many findings are there: none beside a refusal.
fn read_case(rt: &impl Print, label: &[u8], bytes: &[u8]) -> io::Result<()> {
    text(rt, label)?;
    let reading = report::read_findings(bytes);
    told(rt, reading.answer)?;
    println!(rt; ", findings {}", reading.findings.count)
}

fn with(mut bytes: [u8; TWO], at: usize, to: u8) -> [u8; TWO]
    requires { at < 33 }
{
    bytes[at] = to;
    bytes
}

// The report of two findings with one byte changed.
fn changed(rt: &impl Print, label: &[u8], bytes: [u8; TWO], at: usize, to: u8) -> io::Result<()>
    requires { at < 33 }
{
    read_case(rt, label, &with(bytes, at, to))
}

fn reader(rt: &impl Print, good: [u8; TWO]) -> io::Result<()> {
    read_case(rt, b"read 33 bytes:", &good)?;
    read_case(rt, b"read 32 of them:", &good[0..32])?;
    read_case(rt, b"read 1 of them:", &good[0..1])?;
    read_case(rt, b"read none of them:", &[])?;
    changed(rt, b"read length 0:", good, 1, 0)?;
    changed(rt, b"read length 30:", good, 1, 30)?;
    changed(rt, b"read length 32:", good, 1, 32)?;
    changed(rt, b"read version 2:", good, 2, 2)?;
    changed(rt, b"read flags 4:", good, 3, 4)?;
    changed(rt, b"read count 1:", good, 4, 1)?;
    changed(rt, b"read code 0:", good, 5, 0)?;
    changed(rt, b"read sub 3 of code 3:", good, 6, 3)
}

// Two faults in one report: a cut one first, then length 0, then the version, then the rest.
fn order(rt: &impl Print, good: [u8; TWO]) -> io::Result<()> {
    let newer = with(good, 2, 2);
    read_case(rt, b"read version 2, cut:", &newer[0..32])?;
    changed(rt, b"read version 2, length 0:", newer, 1, 0)?;
    changed(rt, b"read version 2, flags 4:", newer, 3, 4)
}

// A count of sixteen with the length that sixteen findings would have.
fn sixteen(rt: &impl Print) -> io::Result<()> {
    let mut bytes = [0; 229];
    bytes[1] = 227;
    bytes[2] = 1;
    bytes[4] = 16;
    read_case(rt, b"read count 16:", &bytes)
}

// A report at the front of a longer buffer.
fn behind(rt: &impl Print) -> io::Result<()> {
    let mut bytes = [170; 40];
    text(rt, b"write into 40 bytes:")?;
    wrote(
        rt,
        report::write_findings(FLAGS, pair(region()), &mut bytes),
    )?;
    text(rt, b"\n")?;
    read_case(rt, b"read 40 bytes:", &bytes)?;
    bytes[2] = 2;
    read_case(rt, b"read 40 bytes, version 2:", &bytes)?;
    bytes[1] = 0;
    read_case(rt, b"read 40 bytes, version 2, length 0:", &bytes)
}

fn table(rt: &impl Print) -> io::Result<()> {
    let start = finding(8, Severity::Warning, 0, 65536, 255);
    let dies = finding(9, Severity::Error, 3, 255, 0);
    let package = finding(9, Severity::Error, 0, 255, 0);
    let rate = finding(7, Severity::Warning, 0, 5000, 0);
    let code = finding(10, Severity::Info, 0, 0, 0);
    so(
        rt,
        b"in_table, code 8, 448 255:",
        report::in_table(region()),
    )?;
    so(rt, b"in_table, code 8, 65536 255:", report::in_table(start))?;
    so(rt, b"in_table, code 9, sub 3, 255:", report::in_table(dies))?;
    so(
        rt,
        b"in_table, code 9, sub 0, 255:",
        report::in_table(package),
    )?;
    so(
        rt,
        b"in_table, code 7 as a warning:",
        report::in_table(rate),
    )?;
    so(rt, b"in_table, code 10:", report::in_table(code))
}

fn coherent(rt: &impl Print, label: &[u8], kind: PackageType, dies: u8) -> io::Result<()> {
    text(rt, label)?;
    match rules::check_package_coherence(kind, dies) {
        None => text(rt, b" nothing\n"),
        Some(f) => {
            let severity = f.severity.number();
            println!(rt; " {} {severity} {} {}", f.code, f.sub, f.first)
        }
    }
}

fn packages(rt: &impl Print) -> io::Result<()> {
    coherent(rt, b"monolithic, 1 die:", PackageType::Monolithic, 1)?;
    coherent(rt, b"monolithic, 2 dies:", PackageType::Monolithic, 2)?;
    coherent(rt, b"dual-die, 1 die:", PackageType::DualDie, 1)?;
    coherent(rt, b"dual-die, 2 dies:", PackageType::DualDie, 2)?;
    coherent(rt, b"stacked, 0 dies:", PackageType::ThreeDs, 0)
}

// Whether a region lies inside, and how long the part is that `slice` gives, and its first byte.
fn part(rt: &impl Print, label: &[u8], image: &[u8], offset: usize, len: usize) -> io::Result<()> {
    text(rt, label)?;
    yes(rt, reading::inside(image, offset, len))?;
    let got = reading::slice(image, offset, len);
    number(rt, got.len())?;
    if let Some(first) = got.first() {
        print!(rt; " {first}")?;
    }
    text(rt, b"\n")
}

fn regions(rt: &impl Print, image: &[u8; 4]) -> io::Result<()> {
    part(rt, b"region 0 4 of 4:", image, 0, 4)?;
    part(rt, b"region 0 5 of 4:", image, 0, 5)?;
    part(rt, b"region 3 1 of 4:", image, 3, 1)?;
    part(rt, b"region 3 2 of 4:", image, 3, 2)?;
    part(rt, b"region 4 0 of 4:", image, 4, 0)?;
    part(rt, b"region 5 0 of 4:", image, 5, 0)?;
    part(rt, b"region 2^64-1 1 of 4:", image, usize::MAX, 1)?;
    part(rt, b"region 1 2^64-1 of 4:", image, 1, usize::MAX)?;
    part(
        rt,
        b"region 2^64-1 2^64-1 of 4:",
        image,
        usize::MAX,
        usize::MAX,
    )
}

// The first byte of some ranges that an image lacks, by either call.
// Kept: two tables beside each other, since `first_missing` takes them so, and a start may stand without a length.
fn lacks(
    rt: &impl Print,
    label: &[u8],
    image: &[u8],
    starts: &[u16],
    lengths: &[u16],
) -> io::Result<()> {
    text(rt, label)?;
    let missing = reading::first_missing(image, starts, lengths);
    if reading::first_missing_in(image, &ranges_of(starts, lengths)) != missing {
        text(rt, b" BY RANGES ANOTHER:")?;
    }
    match missing {
        Some(offset) => println!(rt; " {offset}"),
        None => text(rt, b" nothing\n"),
    }
}

// The same ranges as pairs, by which the decoders ask, and behind them ranges of no byte.
fn ranges_of(starts: &[u16], lengths: &[u16]) -> [(u16, u16); RANGES] {
    let mut ranges = [(0, 0); RANGES];
    for (range, (&start, &len)) in ranges.iter_mut().zip(starts.iter().zip(lengths)) {
        *range = (start, len);
    }
    ranges
}

// The order of the ranges does not matter, an empty one has no byte, and a start without a length is no range.
fn missing(rt: &impl Print, image: &[u8; 4]) -> io::Result<()> {
    lacks(
        rt,
        b"missing of 4, bytes 0-1, 6-7:",
        image,
        &[0, 6],
        &[2, 2],
    )?;
    lacks(
        rt,
        b"missing of 4, bytes 6-7, 1-8:",
        image,
        &[6, 1],
        &[2, 8],
    )?;
    lacks(rt, b"missing of 4, bytes 0-3:", image, &[0], &[4])?;
    lacks(rt, b"missing of 4, bytes 0-4:", image, &[0], &[5])?;
    lacks(
        rt,
        b"missing of 4, 65535 bytes from 65535:",
        image,
        &[65535],
        &[65535],
    )?;
    lacks(rt, b"missing of 4, no byte from 9:", image, &[9], &[0])?;
    lacks(
        rt,
        b"missing of 4, bytes 0-3 and a start alone:",
        image,
        &[0, 9],
        &[4],
    )
}

// What the calls over a lent list answer of a list of so many places.
fn list_of(rt: &impl Print, len: usize, image: &[u8]) -> io::Result<()> {
    print!(rt; "lint into {len} places:")?;
    match rules::lint_reply(len, rules::lint_image(image, Edition::Second)) {
        Ok(records) => number(rt, records.count)?,
        Err(why) => refused(rt, why)?,
    }
    print!(rt; "\nread into {len} places:")?;
    told(rt, report::read_reply(len, Err(Refusal::ReportCut)))?;
    println!(rt;
        "\nwritten of 11 into {len} places: {}",
        findings::places(len, 15, 11)
    )
}

fn run(rt: &impl Print, image: &[u8; 512]) -> io::Result<()> {
    image_report(rt, image)?;
    image_short(rt, image)?;
    decoders_told(rt)?;
    writer(rt)?;
    let mut good = [0; TWO];
    let _ = report::write_findings(FLAGS, pair(region()), &mut good);
    reader(rt, good)?;
    order(rt, good)?;
    sixteen(rt)?;
    behind(rt)?;
    table(rt)?;
    packages(rt)?;
    list_of(rt, 14, image)?;
    list_of(rt, 15, image)
}

fn main(rt: HostRuntime) -> io::Result<()> {
    run(&rt, &sample())?;
    let four = [1, 2, 3, 4];
    regions(&rt, &four)?;
    missing(&rt, &four)
}
