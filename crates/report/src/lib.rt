//! The report form, version 1: findings written into a lent buffer, and read back.
//! What is written reads back as it was, and nothing else is read: proofs/Trip.antt.
#![tactic(auto)]

ghost use Rattle.std.specs.Prelude.{◌≡◌, ◌+◌, ◌*◌, ◌≤◌, [], ◌∷◌, ◌++◌, IfOk, length, drop, take};
ghost use Rattle.std.specs.List.{list_all};
ghost use Rattle.rules.specs.Table.{row_of, in_table, all_in};
ghost use Rattle.report.specs.Table.{IsLimited, in_limits};
ghost use Rattle.report.specs.Form.{finding_size, head_size, finding_bytes, head_of, big_endian, report_of, finding_in, findings_in};
ghost use Rattle.report.specs.Write.{write_of, written_over, fitted, found_of, reported_of, lint_report_after, flags_of};
ghost use Rattle.report.specs.Read.{content_of, reading_of, read_of, read_after, read_replied};
ghost use Rattle.report.specs.Body.{start_of, accepted_of};
ghost use Rattle.findings.specs.Hold.{holding};

use decoders::identity::IdentityAndBase;
use decoders::timing::Timings;
use findings::{Finding, Findings, Severity};
use reading::Refusal;
use rules::{Edition, Gathered};

// The bytes that tell the length, the bytes before the first finding, and the bytes of a finding.
const LENGTH_BYTES: usize = 2;

const HEAD_BYTES: usize = 5;

const FINDING_BYTES: usize = 14;

const VERSION: u8 = 1;

const MOST_FLAGS: u8 = 3;

const MOST_FINDINGS: usize = findings::MOST;

// A number of any size.
const ANY: u32 = u32::MAX;

/// What linting into a report answers. A decoder's refusal stands for its record alone: the report is written all the same.
#[derive(Clone, Copy, Debug, PartialEq, Eq)]
pub struct LintReport {
    pub identity: Result<IdentityAndBase, Refusal>,
    pub timings: Result<Timings, Refusal>,
    pub written: Result<usize, Refusal>,
}

/// A report's flags and how many findings it has.
#[derive(Clone, Copy, Debug, PartialEq, Eq)]
pub struct Counted {
    pub flags: u8,
    pub count: usize,
}

/// What reading answers by value; without a report there are no findings.
#[derive(Clone, Copy, Debug, PartialEq, Eq)]
pub struct Reading {
    pub answer: Result<Counted, Refusal>,
    pub findings: Findings,
}

/// Writes the whole of a lent list, with flags, as a report: refused 12 before 8, and a refusal writes nothing.
#[tactic(auto, using(crate::proofs::Turns::each_in), unfolding(crate::specs::Write::write_of, crate::specs::Write::written_over))]
pub fn write(flags: u8, list: &[Finding], out: &mut [u8]) -> Result<usize, Refusal>
    ensures answer { result ≡ write_of flags list.now (length out.old) }
    ensures later { out.new ≡ written_over (write_of flags list.now (length out.old)) flags list.now out.old }
{
    if list.len() > MOST_FINDINGS || flags > MOST_FLAGS || !all_in(list) {
        return Err(Refusal::NotReportable);
    }
    write_fitting(flags, list, out)
}

/// The same of findings by value.
#[tactic(auto, unfolding(crate::specs::Write::found_of, crate::specs::Write::written_over))]
pub fn write_findings(flags: u8, found: Findings, out: &mut [u8]) -> Result<usize, Refusal>
    ensures answer { result ≡ found_of flags found (length out.old) }
    ensures later { out.new ≡ written_over (found_of flags found (length out.old)) flags (take found.count found.items) out.old }
{
    if found.count > MOST_FINDINGS {
        return Err(Refusal::NotReportable);
    }
    write(flags, &found.items[..found.count], out)
}

/// Lints an image and writes its report. What linting finds is always the form's, so want of room is the report's only refusal.
#[tactic(auto, unfolding(crate::specs::Write::lint_report_of, crate::specs::Write::lint_report_after))]
pub fn lint_report(image: &[u8], edition: Edition, out: &mut [u8]) -> LintReport
    ensures answer { result ≡ reported_of edition image.now (length out.old) }
    ensures later { out.new ≡ lint_report_after edition image.now out.old }
{
    let mut found = Gathered::new();
    let records = rules::lint_into(image, edition, &mut found);
    let flags = flags_of(records.identity, records.timings);
    LintReport {
        identity: records.identity,
        timings: records.timings,
        written: write_fitting(flags, found.as_slice(), out),
    }
}

// Writes findings that are the form's, where the buffer has room for them. Kept: flags and list beside each other, as the public calls take them.
// Kept: here and below at most fifteen is asked of a slice or of a count, since the public calls are lent a plain list of any length and have asked by then.
#[tactic(auto, unfolding(crate::specs::Write::written_over))]
fn write_fitting(flags: u8, list: &[Finding], out: &mut [u8]) -> Result<usize, Refusal>
    requires { length list.now ≤ 15 }
    ensures answer { result ≡ fitted (length list.now) (length out.old) }
    ensures later { out.new ≡ written_over (fitted (length list.now) (length out.old)) flags list.now out.old }
{
    let size = HEAD_BYTES + FINDING_BYTES * list.len();
    if out.len() < size {
        return Err(Refusal::BufferTooSmall);
    }
    put_report(flags, list, &mut out[..size]);
    Ok(size)
}

// The report over a place of its length.
// Kept: flags and list beside each other, as the public calls take them.
// Kept: places are reckoned from the count of findings, since std says nothing of what a slice ends as behind chunks_exact_mut.
#[tactic(auto, using(crate::proofs::Turns::rows))]
fn put_report(flags: u8, list: &[Finding], place: &mut [u8])
    requires few { length list.now ≤ 15 }
    requires room { length place.old ≡ head_size + finding_size * length list.now }
    ensures { place.new ≡ report_of flags list.now }
{
    put_head(flags, list.len(), place);
    for (i, finding) in list.iter().enumerate() {
        let at = HEAD_BYTES + FINDING_BYTES * i;
        put_finding(*finding, &mut place[at..at + FINDING_BYTES]);
    }
}

// The length, the version, the flags and the number of findings over the front of a place.
// Kept: `as`, since a number that is proved to fit is made narrower, and `try_from` would add an error that cannot be.
#[tactic(auto, using(crate::proofs::Turns::fronts))]
fn put_head(flags: u8, count: usize, place: &mut [u8])
    requires few { count ≤ 15 }
    requires room { head_size ≤ length place.old }
    ensures { take head_size place.new ≡ head_of flags count }
{
    let [high, low] = ((HEAD_BYTES - LENGTH_BYTES + FINDING_BYTES * count) as u16).to_be_bytes();
    place[..HEAD_BYTES].copy_from_slice(&[high, low, VERSION, flags, count as u8]);
}

// Code, sub and three numbers. Each number by itself is one store.
#[tactic(auto, using(crate::proofs::Turns::fronts))]
fn put_finding(f: Finding, place: &mut [u8])
    requires { length place.old ≡ finding_size }
    ensures { place.new ≡ finding_bytes f }
{
    place[..2].copy_from_slice(&[f.code, f.sub]);
    put_number(f.first, place, 2);
    put_number(f.second, place, 6);
    put_number(f.third, place, 10);
}

// A number's four bytes, highest first, from a place on.
#[tactic(auto, using(crate::proofs::Turns::fronts))]
fn put_number(n: u32, place: &mut [u8], at: usize)
    requires { at + 4 ≤ length place.old }
    ensures { take (at + 4) place.new ≡ take at place.old ++ big_endian n [] }
{
    place[at..at + 4].copy_from_slice(&n.to_be_bytes());
}

/// Bit 0: identity decoded. Bit 1: timings decoded.
pub fn flags_of(identity: Result<IdentityAndBase, Refusal>, timings: Result<Timings, Refusal>) -> u8
    ensures { result ≡ flags_of identity «timings» }
{
    u8::from(identity.is_ok()) + 2 * u8::from(timings.is_ok())
}

/// Reads a report into a lent list of at least fifteen places. Bytes after the report are not looked at.
#[tactic(auto, using(crate::proofs::Trip::few_held), unfolding(crate::specs::Read::read_of, crate::specs::Read::read_after, findings::specs::Hold::holding))]
pub fn read(bytes: &[u8], list: &mut [Finding]) -> Result<Counted, Refusal>
    ensures answer { result ≡ read_of bytes.now (length list.old) }
    ensures later { list.new ≡ read_after bytes.now list.old }
{
    if list.len() < MOST_FINDINGS {
        return Err(Refusal::ListTooShort);
    }
    let Reading { answer, findings } = read_findings(bytes);
    list[..findings.count].copy_from_slice(&findings.items[..findings.count]);
    answer
}

/// What `read` answers of a list of so many places.
pub fn read_reply(len: usize, answer: Result<Counted, Refusal>) -> Result<Counted, Refusal>
    ensures { result ≡ read_replied len answer }
{
    if len < MOST_FINDINGS {
        return Err(Refusal::ListTooShort);
    }
    answer
}

/// Reads a report by value.
pub fn read_findings(bytes: &[u8]) -> Reading
    ensures { result ≡ reading_of bytes.now }
{
    match accept(bytes) {
        Ok((counted, findings)) => Reading {
            answer: Ok(counted),
            findings,
        },
        Err(why) => Reading {
            answer: Err(why),
            findings: Findings {
                items: findings::blanks(),
                count: 0,
            },
        },
    }
}

// What a report says, where each of its findings is one of the table's.
fn accept(bytes: &[u8]) -> Result<(Counted, Findings), Refusal>
    ensures { result ≡ accepted_of (content_of bytes.now) }
{
    let start = read_start(bytes)?;
    let findings = read_body(&bytes[HEAD_BYTES..], start.count);
    if !all_in(&findings.items[..start.count]) {
        return Err(Refusal::ReportMalformed);
    }
    Ok((start, findings))
}

// What stands before the findings, and room for these.
#[tactic(auto, unfolding(crate::specs::Body::start_of))]
fn read_start(bytes: &[u8]) -> Result<Counted, Refusal>
    ensures start { result ≡ start_of bytes.now }
    ensures room { IfOk result (λ c. head_size + finding_size * c.count ≤ length bytes.now) }
    ensures few { IfOk result (λ c. c.count ≤ 15) }
{
    if bytes.len() < LENGTH_BYTES {
        return Err(Refusal::ReportCut);
    }
    let rest = usize::from(u16::from_be_bytes([bytes[0], bytes[1]]));
    if bytes.len() < LENGTH_BYTES + rest {
        return Err(Refusal::ReportCut);
    }
    if rest == 0 {
        return Err(Refusal::ReportMalformed);
    }
    if bytes[2] != VERSION {
        return Err(Refusal::ReportVersion);
    }
    if rest < HEAD_BYTES - LENGTH_BYTES {
        return Err(Refusal::ReportMalformed);
    }
    let flags = bytes[3];
    let count = usize::from(bytes[4]);
    if flags > MOST_FLAGS
        || count > MOST_FINDINGS
        || rest != HEAD_BYTES - LENGTH_BYTES + FINDING_BYTES * count
    {
        return Err(Refusal::ReportMalformed);
    }
    Ok(Counted { flags, count })
}

// So many findings, fourteen bytes each.
// Kept: places by number, since `items.iter_mut()` has the array lent out while the loop runs, and its invariant speaks of the array.
fn read_body(bytes: &[u8], count: usize) -> Findings
    requires few { count ≤ 15 }
    requires room { finding_size * count ≤ length bytes.now }
    ensures { result ≡ holding (findings_in bytes.now count) }
{
    let (records, _) = bytes.as_chunks::<FINDING_BYTES>();
    let mut items = findings::blanks();
    for (i, record) in records[..count].iter().enumerate() {
        items[i] = read_finding(record);
    }
    Findings { items, count }
}

// The form has no severity: the code gives it.
fn read_finding(bytes: &[u8; FINDING_BYTES]) -> Finding
    ensures { result ≡ finding_in bytes.now }
{
    let [code, sub, a0, a1, a2, a3, b0, b1, b2, b3, c0, c1, c2, c3] = *bytes;
    Finding {
        code,
        severity: limits_of(code).severity,
        sub,
        first: u32::from_be_bytes([a0, a1, a2, a3]),
        second: u32::from_be_bytes([b0, b1, b2, b3]),
        third: u32::from_be_bytes([c0, c1, c2, c3]),
    }
}

// Whether all of them are the report table's.
fn all_in(list: &[Finding]) -> bool
    ensures { result ≡ list_all in_table list.now }
{
    list.iter().all(|&f| in_table(f))
}

/// Whether a finding is one of the report table's.
#[tactic(auto, unfolding(rules::specs::Table::in_table))]
pub fn in_table(f: Finding) -> bool
    ensures { result ≡ in_table f }
{
    limits_of(f.code).contains(f)
}

// A row of the report table: the severity, the lowest and the highest sub, and the most that each number may be.
#[derive(Clone, Copy)]
struct Limits {
    severity: Severity,
    subs: (u8, u8),
    most: (u32, u32, u32),
}

impl Limits {
    // Whether every part of a finding is within the row's limits.
    fn contains(self, f: Finding) -> bool
        ensures { result ≡ in_limits self f }
    {
        self.severity == f.severity
            && self.subs.0 <= f.sub
            && f.sub <= self.subs.1
            && f.first <= self.most.0
            && f.second <= self.most.1
            && f.third <= self.most.2
    }
}

// The row of a code. No sub fits any other code.
#[tactic(auto, unfolding(rules::specs::Table::row_of))]
fn limits_of(code: u8) -> Limits
    ensures { IsLimited (row_of code) result }
{
    let (severity, subs, most) = match code {
        1 => (Severity::Error, (0, 0), (65_535, 65_535, 0)),
        2 => (Severity::Error, (0, 0), (ANY, ANY, ANY)),
        3 => (Severity::Error, (1, 2), (ANY, ANY, 0)),
        4 => (Severity::Warning, (0, 0), (ANY, ANY, 0)),
        5 => (Severity::Error, (0, 0), (65_535, 0, 0)),
        6 => (Severity::Warning, (1, 2), (ANY, ANY, 0)),
        7 => (Severity::Info, (0, 0), (ANY, 0, 0)),
        8 => (Severity::Warning, (0, 0), (65_535, 255, 0)),
        9 => (Severity::Error, (1, 3), (255, 0, 0)),
        _ => (Severity::Info, (1, 0), (0, 0, 0)),
    };
    Limits {
        severity,
        subs,
        most,
    }
}
