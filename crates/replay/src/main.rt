//! Replays the Rust linter's answers: rebuilds each image of a list, asks the decoders and, under edition 2, the rules, and compares every
//! number and every severity with those of the list. First it runs the bench lines of document 01 that are not proved and not run elsewhere.
//!
//! The list comes on standard input. The file `stdin` beside src/ is what `judge/list.rs` writes when it is run as `list fixed`: the
//! answers of spdr (The-Open-Memory-Initiative-OMI/spdr at 6b0d2d55f1), with judge/vendor.rs for its one file that is not at hand.
//! `make list` makes it anew where the Rust is at hand, and compares. 16-bit and 32-bit values stand low byte first.
//!
//!     list    the eight letters ROOSTLST, the count of records (32 bits), the records
//!     record  the count of bytes that follow (16 bits), a kind (a byte), the rest
//!     kind 0  a base image: its bytes; behind them it is zero
//!     kind 1  an image: its length (16 bits), the count of bytes in which it differs from the last base image (8 bits), each of these as
//!             offset (16 bits) and value (8 bits), then the answers, as numbers
//!     kind 2  the same, where the answers are document 01's and docs/DIFFERENCES.md lists that the Rust answers otherwise
//!
//! A number is one byte below 254; or 254 and 16 bits; or 255 and 32 bits. The answers, in this order:
//!
//!     identity  0 and the record's eighteen numbers, or the refusal: its number and two values, 0 where it carries none
//!     timings   0 and the record's twenty-eight numbers without the CAS set, or the refusal
//!     rate      0 without timings, else 1 and the data rate
//!     cas       0 without timings, else 1, the count and the CAS latencies
//!     findings  the count, and of each code, severity (1 error, 2 warning, 3 info), sub and three numbers
//!     rated     0 without a rated profile, else 1 and its findings as above. An image of at least 672 bytes has one where byte 640 starts
//!               ROOSTCRD; behind it stand cycle time, tAA, tRCD, tRP, tRAS and data rate (32 bits each). judge/vendor.rs reads it too.
#![tactic(auto)]

ghost use Rattle.std.specs.Prelude.{◌≡◌, ◌<◌, ℕ, List, [], ◌∷◌};
ghost use Rattle.reading.specs.View.{view};
ghost use Rattle.reading.specs.Refusal.{told};
ghost use Rattle.decoders.specs.Identity.{identity_of};
ghost use Rattle.decoders.specs.Timing.{timings_of};
ghost use Rattle.rules.specs.declared.Edition.TheVariants.{Second};
ghost use Rattle.rules.specs.Lint.{findings_of};
ghost use Rattle.replay.specs.Held.{le16_in, le32_in, packed_in, behind, compared};
ghost use Rattle.replay.specs.Answers.{rank_of, refusal_numbers, identity_record, timing_record, said_numbers, rate_numbers};
ghost use Rattle.replay.specs.Answers.{finding_record, row_numbers, list_numbers, found_numbers};

use decoders::identity::IdentityAndBase;
use decoders::timing::{CasLatencies, Picoseconds, Timings};
use findings::{Finding, Findings, Severity};
use printing::text;
use reading::Refusal;
use rules::{Edition, RatedTimings};
use std::io::{ErrorKind, Read};
use std::{fmt, io};

// So many differences are told one by one; the others are only counted.
const TOLD: usize = 20;

// Where a rated profile stands in an image, and what it starts with.
const PROFILE_START: usize = 640;

const PROFILE_END: usize = 672;

const PROFILE_LETTERS: &[u8] = b"ROOSTCRD";

// What a list starts with.
const LIST_LETTERS: &[u8] = b"ROOSTLST";

// The longest record that is read, the longest image, and the image of the bench.
const RECORD_MAX: usize = 4096;

const IMAGE_MAX: usize = 2048;

const MODULE_BYTES: usize = 236;

// So many CAS latencies a set has at most.
const CAS_MAX: usize = 40;

// The place of a record's next number, and whether every number before it was ours.
// Kept: a flag beside the place, since held, held_all, all_same and same-all speak of both.
#[derive(Clone, Copy)]
struct Cursor {
    at: usize,
    same: bool,
}

// A record, and how far its numbers were compared with ours.
#[derive(Clone, Copy)]
struct Comparison<'a> {
    bytes: &'a [u8],
    cursor: Cursor,
}

// An answer of an image.
#[derive(Clone, Copy)]
enum Item {
    Identity,
    Timings,
    DataRate,
    CasLatencies,
    Findings,
    RatedFindings,
}

impl fmt::Display for Item {
    fn fmt<W: fmt::Write>(&self, f: &mut fmt::Formatter<W>) -> fmt::Result {
        f.write_str(match self {
            Item::Identity => "identity",
            Item::Timings => "timings",
            Item::DataRate => "data rate",
            Item::CasLatencies => "CAS latencies",
            Item::Findings => "findings",
            Item::RatedFindings => "rated findings",
        })
    }
}

// How an image's answers are not the list's.
#[derive(Clone, Copy)]
enum Fault {
    // The first of them that is another.
    Differs(Item),
    // The record does not end with its answers.
    Malformed,
}

// Why a replay ends before its list does.
#[derive(Drop)]
enum Stop {
    Malformed,
    Failed(io::Error),
}

impl From<io::Error> for Stop {
    fn from(e: io::Error) -> Self {
        Stop::Failed(e)
    }
}

// Where the replay stands.
#[derive(Drop)]
struct State {
    base: [u8; IMAGE_MAX],
    images: usize,
    differences: usize,
    listed: usize,
}

// Two bytes at a place, low byte first; a byte past the end is 0.
// Kept: this and le32, each its bytes by hand: tried as one `bytes_at` of N bytes by `from_fn`, and its proof did not close.
fn le16(bytes: &[u8], at: usize) -> u16
    requires { at < 131072 }
    ensures { result ≡ le16_in (view bytes.now) at }
{
    let low = reading::byte_or_zero(bytes, at);
    let high = reading::byte_or_zero(bytes, at + 1);
    u16::from_le_bytes([low, high])
}

// Four bytes at a place, low byte first.
fn le32(bytes: &[u8], at: usize) -> u32
    requires { at < 65600 }
    ensures { result ≡ le32_in (view bytes.now) at }
{
    let byte = |i| reading::byte_or_zero(bytes, at + i);
    u32::from_le_bytes([byte(0), byte(1), byte(2), byte(3)])
}

// The number at a place of a record, and the place behind it.
#[tactic(auto, unfolding(crate::specs::Held::packed_in, crate::specs::Held::behind))]
fn number(bytes: &[u8], at: usize) -> (u64, usize)
    requires { at < 65536 }
    ensures value { result.0 ≡ packed_in (view bytes.now) at }
    ensures next { result.1 ≡ behind (view bytes.now) at }
{
    match reading::byte_or_zero(bytes, at) {
        255 => (u64::from(le32(bytes, at + 1)), at + 5),
        254 => (u64::from(le16(bytes, at + 1)), at + 3),
        small => (u64::from(small), at + 1),
    }
}

// What the list has as numbers, one behind the other.
trait Numbers {
    ghost numbers_of: { Self → List ℕ };

    // Compares the next numbers of a record with its own.
    fn expected_by<'a>(self, next: Comparison<'a>) -> Comparison<'a>
        ensures { result ≡ compared next.entry (numbers_of self) };
}

impl Numbers for IdentityAndBase {
    ghost numbers_of = { identity_record };

    fn expected_by<'a>(self, next: Comparison<'a>) -> Comparison<'a> {
        next.expect_all(&[
            0,
            u32::from(self.spd_bytes_total),
            u32::from(self.spd_revision.major),
            u32::from(self.spd_revision.minor),
            u32::from(self.device_type.code()),
            u32::from(self.module_type.code()),
            u32::from(self.hybrid),
            u32::from(self.density_per_die.gigabits()),
            u32::from(self.package_type.code()),
            u32::from(self.die_count),
            u32::from(self.row_address_bits),
            u32::from(self.column_address_bits),
            u32::from(self.io_width.bits()),
            u32::from(self.bank_groups.count()),
            u32::from(self.banks_per_bank_group.count()),
            u32::from(self.package_ranks_per_channel),
            u32::from(self.rank_mix_asymmetric),
            u32::from(self.channels_per_dimm),
            u32::from(self.primary_bus_width_bits),
        ])
    }
}

impl Numbers for Timings {
    ghost numbers_of = { timing_record };

    fn expected_by<'a>(self, next: Comparison<'a>) -> Comparison<'a> {
        next.expect_all(&[
            0,
            self.tckavg_min.0,
            self.tckavg_max.0,
            self.taa.0,
            self.trcd.0,
            self.trp.0,
            self.tras.0,
            self.trc.0,
            self.twr.0,
            self.trfc1.0,
            self.trfc2.0,
            self.trfcsb.0,
            self.trrd_l.time.0,
            u32::from(self.trrd_l.clocks.0),
            self.tccd_l.time.0,
            u32::from(self.tccd_l.clocks.0),
            self.tccd_l_wr.time.0,
            u32::from(self.tccd_l_wr.clocks.0),
            self.tccd_l_wr2.time.0,
            u32::from(self.tccd_l_wr2.clocks.0),
            self.tfaw.time.0,
            u32::from(self.tfaw.clocks.0),
            self.twtr_l.time.0,
            u32::from(self.twtr_l.clocks.0),
            self.twtr_s.time.0,
            u32::from(self.twtr_s.clocks.0),
            self.trtp.time.0,
            u32::from(self.trtp.clocks.0),
        ])
    }
}

impl Numbers for Finding {
    ghost numbers_of = { finding_record };

    fn expected_by<'a>(self, next: Comparison<'a>) -> Comparison<'a> {
        next.expect_all(&[
            u32::from(self.code),
            rank(self.severity),
            u32::from(self.sub),
            self.first,
            self.second,
            self.third,
        ])
    }
}

impl Comparison<'_> {
    // Compares the next number of the record with ours.
    #[tactic(auto, unfolding(crate::specs::Held::held))]
    fn expect(self, ours: u64) -> Self
        ensures { result ≡ compared self.entry (ours ∷ []) }
    {
        let Cursor { at, same } = self.cursor;
        let cursor = if 65535 < at {
            Cursor { at, same: false }
        } else {
            let (theirs, next) = number(self.bytes, at);
            Cursor {
                at: next,
                same: theirs == ours && same,
            }
        };
        Comparison {
            bytes: self.bytes,
            cursor,
        }
    }

    // Compares the next numbers of the record with ours.
    fn expect_all(self, ours: &[u32]) -> Self
        ensures { result ≡ compared self.entry ours.now }
    {
        ours.iter()
            .copied()
            .fold(self, |so_far, n| so_far.expect(u64::from(n)))
    }

    // Kept: `as`, here and in the two that count, since there is no `From` from usize to u64.
    fn expect_refusal(self, why: Refusal) -> Self
        ensures { result ≡ compared self.entry (refusal_numbers (told why)) }
    {
        self.expect(u64::from(why.number()))
            .expect(why.first() as u64)
            .expect(why.second() as u64)
    }

    // What a decoder said.
    fn expect_answer<T: Numbers>(self, answer: Result<T, Refusal>) -> Self
        ensures { result ≡ compared self.entry (said_numbers T.numbers_of answer) }
    {
        match answer {
            Ok(numbers) => numbers.expected_by(self),
            Err(why) => self.expect_refusal(why),
        }
    }

    // The CAS latencies of a set, ascending, behind their count.
    fn expect_cas(self, set: CasLatencies) -> Self {
        let mut list = [0u16; CAS_MAX];
        match set.list(&mut list) {
            Ok(n) => list
                .iter()
                .take(n)
                .fold(self.expect(1).expect(n as u64), |so_far, &cl| {
                    so_far.expect(u64::from(cl))
                }),
            Err(_) => self.expect(0),
        }
    }

    // Findings one behind the other.
    fn expect_row(self, row: &[Finding]) -> Self
        ensures { result ≡ compared self.entry (row_numbers row.now) }
    {
        row.iter()
            .copied()
            .fold(self, |so_far, f| f.expected_by(so_far))
    }

    // Findings behind their count.
    #[tactic(auto, using(std::proofs::lemmas::List::take_min))]
    fn expect_findings(self, found: Findings) -> Self
        ensures { result ≡ compared self.entry (found_numbers found) }
    {
        let held = found.count.min(found.items.len());
        self.expect(found.count as u64)
            .expect_row(&found.items[..held])
    }

    // The answers of an image, each against the record's next numbers.
    fn check_identity(self, image: &[u8]) -> Self
        ensures { result ≡ compared self.entry (said_numbers identity_record (identity_of image.now)) }
    {
        self.expect_answer(decoders::identity::decode_identity_and_base(image))
    }

    fn check_timings(self, image: &[u8]) -> Self
        ensures { result ≡ compared self.entry (said_numbers timing_record (timings_of image.now)) }
    {
        self.expect_answer(decoders::timing::decode_timings(image))
    }

    fn check_rate(self, image: &[u8]) -> Self
        ensures { result ≡ compared self.entry (rate_numbers (timings_of image.now)) }
    {
        match decoders::timing::decode_timings(image) {
            Ok(t) => self.expect(1).expect(u64::from(t.base_data_rate_mt_s())),
            Err(_) => self.expect(0),
        }
    }

    fn check_cas(self, image: &[u8]) -> Self {
        match decoders::timing::decode_timings(image) {
            Ok(t) => self.expect_cas(t.supported_cas_latencies),
            Err(_) => self.expect(0),
        }
    }

    #[tactic(auto, using(crate::proofs::Rows::numbers_held))]
    fn check_findings(self, image: &[u8]) -> Self
        ensures { result ≡ compared self.entry (list_numbers (findings_of Second image.now)) }
    {
        self.expect_findings(rules::lint_image(image, Edition::Second).findings)
    }

    fn check_rated(self, image: &[u8]) -> Self {
        match profile_of(image) {
            Some(r) => self
                .expect(1)
                .expect_findings(rules::rated_findings(r, Edition::Second)),
            None => self.expect(0),
        }
    }

    // Goes on where every number so far is ours; else the answer that was compared last differs.
    fn same(self, item: Item) -> Result<Self, Fault> {
        if self.cursor.same {
            Ok(self)
        } else {
            Err(Fault::Differs(item))
        }
    }
}

// A severity's number in the list.
fn rank(s: Severity) -> u32
    ensures { result ≡ rank_of s }
{
    match s {
        Severity::Error => 1,
        Severity::Warning => 2,
        Severity::Info => 3,
    }
}

fn profile_of(image: &[u8]) -> Option<RatedTimings> {
    let profile = image.get(PROFILE_START..PROFILE_END)?;
    profile.starts_with(PROFILE_LETTERS).then(|| RatedTimings {
        cycle_time: Picoseconds(le32(profile, 8)),
        taa: Picoseconds(le32(profile, 12)),
        trcd: Picoseconds(le32(profile, 16)),
        trp: Picoseconds(le32(profile, 20)),
        tras: Picoseconds(le32(profile, 24)),
        data_rate_mt_s: le32(profile, 28),
    })
}

// Every answer of an image, up to the first that differs, against a record's numbers from a place on.
fn judge(bytes: &[u8], at: usize, image: &[u8]) -> Result<(), Fault> {
    let end = Comparison {
        bytes,
        cursor: Cursor { at, same: true },
    }
    .check_identity(image)
    .same(Item::Identity)?
    .check_timings(image)
    .same(Item::Timings)?
    .check_rate(image)
    .same(Item::DataRate)?
    .check_cas(image)
    .same(Item::CasLatencies)?
    .check_findings(image)
    .same(Item::Findings)?
    .check_rated(image)
    .same(Item::RatedFindings)?;
    if end.cursor.at == bytes.len() {
        Ok(())
    } else {
        Err(Fault::Malformed)
    }
}

// A base record: its bytes from 1 on.
fn base_of(bytes: &[u8]) -> [u8; IMAGE_MAX] {
    std::array::from_fn(|i| reading::byte_or_zero(bytes, i + 1))
}

impl State {
    fn new() -> Self {
        State {
            base: [0; IMAGE_MAX],
            images: 0,
            differences: 0,
            listed: 0,
        }
    }

    // The last base image with a record's changes: their count stands at 3, and they behind it.
    fn changed(&self, bytes: &[u8]) -> [u8; IMAGE_MAX] {
        let mut image = self.base;
        let count = usize::from(reading::byte_or_zero(bytes, 3));
        let (changes, _) = bytes.get(4..).unwrap_or(&[]).as_chunks::<3>();
        for &[low, high, value] in changes.iter().take(count) {
            let offset = usize::from(u16::from_le_bytes([low, high]));
            if let Some(byte) = image.get_mut(offset) {
                *byte = value;
            }
        }
        image
    }

    // Tells a difference, unless enough were told, and counts it.
    fn differs(&mut self, rt: &impl Print, item: Item) -> io::Result<()> {
        if self.differences < TOLD {
            println!(rt; "image {} differs: {item}", self.images)?;
        }
        self.differences = self.differences.saturating_add(1);
        Ok(())
    }

    // An image record: its length at 1, its answers behind the changes.
    fn image(&mut self, rt: &impl Print, bytes: &[u8]) -> Result<(), Stop> {
        self.images = self.images.saturating_add(1);
        let changes = usize::from(reading::byte_or_zero(bytes, 3));
        let changed = self.changed(bytes);
        let Some(image) = changed.get(..usize::from(le16(bytes, 1))) else {
            return Err(Stop::Malformed);
        };
        match judge(bytes, 4 + 3 * changes, image) {
            Ok(()) => Ok(()),
            Err(Fault::Differs(item)) => Ok(self.differs(rt, item)?),
            Err(Fault::Malformed) => Err(Stop::Malformed),
        }
    }

    // Acts on a record of any kind.
    fn act(&mut self, rt: &impl Print, bytes: &[u8]) -> Result<(), Stop> {
        match reading::byte_or_zero(bytes, 0) {
            0 => {
                self.base = base_of(bytes);
                Ok(())
            }
            1 => self.image(rt, bytes),
            2 => {
                self.listed = self.listed.saturating_add(1);
                self.image(rt, bytes)
            }
            _ => Err(Stop::Malformed),
        }
    }

    // Reads the next record and acts on it.
    fn step(&mut self, rt: &impl Print, input: &mut impl Read) -> Result<(), Stop> {
        let mut size = [0u8; 2];
        need(input, &mut size)?;
        let mut buffer = [0u8; RECORD_MAX];
        let Some(bytes) = buffer.get_mut(..usize::from(u16::from_le_bytes(size))) else {
            return Err(Stop::Malformed);
        };
        need(input, bytes)?;
        self.act(rt, bytes)
    }

    // So many records, one behind the other.
    fn records(&mut self, rt: &impl Print, input: &mut impl Read, count: u32) -> Result<(), Stop> {
        for _ in 0..count {
            self.step(rt, input)?;
        }
        Ok(())
    }

    // The letters, the count of records, the records, and nothing behind them.
    fn replay(&mut self, rt: &impl Print, input: &mut impl Read) -> Result<(), Stop> {
        let mut head = [0u8; 12];
        need(input, &mut head)?;
        if !head.starts_with(LIST_LETTERS) {
            return Err(Stop::Malformed);
        }
        let answer = self.records(rt, input, le32(&head, 8));
        if let Err(Stop::Failed(_)) = answer {
            return answer;
        }
        // A byte behind the records is asked for also where one of them is malformed: so a read that fails there is told, too.
        let mut one = [0u8; 1];
        if fill(input, &mut one)? {
            return Err(Stop::Malformed);
        }
        answer
    }
}

// Fills a buffer from the input: whether there was so much of it.
fn fill(input: &mut impl Read, buffer: &mut [u8]) -> io::Result<bool> {
    match input.read_exact(buffer) {
        Ok(()) => Ok(true),
        Err(e) if e.kind() == ErrorKind::UnexpectedEof => Ok(false),
        Err(e) => Err(e),
    }
}

// Fills it in a list that has so much.
fn need(input: &mut impl Read, buffer: &mut [u8]) -> Result<(), Stop> {
    if fill(input, buffer)? {
        Ok(())
    } else {
        Err(Stop::Malformed)
    }
}

// A sound module of 236 bytes: eight bits wide on a bus of 32, CL 40, with these row times and clocks.
// Kept: its own image, so that a program's output goes by what stands in it alone.
fn module(tck: u16, taa: u16, trcd: u16, trp: u16, tras: u16, trc: u16) -> [u8; MODULE_BYTES] {
    let mut image = [0u8; MODULE_BYTES];
    image[0] = 0x30;
    image[2] = 0x12;
    image[3] = 0x02;
    image[4] = 0x04;
    image[6] = 0x20;
    image[25] = 0x04;
    image[235] = 0x22;
    image[20..22].copy_from_slice(&tck.to_le_bytes());
    image[30..32].copy_from_slice(&taa.to_le_bytes());
    image[32..34].copy_from_slice(&trcd.to_le_bytes());
    image[34..36].copy_from_slice(&trp.to_le_bytes());
    image[36..38].copy_from_slice(&tras.to_le_bytes());
    image[38..40].copy_from_slice(&trc.to_le_bytes());
    image
}

// The codes of an image's findings, in order.
fn codes(rt: &impl Print, image: &[u8]) -> io::Result<()> {
    let found = rules::lint_image(image, Edition::Second).findings;
    for one in found.items.iter().take(found.count) {
        printing::number(rt, usize::from(one.code))?;
    }
    text(rt, b"\n")
}

// The bench lines of document 01 on an image that are not marked P. Those on pieces are run by `feeding`, and the printed listing is
// what `spdlint` is run on.
fn bench(rt: &impl Print) -> io::Result<()> {
    text(rt, b"tRC 48640, tRAS 32000, tRP 16640:")?;
    let sound = module(416, 16640, 16640, 16640, 32000, 48640);
    codes(rt, &sound)?;
    text(rt, b"bus 8, I/O 16:")?;
    let mut narrow = sound;
    narrow[6] = 0x40;
    narrow[235] = 0x20;
    codes(rt, &narrow)?;
    text(
        rt,
        b"tCK 400, tAA 401, tRCD 403, tRP 401, tRAS 402, tRC 401:",
    )?;
    let late = module(400, 401, 403, 401, 402, 401);
    codes(rt, &late)
}

fn main(rt: HostRuntime) -> io::Result<()> {
    bench(&rt)?;
    let mut state = State::new();
    let told = match state.replay(&rt, &mut rt.reader()) {
        Ok(()) => "replayed",
        Err(Stop::Malformed) => "MALFORMED LIST, replayed only",
        Err(Stop::Failed(e)) => return Err(e),
    };
    println!(rt;
        "{told} {} images: {} differences, {} listed",
        state.images, state.differences, state.listed
    )
}
