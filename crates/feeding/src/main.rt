//! Runs what is only run of feeding by pieces, and writes what happened: the bench lines on pieces, the run of the forty certificates,
//! every cut of an image into two, bursts out of order, a run up to the longest image, two reads of which one is sound, and all of an image's
//! cuts under each edition.
//!
//! A state answers as the whole image does where every field of each record, or the refusal and what it carries, and every finding with
//! all its numbers are the same. Where fields that differ are counted, each is made one number, a time and its clocks together.
#![tactic(auto)]

ghost use Rattle.std.specs.Prelude.{◌≤◌, length};

use crc::SoundRead;
use decoders::identity::IdentityAndBase;
use decoders::timing::{TimingPair, Timings};
use findings::Findings;
use manufacturing::{DateMode, Manufacturing, PartNumber};
use pieces::{Fed, Pieces};
use printing::{refused, text};
use reading::Refusal;
use rules::Edition;
use std::io;

// The bytes of the image that is fed.
const BYTES: usize = 576;

// The bytes of a burst.
const BURST: usize = 16;

// The most fields that a record has, and the numbers of a refusal, which stand before them.
const FIELDS: usize = 20;

const REFUSED: usize = 3;

const NUMBERS: usize = REFUSED + FIELDS;

// What is answered of an image: three records, the block once more in the strict mode, the part number, the check of the base CRC and the
// findings.
#[derive(Clone, Copy, Debug, PartialEq, Eq)]
struct Answers {
    identity: Result<IdentityAndBase, Refusal>,
    timings: Result<Timings, Refusal>,
    block: Result<Manufacturing, Refusal>,
    strict: Result<Manufacturing, Refusal>,
    part: PartNumber,
    crc: Result<bool, Refusal>,
    findings: Findings,
}

// A record as numbers, one for each field, and zeros behind them.
trait Fields {
    fn fields(self) -> [u64; FIELDS];
}

impl Fields for IdentityAndBase {
    fn fields(self) -> [u64; FIELDS] {
        let mut n = [0; FIELDS];
        n[..17].copy_from_slice(&[
            self.spd_bytes_total.into(),
            two(self.spd_revision.major.into(), self.spd_revision.minor),
            self.device_type.code().into(),
            self.module_type.code().into(),
            self.hybrid.into(),
            self.density_per_die.gigabits().into(),
            self.package_type.code().into(),
            self.die_count.into(),
            self.row_address_bits.into(),
            self.column_address_bits.into(),
            self.io_width.bits().into(),
            self.bank_groups.count().into(),
            self.banks_per_bank_group.count().into(),
            self.package_ranks_per_channel.into(),
            self.rank_mix_asymmetric.into(),
            self.channels_per_dimm.into(),
            self.primary_bus_width_bits.into(),
        ]);
        n
    }
}

impl Fields for Timings {
    fn fields(self) -> [u64; FIELDS] {
        [
            self.tckavg_min.0.into(),
            self.tckavg_max.0.into(),
            self.supported_cas_latencies.0,
            self.taa.0.into(),
            self.trcd.0.into(),
            self.trp.0.into(),
            self.tras.0.into(),
            self.trc.0.into(),
            self.twr.0.into(),
            self.trfc1.0.into(),
            self.trfc2.0.into(),
            self.trfcsb.0.into(),
            pair(self.trrd_l),
            pair(self.tccd_l),
            pair(self.tccd_l_wr),
            pair(self.tccd_l_wr2),
            pair(self.tfaw),
            pair(self.twtr_l),
            pair(self.twtr_s),
            pair(self.trtp),
        ]
    }
}

impl Fields for Manufacturing {
    fn fields(self) -> [u64; FIELDS] {
        let mut n = [0; FIELDS];
        n[..10].copy_from_slice(&[
            self.module_manufacturer.bank.into(),
            self.module_manufacturer.code.into(),
            self.manufacturing_location.into(),
            self.manufacturing_date.year.into(),
            self.manufacturing_date.week.into(),
            self.serial_number.0.into(),
            self.revision_code.into(),
            self.dram_manufacturer.bank.into(),
            self.dram_manufacturer.code.into(),
            self.dram_stepping.into(),
        ]);
        n
    }
}

// The check's answer: 1 where the CRC fits.
impl Fields for bool {
    fn fields(self) -> [u64; FIELDS] {
        let mut n = [0; FIELDS];
        n[0] = self.into();
        n
    }
}

// A number with a byte behind it.
fn two(high: u32, low: u8) -> u64 {
    u64::from(high) * 256 + u64::from(low)
}

fn pair(p: TimingPair) -> u64 {
    two(p.time.0, p.clocks.0)
}

// A refusal's three numbers and a record's fields: where there is the one, the other is zeros.
// Kept: `as`, since there is no `From` from usize to u64.
fn numbers<T: Fields + Drop>(answer: Result<T, Refusal>) -> [u64; NUMBERS] {
    let mut n = [0; NUMBERS];
    match answer {
        Ok(record) => n[REFUSED..].copy_from_slice(&record.fields()),
        Err(why) => {
            n[0] = why.number().into();
            n[1] = why.first() as u64;
            n[2] = why.second() as u64;
        }
    }
    n
}

// How many of the numbers of two answers differ.
fn differ<T: Fields + Drop>(a: Result<T, Refusal>, b: Result<T, Refusal>) -> usize {
    unequal(&numbers(a), &numbers(b))
}

// In how many places two lists differ.
fn unequal<T: PartialEq>(a: &[T], b: &[T]) -> usize
    ensures { result ≤ length a.now }
{
    a.iter().zip(b).filter(|(x, y)| x != y).count()
}

// In how many places they are the same. Kept: beside `unequal`, since one function of both would take the comparison, which is all there is to either.
fn equal<T: PartialEq>(a: &[T], b: &[T]) -> usize {
    a.iter().zip(b).filter(|(x, y)| x == y).count()
}

// How many bytes of two part numbers differ, and one more where their lengths do.
fn unequal_parts(a: PartNumber, b: PartNumber) -> usize {
    unequal(&a.bytes, &b.bytes) + usize::from(a.len != b.len)
}

// Writes an answer, and hands the state back.
fn told(rt: &impl Print, fed: Fed) -> io::Result<Pieces> {
    match fed.answer {
        Ok(total) => print!(rt; " taken {total}")?,
        Err(why) => refused(rt, why)?,
    }
    Ok(fed.state)
}

// Every byte is seven more than the one before it, so that no field is as its neighbour or as what stands sixteen bytes further on.
// Kept: the place beside the byte, since the byte is reckoned from it, and `as`, since the remainder fits.
fn pattern() -> [u8; BYTES] {
    let mut image = [0; BYTES];
    for (i, byte) in image.iter_mut().enumerate() {
        *byte = ((7 * i + 3) % 256) as u8;
    }
    image
}

// The same with a DDR5 identity: a hybrid UDIMM of two 16-bit channels, with 3DS devices of 32 bits. It breaks rules of every code but 5 and 9.
// Its week is no digits, a space ends its part number, and its base CRC fits.
fn sample() -> [u8; BYTES] {
    let mut image = pattern();
    image[..8].copy_from_slice(&[0x30, 0x21, 0x12, 0x82, 0x64, 0x45, 0x60, 0x61]);
    image[234] = 0x29;
    image[235] = 0x21;
    image[550] = b' ';
    with_crc(image)
}

// With the CRC of its first 510 bytes behind them, low byte first.
fn with_crc(mut image: [u8; BYTES]) -> [u8; BYTES] {
    let (covered, _) = image.split_at(510);
    let crc = crc::crc16(covered);
    image[510..512].copy_from_slice(&crc.to_le_bytes());
    image
}

fn whole(image: &[u8], edition: Edition) -> Answers {
    Answers {
        identity: decoders::identity::decode_identity_and_base(image),
        timings: decoders::timing::decode_timings(image),
        block: manufacturing::decode_manufacturing(image, DateMode::AsIs),
        strict: manufacturing::decode_manufacturing(image, DateMode::Strict),
        part: manufacturing::part_number_kept(image),
        crc: crc::verify_base_crc(image),
        findings: rules::lint_image(image, edition).findings,
    }
}

// What a state answers, each question by itself.
fn asked(state: Pieces) -> Answers {
    Answers {
        identity: state.identity(),
        timings: state.timings(),
        block: state.manufacturing(DateMode::AsIs),
        strict: state.manufacturing(DateMode::Strict),
        part: state.part_number(),
        crc: state.verify_base_crc(),
        findings: state.lint_image().findings,
    }
}

// Whether a state answers as the whole image does.
fn verdict(rt: &impl Print, state: Pieces, image: &[u8], edition: Edition) -> io::Result<()> {
    let not = if asked(state) == whole(image, edition) {
        ""
    } else {
        " NOT"
    };
    println!(rt; "{not} as the whole image")
}

// An image in bursts, one of them sent twice.
fn forty(rt: &impl Print, image: &[u8], twice: usize) -> io::Result<Pieces> {
    let mut state = Pieces::of(Edition::Second);
    let (bursts, _) = image.as_chunks::<BURST>();
    for (at, burst) in (0..).step_by(BURST).zip(bursts) {
        state = state.feed(at, burst).state;
        if at == twice {
            state = told(rt, state.feed(at, burst))?;
        }
    }
    Ok(state)
}

// What the station made of the same bursts: each laid behind the last, so that all that follows lies sixteen bytes too far on.
fn by_arrival(image: [u8; BYTES], twice: usize) -> [u8; BYTES]
    requires { twice ≤ 560 }
{
    let mut shifted = image;
    let next = twice + BURST;
    shifted[next..].copy_from_slice(&image[twice..BYTES - BURST]);
    shifted
}

// The run of the forty certificates: the state answers as the whole image, and the image as it was taken by arrival does not.
fn certificates(rt: &impl Print, image: [u8; BYTES], twice: usize) -> io::Result<()>
    requires { twice ≤ 560 }
{
    print!(rt; "forty, the burst at {twice} twice:")?;
    let state = forty(rt, &image, twice)?;
    verdict(rt, state, &image, Edition::Second)?;
    let a = asked(state);
    let b = whole(&by_arrival(image, twice), Edition::Second);
    println!(rt;
        "by arrival: differ {} of 17 identity fields, {} of 20 timings, {} of 10 numbers of the block, {} of the part number, {} of 1 CRC check, {} findings",
        differ(a.identity, b.identity),
        differ(a.timings, b.timings),
        differ(a.block, b.block),
        unequal_parts(a.part, b.part),
        differ(a.crc, b.crc),
        unequal(&a.findings.items, &b.findings.items)
    )
}

// Two reads: which of them is sound, how many bytes its base block has, and how many of those are the image's.
fn two_reads(rt: &impl Print, first: &[u8], second: &[u8], image: &[u8]) -> io::Result<()> {
    match crc::sound_read(first, second) {
        Ok(SoundRead::First) => text(rt, b" the first,")?,
        Ok(SoundRead::Second) => text(rt, b" the second,")?,
        Err(why) => refused(rt, why)?,
    }
    let block = crc::base_block(first, second);
    print!(rt; " {} {}", block.len(), equal(block, image))
}

// Of a read that was taken by arrival and one that was not, in either order and each beside itself, and of one that ends before its CRC does.
fn reads(rt: &impl Print, image: &[u8; BYTES], bent: &[u8; BYTES]) -> io::Result<()> {
    text(rt, b"reads:")?;
    two_reads(rt, image, bent, image)?;
    two_reads(rt, bent, image, image)?;
    two_reads(rt, image, image, image)?;
    two_reads(rt, bent, bent, image)?;
    two_reads(rt, &image[..511], &image[..512], image)?;
    text(rt, b"\n")
}

// Whether an image that is cut in two there gives the answers.
fn cut_at(image: &[u8], cut: usize, edition: Edition, answers: &Answers) -> bool
    requires { cut ≤ length image.now }
{
    let (front, rest) = image.split_at(cut);
    let half = Pieces::of(edition).feed(0, front).state;
    asked(half.feed(cut, rest).state) == *answers
}

// How many of the cuts of an image into two give the whole image's answers.
fn cuts(image: &[u8], edition: Edition) -> usize {
    let answers = whole(image, edition);
    (0..=image.len())
        .filter(|&cut| cut_at(image, cut, edition, &answers))
        .count()
}

// Sixteen bytes taken, then offset 0 again.
fn bench(rt: &impl Print, image: &[u8; BYTES]) -> io::Result<()> {
    text(rt, b"bench")?;
    let burst = &image[..BURST];
    let once = told(rt, Pieces::of(Edition::Second).feed(0, burst))?;
    let again = told(rt, once.feed(0, burst))?;
    println!(rt; " {}", again.count())
}

// Bursts that come early are refused, and taken when their turn has come.
fn order(rt: &impl Print, image: &[u8; BYTES]) -> io::Result<()> {
    text(rt, b"order")?;
    let early = told(rt, Pieces::of(Edition::Second).feed(16, &image[16..32]))?;
    let first = told(rt, early.feed(0, &image[..16]))?;
    let early = told(rt, first.feed(32, &image[32..48]))?;
    let second = told(rt, early.feed(16, &image[16..32]))?;
    let last = told(rt, second.feed(32, &image[32..]))?;
    verdict(rt, last, image, Edition::Second)
}

// Up to 2,048 bytes: there an empty piece is taken, and one byte is not.
fn longest(rt: &impl Print, image: &[u8; BYTES]) -> io::Result<()> {
    text(rt, b"longest")?;
    let mut state = Pieces::of(Edition::Second);
    for (offset, len) in [
        (0, BYTES),
        (576, BYTES),
        (1152, BYTES),
        (1728, 320),
        (2048, 0),
        (2048, 1),
    ] {
        state = told(rt, state.feed(offset, &image[..len]))?;
    }
    verdict(rt, state, image, Edition::Second)
}

// An image that is still short answers as a short image.
fn short(rt: &impl Print, image: &[u8; BYTES]) -> io::Result<()> {
    text(rt, b"short")?;
    let part = &image[..100];
    let state = told(rt, Pieces::of(Edition::Second).feed(0, part))?;
    verdict(rt, state, part, Edition::Second)
}

// The codes of the findings.
fn codes(rt: &impl Print, found: &Findings) -> io::Result<()> {
    for one in found.items.iter().take(found.count) {
        print!(rt; " {}", one.code)?;
    }
    Ok(())
}

// What the image is like: its findings, and how many bytes are as the next one or as the one a burst further on, so that a shift would not
// show in them.
fn about(rt: &impl Print, image: &[u8; BYTES]) -> io::Result<()> {
    let answers = whole(image, Edition::Second);
    text(rt, b"image: codes")?;
    codes(rt, &answers.findings)?;
    println!(rt;
        ", neighbours alike {}, sixteen apart alike {}",
        equal(image, &image[1..]),
        equal(image, &image[BURST..])
    )?;
    println!(rt;
        "block: refused in the strict mode with {}, bytes of its part number {}",
        numbers(answers.strict)[0],
        answers.part.len
    )?;
    let crc = numbers(answers.crc);
    println!(rt;
        "crc: of nine digits {}, the image's is refused {}, fits {}",
        crc::crc16(b"123456789"),
        crc[0],
        crc[REFUSED]
    )
}

fn run(rt: &impl Print, image: &[u8; BYTES]) -> io::Result<()> {
    about(rt, image)?;
    bench(rt, image)?;
    println!(rt; "cuts {}", cuts(image, Edition::Second))?;
    order(rt, image)?;
    longest(rt, image)?;
    short(rt, image)
}

// The findings of an image under an edition, and how many of its cuts answer as it does.
fn under(rt: &impl Print, label: &[u8], image: &[u8; BYTES], edition: Edition) -> io::Result<()> {
    text(rt, label)?;
    codes(rt, &rules::lint_image(image, edition).findings)?;
    println!(rt; ", cuts {}", cuts(image, edition))
}

// A state that is made by an edition's number answers under that edition, and under edition 2 where the number is none.
fn by_number(rt: &impl Print, image: &[u8; BYTES], n: u32, edition: Edition) -> io::Result<()> {
    print!(rt; "fresh {n}:")?;
    let fresh = told(rt, Pieces::fresh(n))?;
    verdict(rt, fresh.feed(0, image).state, image, edition)
}

// The image with a cycle time of 250, and so a rate of 8000, which is on the second ladder alone.
fn editions(rt: &impl Print, mut image: [u8; BYTES]) -> io::Result<()> {
    image[20..22].copy_from_slice(&250u16.to_le_bytes());
    under(rt, b"edition 1: codes", &image, Edition::First)?;
    under(rt, b"edition 2: codes", &image, Edition::Second)?;
    by_number(rt, &image, 1, Edition::First)?;
    by_number(rt, &image, 2, Edition::Second)?;
    by_number(rt, &image, 3, Edition::Second)
}

fn main(rt: HostRuntime) -> io::Result<()> {
    let bytes = sample();
    run(&rt, &bytes)?;
    certificates(&rt, bytes, 0)?;
    certificates(&rt, bytes, 64)?;
    let bent = by_arrival(bytes, 64);
    reads(&rt, &bytes, &bent)?;
    editions(&rt, bytes)
}
