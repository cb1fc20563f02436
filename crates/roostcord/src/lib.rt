//! The station's library: what C calls, through the exports of `roostcord_c`. An answer of 0 or more is a count. Below zero it is a refusal: its
//! word with a minus sign, and nothing that was lent has changed. station/roostcord.h is the header.
#![tactic(auto)]

ghost use Rattle.std.specs.Prelude.{◌≡◌, ◌≤◌, IfOk, length};
ghost use Rattle.reading.specs.Pick.{pick};
ghost use Rattle.crc.specs.Base.{sound_number_of};
ghost use Rattle.report.specs.Write.{lint_report_of, lint_report_after};
ghost use Rattle.roostcord.specs.Word.{word_of, library_version};
ghost use Rattle.roostcord.specs.Chosen.{lint_in, lint_after};
ghost use Rattle.roostcord.specs.Numbers.{crc_number, ddr4_list, ddr4_lint_list, identity_list, timings_list, cas_numbers, clocks_list, mode_of, manufacturing_list, part_list, report_list, listed_in, list_after};
ghost use Rattle.roostcord.specs.Parts.{clock_table_in, labelled_in};
ghost use Rattle.roostcord.specs.State.{edition_in, arrived_in, asked, short, fresh_in, fresh_after, feed_in, feed_after, taken_in};

use crc::SoundRead;
use decoders::clocks::ClockTable;
use manufacturing::DateMode;
use numbers::{FINDING_NUMBERS, Labelled, put, put_findings, put_found, put_timings};
use reading::Refusal;
use rules::Edition;
use word::{refusal_word, word};

mod numbers;
mod state;
mod word;

// How many places a list needs that C lends: for a report its flags and fifteen findings, for a DDR4 image three findings.
const REPORT_PLACES: usize = 1 + findings::MOST * FINDING_NUMBERS;

const CAS_PLACES: usize = 40;

const PART_NUMBER_PLACES: usize = 30;

const DDR4_LINT_PLACES: usize = 3 * FINDING_NUMBERS;

/// The version of the library: major * 65536 + minor * 256 + patch.
pub fn roostcord_version() -> u32
    ensures { result ≡ library_version }
{
    0x020200
}

/// Lints an image under an edition, 1 or 2, and writes its report: how many bytes.
pub fn roostcord_lint(image: &[u8], edition: u32, report: &mut [u8]) -> i32
    ensures answer { result ≡ word_of (lint_in edition image.now (length report.old)) }
    ensures later { report.new ≡ lint_after edition image.now report.old }
{
    word(lint_by_number(image, edition, report))
}

/// Reads a report: its flags, then six numbers for each finding: code, severity (0 error, 1 warning, 2 info), sub and the three numbers.
pub fn roostcord_report(report: &[u8], out: &mut [u32]) -> i32
    ensures answer { result ≡ word_of (listed_in 91 (report_list report.now) (length out.old)) }
    ensures later { out.new ≡ list_after 91 (report_list report.now) out.old }
{
    word(read_report(report, out))
}

/// The identity of an image: eighteen numbers.
#[tactic(auto, unfolding(crate::specs::Numbers::identity_list))]
pub fn roostcord_identity(image: &[u8], out: &mut [u32]) -> i32
    ensures answer { result ≡ word_of (listed_in 18 (identity_list image.now) (length out.old)) }
    ensures later { out.new ≡ list_after 18 (identity_list image.now) out.old }
{
    word(put(decoders::identity::decode_identity_and_base(image), out))
}

/// The timings of an image: thirty numbers.
#[tactic(auto, unfolding(crate::specs::Numbers::timings_list))]
pub fn roostcord_timings(image: &[u8], out: &mut [u32]) -> i32
    ensures answer { result ≡ word_of (listed_in 30 (timings_list image.now) (length out.old)) }
    ensures later { out.new ≡ list_after 30 (timings_list image.now) out.old }
{
    word(put_timings(image, out))
}

/// The supported CAS latencies of an image, ascending: up to forty numbers.
pub fn roostcord_cas_latencies(image: &[u8], out: &mut [u16]) -> i32
    ensures answer { result ≡ word_of (listed_in 40 (cas_numbers image.now) (length out.old)) }
    ensures later { out.new ≡ list_after 40 (cas_numbers image.now) out.old }
{
    word(cas_latencies(image, out))
}

/// The clock table of an image: nine numbers.
#[tactic(auto, unfolding(crate::specs::Numbers::clocks_list))]
pub fn roostcord_clocks(image: &[u8], out: &mut [u32]) -> i32
    ensures answer { result ≡ word_of (listed_in 9 (clocks_list image.now) (length out.old)) }
    ensures later { out.new ≡ list_after 9 (clocks_list image.now) out.old }
{
    word(put(clock_table(image), out))
}

/// The manufacturing block of an image: eleven numbers. `strict` 0 takes the date as it is, any other number in the strict mode.
#[tactic(auto, using(crate::proofs::BlockNumbers::numbers_labelled), unfolding(crate::specs::Numbers::manufacturing_list))]
pub fn roostcord_manufacturing(image: &[u8], strict: u32, out: &mut [u32]) -> i32
    ensures answer { result ≡ word_of (listed_in 11 (manufacturing_list strict image.now) (length out.old)) }
    ensures later { out.new ≡ list_after 11 (manufacturing_list strict image.now) out.old }
{
    word(put(labelled(image, mode(strict)), out))
}

/// The part number of an image, without the spaces that end it: up to thirty bytes. Where it is refused, the block's call gives the number.
pub fn roostcord_part_number(image: &[u8], out: &mut [u8]) -> i32
    ensures answer { result ≡ word_of (listed_in 30 (part_list image.now) (length out.old)) }
    ensures later { out.new ≡ list_after 30 (part_list image.now) out.old }
{
    word(part_number(image, out))
}

// Kept: no `word` over a `map`: so fourteen instructions more were counted.
/// Whether the CRC of an image's base block matches the one that is stored behind it: 1 or 0.
#[tactic(auto, unfolding(crate::specs::Numbers::crc_number))]
pub fn roostcord_crc(image: &[u8]) -> i32
    ensures { result ≡ word_of (crc_number image.now) }
{
    match crc::verify_base_crc(image) {
        Ok(true) => 1,
        Ok(false) => 0,
        Err(why) => refusal_word(why),
    }
}

/// Which of two reads is long enough and has a CRC that fits: 1 or 2, the first where both do.
#[tactic(auto, unfolding(crc::specs::Base::sound_number_of))]
pub fn roostcord_sound_read(first: &[u8], second: &[u8]) -> i32
    ensures { result ≡ word_of (sound_number_of first.now second.now) }
{
    word(crc::sound_read(first, second).map(|read| match read {
        SoundRead::First => 1,
        SoundRead::Second => 2,
    }))
}

/// The record of a DDR4 image: nine numbers.
#[tactic(auto, unfolding(crate::specs::Numbers::ddr4_list))]
pub fn roostcord_ddr4(image: &[u8], out: &mut [u32]) -> i32
    ensures answer { result ≡ word_of (listed_in 9 (ddr4_list image.now) (length out.old)) }
    ensures later { out.new ≡ list_after 9 (ddr4_list image.now) out.old }
{
    word(put(ddr4::decode_ddr4(image), out))
}

/// The findings of a DDR4 image: six numbers for each, as in a report, up to three findings.
pub fn roostcord_ddr4_lint(image: &[u8], out: &mut [u32]) -> i32
    ensures answer { result ≡ word_of (listed_in 18 (ddr4_lint_list image.now) (length out.old)) }
    ensures later { out.new ≡ list_after 18 (ddr4_lint_list image.now) out.old }
{
    word(lint_ddr4(image, out))
}

/// Makes the first bytes a state of an edition, 1 or 2, that has taken nothing.
pub fn roostcord_pieces_fresh(state: &mut [u8], edition: u32) -> i32
    ensures answer { result ≡ word_of (fresh_in edition state.old) }
    ensures later { state.new ≡ fresh_after edition state.old }
{
    word(state::fresh(state, edition))
}

/// Feeds a piece to the state in the first bytes: the count of bytes taken.
pub fn roostcord_pieces_feed(state: &mut [u8], offset: usize, piece: &[u8]) -> i32
    ensures answer { result ≡ word_of (feed_in state.old offset piece.now) }
    ensures later { state.new ≡ feed_after state.old offset piece.now }
{
    word(state::feed(state, offset, piece))
}

/// The count of bytes that a state has taken.
pub fn roostcord_pieces_taken(state: &[u8]) -> i32
    ensures { result ≡ word_of (taken_in state.now) }
{
    word(state::taken(state))
}

// Kept: a call for a state beside each call for an image, and one record's call like the next, since C calls each by its name.
// Kept: each has its own `let .. else`: by `map_or` the proof of `later` did not close, since a proof knows nothing of what a closure wrote to a lent
// list. The CRC's call, which is lent none, goes like the others.
/// The questions to a state are those to the image that has arrived, and linting goes by the state's edition.
pub fn roostcord_pieces_lint(state: &[u8], report: &mut [u8]) -> i32
    ensures answer { result ≡ word_of (asked state.now (lint_report_of (edition_in state.now) (arrived_in state.now) (length report.old))) }
    ensures later { report.new ≡ pick (short state.now) report.old (lint_report_after (edition_in state.now) (arrived_in state.now) report.old) }
{
    let Some(image) = state::arrived(state) else {
        return refusal_word(Refusal::ListTooShort);
    };
    word(lint(image, state::edition(state), report))
}

pub fn roostcord_pieces_identity(state: &[u8], out: &mut [u32]) -> i32
    ensures answer { result ≡ word_of (asked state.now (listed_in 18 (identity_list (arrived_in state.now)) (length out.old))) }
    ensures later { out.new ≡ pick (short state.now) out.old (list_after 18 (identity_list (arrived_in state.now)) out.old) }
{
    let Some(image) = state::arrived(state) else {
        return refusal_word(Refusal::ListTooShort);
    };
    roostcord_identity(image, out)
}

pub fn roostcord_pieces_timings(state: &[u8], out: &mut [u32]) -> i32
    ensures answer { result ≡ word_of (asked state.now (listed_in 30 (timings_list (arrived_in state.now)) (length out.old))) }
    ensures later { out.new ≡ pick (short state.now) out.old (list_after 30 (timings_list (arrived_in state.now)) out.old) }
{
    let Some(image) = state::arrived(state) else {
        return refusal_word(Refusal::ListTooShort);
    };
    roostcord_timings(image, out)
}

pub fn roostcord_pieces_cas_latencies(state: &[u8], out: &mut [u16]) -> i32
    ensures answer { result ≡ word_of (asked state.now (listed_in 40 (cas_numbers (arrived_in state.now)) (length out.old))) }
    ensures later { out.new ≡ pick (short state.now) out.old (list_after 40 (cas_numbers (arrived_in state.now)) out.old) }
{
    let Some(image) = state::arrived(state) else {
        return refusal_word(Refusal::ListTooShort);
    };
    roostcord_cas_latencies(image, out)
}

pub fn roostcord_pieces_clocks(state: &[u8], out: &mut [u32]) -> i32
    ensures answer { result ≡ word_of (asked state.now (listed_in 9 (clocks_list (arrived_in state.now)) (length out.old))) }
    ensures later { out.new ≡ pick (short state.now) out.old (list_after 9 (clocks_list (arrived_in state.now)) out.old) }
{
    let Some(image) = state::arrived(state) else {
        return refusal_word(Refusal::ListTooShort);
    };
    roostcord_clocks(image, out)
}

pub fn roostcord_pieces_manufacturing(state: &[u8], strict: u32, out: &mut [u32]) -> i32
    ensures answer { result ≡ word_of (asked state.now (listed_in 11 (manufacturing_list strict (arrived_in state.now)) (length out.old))) }
    ensures later { out.new ≡ pick (short state.now) out.old (list_after 11 (manufacturing_list strict (arrived_in state.now)) out.old) }
{
    let Some(image) = state::arrived(state) else {
        return refusal_word(Refusal::ListTooShort);
    };
    roostcord_manufacturing(image, strict, out)
}

pub fn roostcord_pieces_part_number(state: &[u8], out: &mut [u8]) -> i32
    ensures answer { result ≡ word_of (asked state.now (listed_in 30 (part_list (arrived_in state.now)) (length out.old))) }
    ensures later { out.new ≡ pick (short state.now) out.old (list_after 30 (part_list (arrived_in state.now)) out.old) }
{
    let Some(image) = state::arrived(state) else {
        return refusal_word(Refusal::ListTooShort);
    };
    roostcord_part_number(image, out)
}

pub fn roostcord_pieces_crc(state: &[u8]) -> i32
    ensures { result ≡ word_of (asked state.now (crc_number (arrived_in state.now))) }
{
    let Some(image) = state::arrived(state) else {
        return refusal_word(Refusal::ListTooShort);
    };
    roostcord_crc(image)
}

// Lints an image under the edition of a number. Refusal 14 comes before all others.
#[tactic(auto, unfolding(crate::specs::Chosen::lint_in, crate::specs::Chosen::lint_after))]
fn lint_by_number(image: &[u8], edition: u32, report: &mut [u8]) -> Result<usize, Refusal>
    ensures answer { result ≡ lint_in edition image.now (length report.old) }
    ensures later { report.new ≡ lint_after edition image.now report.old }
    ensures small { IfOk result (λ n. n ≤ 215) }
{
    lint(image, rules::edition_of(edition)?, report)
}

#[tactic(auto, using(crate::proofs::Small::report_small))]
fn lint(image: &[u8], edition: Edition, report: &mut [u8]) -> Result<usize, Refusal>
    ensures answer { result ≡ lint_report_of edition image.now (length report.old) }
    ensures later { report.new ≡ lint_report_after edition image.now report.old }
    ensures small { IfOk result (λ n. n ≤ 215) }
{
    report::lint_report(image, edition, report).written
}

// A report's flags, and behind them six numbers for each finding.
#[tactic(auto, unfolding(crate::specs::Numbers::listed_in, crate::specs::Numbers::report_list, crate::specs::Numbers::list_after))]
fn read_report(report: &[u8], out: &mut [u32]) -> Result<usize, Refusal>
    ensures answer { result ≡ listed_in 91 (report_list report.now) (length out.old) }
    ensures later { out.new ≡ list_after 91 (report_list report.now) out.old }
    ensures small { IfOk result (λ n. n ≤ 91) }
{
    if out.len() < REPORT_PLACES {
        return Err(Refusal::ListTooShort);
    }
    let reading = report::read_findings(report);
    let head = reading.answer?;
    out[0] = head.flags.into();
    put_findings(&reading.findings.items[..head.count], 1, out);
    Ok(1 + FINDING_NUMBERS * head.count)
}

#[tactic(auto, using(crate::proofs::Small::cas_few), unfolding(crate::specs::Numbers::listed_in, crate::specs::Numbers::cas_numbers, crate::specs::Numbers::list_after, decoders::specs::Cas::cas_list_of, decoders::specs::Cas::cas_list_after))]
fn cas_latencies(image: &[u8], out: &mut [u16]) -> Result<usize, Refusal>
    ensures answer { result ≡ listed_in 40 (cas_numbers image.now) (length out.old) }
    ensures later { out.new ≡ list_after 40 (cas_numbers image.now) out.old }
    ensures small { IfOk result (λ n. n ≤ 40) }
{
    if out.len() < CAS_PLACES {
        return Err(Refusal::ListTooShort);
    }
    let timings = decoders::timing::decode_timings(image)?;
    timings.supported_cas_latencies.list(out)
}

fn clock_table(image: &[u8]) -> Result<ClockTable, Refusal>
    ensures { result ≡ clock_table_in image.now }
{
    decoders::clocks::clock_table(decoders::timing::decode_timings(image)?)
}

// The block, and how many bytes its part number has. Kept: `as`, since these are proved to fit.
#[tactic(auto, using(crate::proofs::Small::part_few))]
fn labelled(image: &[u8], mode: DateMode) -> Result<Labelled, Refusal>
    ensures { result ≡ labelled_in mode image.now }
{
    let block = manufacturing::decode_manufacturing(image, mode)?;
    let part_len = manufacturing::part_number(image).len() as u32;
    Ok(Labelled { block, part_len })
}

#[tactic(auto, using(crate::proofs::Small::part_few, crate::proofs::Small::part_whole), unfolding(crate::specs::Numbers::listed_in, crate::specs::Numbers::part_list, crate::specs::Numbers::list_after))]
fn part_number(image: &[u8], out: &mut [u8]) -> Result<usize, Refusal>
    ensures answer { result ≡ listed_in 30 (part_list image.now) (length out.old) }
    ensures later { out.new ≡ list_after 30 (part_list image.now) out.old }
    ensures small { IfOk result (λ n. n ≤ 30) }
{
    if out.len() < PART_NUMBER_PLACES {
        return Err(Refusal::ListTooShort);
    }
    manufacturing::decode_manufacturing(image, DateMode::AsIs)?;
    let part = manufacturing::part_number(image);
    reading::copy_bytes(part, out);
    Ok(part.len())
}

// What the three rules of a DDR4 record find, one behind the other.
#[tactic(auto, unfolding(crate::specs::Numbers::listed_in, crate::specs::Numbers::ddr4_lint_list, crate::specs::Numbers::list_after, ddr4rules::specs::Lint::ddr4_found))]
fn lint_ddr4(image: &[u8], out: &mut [u32]) -> Result<usize, Refusal>
    ensures answer { result ≡ listed_in 18 (ddr4_lint_list image.now) (length out.old) }
    ensures later { out.new ≡ list_after 18 (ddr4_lint_list image.now) out.old }
    ensures small { IfOk result (λ n. n ≤ 18) }
{
    if out.len() < DDR4_LINT_PLACES {
        return Err(Refusal::ListTooShort);
    }
    let said = ddr4rules::check_ddr4(ddr4::decode_ddr4(image)?);
    let one = put_found(said.devices, 0, out);
    let two = put_found(said.ras, one, out);
    Ok(put_found(said.rc, two, out))
}

// Which mode a caller's number asks for. Kept: a number, since C hands it.
fn mode(strict: u32) -> DateMode
    ensures { result ≡ mode_of strict }
{
    if strict == 0 {
        DateMode::AsIs
    } else {
        DateMode::Strict
    }
}
