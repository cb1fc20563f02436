//! What C calls: one export for each call of `roostcord`, under the same name, with the same promises. station/roostcord.h is the header.
#![tactic(auto)]

ghost use Rattle.std.specs.Prelude.{◌≡◌, ◌+◌, ◌*◌, ◌/◌, length};
ghost use Rattle.reading.specs.Pick.{pick};
ghost use Rattle.crc.specs.Base.{sound_number_of};
ghost use Rattle.report.specs.Write.{lint_report_of, lint_report_after};
ghost use Rattle.roostcord.specs.Word.{word_of, library_version};
ghost use Rattle.roostcord.specs.Chosen.{lint_in, lint_after};
ghost use Rattle.roostcord.specs.Numbers.{crc_number, ddr4_list, ddr4_lint_list, identity_list, timings_list, cas_numbers, clocks_list, manufacturing_list, part_list, report_list, listed_in, list_after};
ghost use Rattle.roostcord.specs.State.{edition_in, arrived_in, asked, short, fresh_in, fresh_after, feed_in, feed_after, taken_in};

/// The version of the library: major * 65536 + minor * 256 + patch.
#[unsafe(no_mangle)]
pub extern "C" fn roostcord_version() -> u32
    ensures { result ≡ library_version }
{
    roostcord::roostcord_version()
}

/// Lints an image under an edition, 1 or 2, and writes its report: how many bytes.
#[unsafe(no_mangle)]
pub extern "C" fn roostcord_lint(image: &[u8], edition: u32, report: &mut [u8]) -> i32
    ensures answer { result ≡ word_of (lint_in edition image.now (length report.old)) }
    ensures later { report.new ≡ lint_after edition image.now report.old }
{
    roostcord::roostcord_lint(image, edition, report)
}

/// Reads a report: its flags, then six numbers for each finding: code, severity (0 error, 1 warning, 2 info), sub and the three numbers.
#[unsafe(no_mangle)]
pub extern "C" fn roostcord_report(report: &[u8], out: &mut [u32]) -> i32
    ensures answer { result ≡ word_of (listed_in 91 (report_list report.now) (length out.old)) }
    ensures later { out.new ≡ list_after 91 (report_list report.now) out.old }
{
    roostcord::roostcord_report(report, out)
}

/// The identity of an image: eighteen numbers.
#[unsafe(no_mangle)]
pub extern "C" fn roostcord_identity(image: &[u8], out: &mut [u32]) -> i32
    ensures answer { result ≡ word_of (listed_in 18 (identity_list image.now) (length out.old)) }
    ensures later { out.new ≡ list_after 18 (identity_list image.now) out.old }
{
    roostcord::roostcord_identity(image, out)
}

/// The timings of an image: thirty numbers.
#[unsafe(no_mangle)]
pub extern "C" fn roostcord_timings(image: &[u8], out: &mut [u32]) -> i32
    ensures answer { result ≡ word_of (listed_in 30 (timings_list image.now) (length out.old)) }
    ensures later { out.new ≡ list_after 30 (timings_list image.now) out.old }
{
    roostcord::roostcord_timings(image, out)
}

/// The supported CAS latencies of an image, ascending: up to forty numbers.
#[unsafe(no_mangle)]
pub extern "C" fn roostcord_cas_latencies(image: &[u8], out: &mut [u16]) -> i32
    ensures answer { result ≡ word_of (listed_in 40 (cas_numbers image.now) (length out.old)) }
    ensures later { out.new ≡ list_after 40 (cas_numbers image.now) out.old }
{
    roostcord::roostcord_cas_latencies(image, out)
}

/// The clock table of an image: nine numbers.
#[unsafe(no_mangle)]
pub extern "C" fn roostcord_clocks(image: &[u8], out: &mut [u32]) -> i32
    ensures answer { result ≡ word_of (listed_in 9 (clocks_list image.now) (length out.old)) }
    ensures later { out.new ≡ list_after 9 (clocks_list image.now) out.old }
{
    roostcord::roostcord_clocks(image, out)
}

/// The manufacturing block of an image: eleven numbers. `strict` 0 takes the date as it is, any other number in the strict mode.
#[unsafe(no_mangle)]
pub extern "C" fn roostcord_manufacturing(image: &[u8], strict: u32, out: &mut [u32]) -> i32
    ensures answer { result ≡ word_of (listed_in 11 (manufacturing_list strict image.now) (length out.old)) }
    ensures later { out.new ≡ list_after 11 (manufacturing_list strict image.now) out.old }
{
    roostcord::roostcord_manufacturing(image, strict, out)
}

/// The part number of an image, without the spaces that end it: up to thirty bytes. Where it is refused, the block's call gives the number.
#[unsafe(no_mangle)]
pub extern "C" fn roostcord_part_number(image: &[u8], out: &mut [u8]) -> i32
    ensures answer { result ≡ word_of (listed_in 30 (part_list image.now) (length out.old)) }
    ensures later { out.new ≡ list_after 30 (part_list image.now) out.old }
{
    roostcord::roostcord_part_number(image, out)
}

/// Whether the CRC of an image's base block matches the one that is stored behind it: 1 or 0.
#[unsafe(no_mangle)]
pub extern "C" fn roostcord_crc(image: &[u8]) -> i32
    ensures { result ≡ word_of (crc_number image.now) }
{
    roostcord::roostcord_crc(image)
}

/// Which of two reads is long enough and has a CRC that fits: 1 or 2, the first where both do.
#[unsafe(no_mangle)]
pub extern "C" fn roostcord_sound_read(first: &[u8], second: &[u8]) -> i32
    ensures { result ≡ word_of (sound_number_of first.now second.now) }
{
    roostcord::roostcord_sound_read(first, second)
}

/// The record of a DDR4 image: nine numbers.
#[unsafe(no_mangle)]
pub extern "C" fn roostcord_ddr4(image: &[u8], out: &mut [u32]) -> i32
    ensures answer { result ≡ word_of (listed_in 9 (ddr4_list image.now) (length out.old)) }
    ensures later { out.new ≡ list_after 9 (ddr4_list image.now) out.old }
{
    roostcord::roostcord_ddr4(image, out)
}

/// The findings of a DDR4 image: six numbers for each, as in a report, up to three findings.
#[unsafe(no_mangle)]
pub extern "C" fn roostcord_ddr4_lint(image: &[u8], out: &mut [u32]) -> i32
    ensures answer { result ≡ word_of (listed_in 18 (ddr4_lint_list image.now) (length out.old)) }
    ensures later { out.new ≡ list_after 18 (ddr4_lint_list image.now) out.old }
{
    roostcord::roostcord_ddr4_lint(image, out)
}

/// Makes the first bytes a state of an edition, 1 or 2, that has taken nothing.
#[unsafe(no_mangle)]
pub extern "C" fn roostcord_pieces_fresh(state: &mut [u8], edition: u32) -> i32
    ensures answer { result ≡ word_of (fresh_in edition state.old) }
    ensures later { state.new ≡ fresh_after edition state.old }
{
    roostcord::roostcord_pieces_fresh(state, edition)
}

/// Feeds a piece to the state in the first bytes: the count of bytes taken.
#[unsafe(no_mangle)]
pub extern "C" fn roostcord_pieces_feed(state: &mut [u8], offset: usize, piece: &[u8]) -> i32
    ensures answer { result ≡ word_of (feed_in state.old offset piece.now) }
    ensures later { state.new ≡ feed_after state.old offset piece.now }
{
    roostcord::roostcord_pieces_feed(state, offset, piece)
}

/// The count of bytes that a state has taken.
#[unsafe(no_mangle)]
pub extern "C" fn roostcord_pieces_taken(state: &[u8]) -> i32
    ensures { result ≡ word_of (taken_in state.now) }
{
    roostcord::roostcord_pieces_taken(state)
}

/// The questions to a state are those to the image that has arrived, and linting goes by the state's edition.
#[unsafe(no_mangle)]
pub extern "C" fn roostcord_pieces_lint(state: &[u8], report: &mut [u8]) -> i32
    ensures answer { result ≡ word_of (asked state.now (lint_report_of (edition_in state.now) (arrived_in state.now) (length report.old))) }
    ensures later { report.new ≡ pick (short state.now) report.old (lint_report_after (edition_in state.now) (arrived_in state.now) report.old) }
{
    roostcord::roostcord_pieces_lint(state, report)
}

#[unsafe(no_mangle)]
pub extern "C" fn roostcord_pieces_identity(state: &[u8], out: &mut [u32]) -> i32
    ensures answer { result ≡ word_of (asked state.now (listed_in 18 (identity_list (arrived_in state.now)) (length out.old))) }
    ensures later { out.new ≡ pick (short state.now) out.old (list_after 18 (identity_list (arrived_in state.now)) out.old) }
{
    roostcord::roostcord_pieces_identity(state, out)
}

#[unsafe(no_mangle)]
pub extern "C" fn roostcord_pieces_timings(state: &[u8], out: &mut [u32]) -> i32
    ensures answer { result ≡ word_of (asked state.now (listed_in 30 (timings_list (arrived_in state.now)) (length out.old))) }
    ensures later { out.new ≡ pick (short state.now) out.old (list_after 30 (timings_list (arrived_in state.now)) out.old) }
{
    roostcord::roostcord_pieces_timings(state, out)
}

#[unsafe(no_mangle)]
pub extern "C" fn roostcord_pieces_cas_latencies(state: &[u8], out: &mut [u16]) -> i32
    ensures answer { result ≡ word_of (asked state.now (listed_in 40 (cas_numbers (arrived_in state.now)) (length out.old))) }
    ensures later { out.new ≡ pick (short state.now) out.old (list_after 40 (cas_numbers (arrived_in state.now)) out.old) }
{
    roostcord::roostcord_pieces_cas_latencies(state, out)
}

#[unsafe(no_mangle)]
pub extern "C" fn roostcord_pieces_clocks(state: &[u8], out: &mut [u32]) -> i32
    ensures answer { result ≡ word_of (asked state.now (listed_in 9 (clocks_list (arrived_in state.now)) (length out.old))) }
    ensures later { out.new ≡ pick (short state.now) out.old (list_after 9 (clocks_list (arrived_in state.now)) out.old) }
{
    roostcord::roostcord_pieces_clocks(state, out)
}

#[unsafe(no_mangle)]
pub extern "C" fn roostcord_pieces_manufacturing(state: &[u8], strict: u32, out: &mut [u32]) -> i32
    ensures answer { result ≡ word_of (asked state.now (listed_in 11 (manufacturing_list strict (arrived_in state.now)) (length out.old))) }
    ensures later { out.new ≡ pick (short state.now) out.old (list_after 11 (manufacturing_list strict (arrived_in state.now)) out.old) }
{
    roostcord::roostcord_pieces_manufacturing(state, strict, out)
}

#[unsafe(no_mangle)]
pub extern "C" fn roostcord_pieces_part_number(state: &[u8], out: &mut [u8]) -> i32
    ensures answer { result ≡ word_of (asked state.now (listed_in 30 (part_list (arrived_in state.now)) (length out.old))) }
    ensures later { out.new ≡ pick (short state.now) out.old (list_after 30 (part_list (arrived_in state.now)) out.old) }
{
    roostcord::roostcord_pieces_part_number(state, out)
}

#[unsafe(no_mangle)]
pub extern "C" fn roostcord_pieces_crc(state: &[u8]) -> i32
    ensures { result ≡ word_of (asked state.now (crc_number (arrived_in state.now))) }
{
    roostcord::roostcord_pieces_crc(state)
}
