//! Reading a lent image: a byte at an offset, or a region, absent where the image is too short.
//! Every offset and every length has an answer, also where their sum would not fit in a usize.
#![tactic(auto)]

ghost use Rattle.std.specs.Prelude.{◌≡◌, ◌+◌, ◌≤◌, ◌++◌, None, fold, length, take, drop};
ghost use Rattle.reading.specs.View.{view};
ghost use Rattle.reading.specs.Lent.{laid};
ghost use Rattle.reading.specs.Refusal.{told, carried};
ghost use Rattle.reading.specs.Bytes.{byte_at, inside_at, region_of};
ghost use Rattle.reading.specs.Ranges.{ranges_of, first_lacking, smaller, missing_at, truncated_by};

use std::error::Error;
use std::fmt;

/// Why a call was refused; specs/Refusal.antt has document 01's number for each case. One enum for all layers.
#[derive(Clone, Copy, Debug, PartialEq, Eq)]
pub enum Refusal {
    /// The image lacks a byte that the decoder reads; the smallest such offset is carried.
    Truncated(usize),
    /// Byte 2 says another device type than the one that is decoded; it is carried.
    NotDdr5(u8),
    /// A code that its field's table does not have.
    UnknownEnum { field: u8, value: u8 },
    /// The lent list has too few places.
    ListTooShort,
    /// The piece's offset is not the count of bytes taken, which is carried.
    WrongOffset(usize),
    /// The image would pass 2,048 bytes.
    TooLong,
    /// The clock table was asked for a cycle time of 0.
    ZeroClock,
    /// The buffer is too small for the report.
    BufferTooSmall,
    /// The report ends before its length says.
    ReportCut,
    /// The report is of another version.
    ReportVersion,
    /// The report is otherwise not as document 01 has it.
    ReportMalformed,
    /// What is to be written is not the form's.
    NotReportable,
    /// In the strict mode, a date that is not decimal digits or whose week is not 1 to 53.
    StrictDate,
    /// The edition is neither 1 nor 2.
    UnknownEdition,
    /// A time of a DDR4 image is below zero; its place among them is carried, from 1.
    NegativeTime(u8),
    /// Of two reads neither is long enough and has a CRC that fits.
    NeitherSound,
}

impl Refusal {
    /// Document 01's number.
    pub fn number(self) -> u8
        ensures { result ≡ (told self).number }
    {
        match self {
            Refusal::Truncated(_) => 1,
            Refusal::NotDdr5(_) => 2,
            Refusal::UnknownEnum { .. } => 3,
            Refusal::ListTooShort => 4,
            Refusal::WrongOffset(_) => 5,
            Refusal::TooLong => 6,
            Refusal::ZeroClock => 7,
            Refusal::BufferTooSmall => 8,
            Refusal::ReportCut => 9,
            Refusal::ReportVersion => 10,
            Refusal::ReportMalformed => 11,
            Refusal::NotReportable => 12,
            Refusal::StrictDate => 13,
            Refusal::UnknownEdition => 14,
            Refusal::NegativeTime(_) => 15,
            Refusal::NeitherSound => 21,
        }
    }

    /// The first value that it carries, and 0 where it carries none.
    pub fn first(self) -> usize
        ensures { result ≡ (told self).first }
    {
        match self {
            Refusal::Truncated(offset) => offset,
            Refusal::NotDdr5(byte2) => byte2.into(),
            Refusal::UnknownEnum { field, .. } => field.into(),
            Refusal::WrongOffset(count) => count,
            Refusal::NegativeTime(place) => place.into(),
            _ => 0,
        }
    }

    /// The second, and 0 where it carries fewer than two.
    pub fn second(self) -> usize
        ensures { result ≡ (told self).second }
    {
        match self {
            Refusal::UnknownEnum { value, .. } => value.into(),
            _ => 0,
        }
    }

    /// How many values it carries.
    pub fn carries(self) -> usize
        ensures { result ≡ carried self }
    {
        match self {
            Refusal::UnknownEnum { .. } => 2,
            Refusal::Truncated(_)
            | Refusal::NotDdr5(_)
            | Refusal::WrongOffset(_)
            | Refusal::NegativeTime(_) => 1,
            _ => 0,
        }
    }
}

// Its number and what it carries, as a listing prints them.
impl fmt::Display for Refusal {
    fn fmt<W: fmt::Write>(&self, f: &mut fmt::Formatter<W>) -> fmt::Result {
        write!(f, "{}", self.number())?;
        for value in [self.first(), self.second()].iter().take(self.carries()) {
            write!(f, " {value}")?;
        }
        Ok(())
    }
}

impl Error for Refusal {}

/// The byte at an offset.
pub fn byte(image: &[u8], offset: usize) -> Option<u8>
    ensures { result ≡ byte_at (view image.now) offset }
{
    image.get(offset).copied()
}

/// The byte at an offset, and 0 past the end: what a decoder reads by once it has tested the length.
pub fn byte_or_zero(image: &[u8], offset: usize) -> u8
    ensures { result ≡ (view image.now).byte offset }
{
    byte(image, offset).unwrap_or(0)
}

/// Whether a region lies wholly inside the image.
pub fn inside(image: &[u8], offset: usize, len: usize) -> bool
    ensures { result ≡ inside_at (view image.now) offset len }
{
    offset <= image.len() && len <= image.len() - offset
}

/// The region as a part of the caller's image, and an empty part where it does not lie wholly inside.
pub fn slice(image: &[u8], offset: usize, len: usize) -> &[u8]
    ensures { result.now ≡ region_of image.now offset len }
{
    if inside(image, offset, len) {
        &image[offset..offset + len]
    } else {
        &image[..0]
    }
}

/// Copies bytes to the front of a lent place, as many as there is room for; what stands behind them stays.
pub fn copy_bytes(bytes: &[u8], place: &mut [u8])
    ensures { place.new ≡ take (length place.old) bytes.now ++ drop (length bytes.now) place.old }
{
    let n = bytes.len().min(place.len());
    let bytes = &bytes[..n];
    if n > 16 {
        copy_each(bytes, place)
    } else if n >= 8 {
        copy_ends::<8>(bytes, place)
    } else if n >= 4 {
        copy_ends::<4>(bytes, place)
    } else if n >= 2 {
        copy_ends::<2>(bytes, place)
    } else {
        copy_each(bytes, place)
    }
}

// One by one. Kept: a loop: `copy_from_slice` between two lent slices calls memmove, for which a C caller would have to link one more name.
#[inline(always)]
fn copy_each(bytes: &[u8], place: &mut [u8])
    requires { length bytes.now ≤ length place.old }
    ensures { place.new ≡ laid bytes.now place.old }
{
    for (i, &byte) in bytes.iter().enumerate() {
        place[i] = byte;
    }
}

// The first `W` and the last, which may overlap, each at once: a short piece by the loop takes up to half as long again.
#[inline(always)]
fn copy_ends<const W: usize>(bytes: &[u8], place: &mut [u8])
    requires long { (W ≤ length bytes.now) × (length bytes.now ≤ W + W) }
    requires room { length bytes.now ≤ length place.old }
    ensures { place.new ≡ laid bytes.now place.old }
{
    let last = bytes.len() - W;
    if let (Some(&front), Some(&back)) = (bytes.first_chunk::<W>(), bytes.last_chunk::<W>()) {
        place[..W].copy_from_slice(&front);
        place[last..last + W].copy_from_slice(&back);
    }
}

/// What a decoder reads stands in a table, each range by its start and how many bytes it has: the smallest offset of them that the image
/// lacks, where it lacks one.
pub fn first_missing_in(image: &[u8], ranges: &[(u16, u16)]) -> Option<usize>
    ensures { result ≡ missing_at ranges.now (view image.now) }
{
    smallest_missing_in(image, ranges)
}

/// Refusal 1 of an image that lacks a byte: with the smallest that it lacks, and with 0 where it lacks none.
pub fn truncated_in(image: &[u8], ranges: &[(u16, u16)]) -> Refusal
    ensures { result ≡ truncated_by (missing_at ranges.now (view image.now)) }
{
    Refusal::Truncated(first_missing_in(image, ranges).unwrap_or(0))
}

/// The same of two tables, one of starts and one of lengths; a start without a length is no range.
// Kept: two tables beside each other, since that is what `first_missing` and `truncated` promise for; their lengths may differ.
pub fn first_missing(image: &[u8], starts: &[u16], lengths: &[u16]) -> Option<usize>
    ensures { result ≡ missing_at (ranges_of starts.now lengths.now) (view image.now) }
{
    smallest_missing(image, starts, lengths)
}

/// Refusal 1 likewise, of two tables.
pub fn truncated(image: &[u8], starts: &[u16], lengths: &[u16]) -> Refusal
    ensures { result ≡ truncated_by (missing_at (ranges_of starts.now lengths.now) (view image.now)) }
{
    Refusal::Truncated(first_missing(image, starts, lengths).unwrap_or(0))
}

// The same, range by range. Kept: beside `smallest_missing_in`, since a function of any iterator would need a contract on what that yields, longer than this fold.
fn smallest_missing(image: &[u8], starts: &[u16], lengths: &[u16]) -> Option<usize>
    ensures { result ≡ fold (λ least range. smaller least (first_lacking (view image.now) range.0 range.1)) None (ranges_of starts.now lengths.now) }
{
    starts
        .iter()
        .zip(lengths)
        .fold(None, |least, (&start, &len)| {
            smaller_of(least, first_lacking(image, start, len))
        })
}

// The same, range by range.
fn smallest_missing_in(image: &[u8], ranges: &[(u16, u16)]) -> Option<usize>
    ensures { result ≡ fold (λ least range. smaller least (first_lacking (view image.now) range.0 range.1)) None ranges.now }
{
    ranges.iter().fold(None, |least, &(start, len)| {
        smaller_of(least, first_lacking(image, start, len))
    })
}

// The first offset of one range that the image lacks.
#[tactic(auto, using(crate::proofs::Lacking::lacks))]
fn first_lacking(image: &[u8], start: u16, len: u16) -> Option<usize>
    ensures { result ≡ first_lacking (view image.now) start len }
{
    let first = usize::from(start);
    let at = image.len().max(first);
    (at < first + usize::from(len)).then_some(at)
}

fn smaller_of(a: Option<usize>, b: Option<usize>) -> Option<usize>
    ensures { result ≡ smaller a b }
{
    match (a, b) {
        (Some(i), Some(j)) => Some(i.min(j)),
        (None, _) => b,
        (_, None) => a,
    }
}
