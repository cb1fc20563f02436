//! Manufacturing information block: bytes 512 to 554 of an image.
#![tactic(auto)]

ghost use Rattle.std.specs.Prelude.{◌≡◌, ◌≤◌, eqb, length};
ghost use Rattle.std.specs.List.{suffix_len};
ghost use Rattle.std.specs.Option.{option_copied};
ghost use Rattle.manufacturing.specs.Block.{maker_of, bcd_of, date_of, serial_of, digits, good_date, date_refused, manufacturing_of};
ghost use Rattle.manufacturing.specs.Part.{trimmed, field_of, part_of, part_kept_of};

use reading::Refusal;

// Byte offsets in the image.
const OFF_MODULE_MFR_ID: usize = 512;

const OFF_MFR_LOCATION: usize = 514;

const OFF_MFR_DATE: usize = 515;

const OFF_SERIAL: usize = 517;

const OFF_PART_NUMBER: usize = 521;

const PART_NUMBER_LEN: usize = 30;

const OFF_REVISION: usize = 551;

const OFF_DRAM_MFR_ID: usize = 552;

const OFF_DRAM_STEPPING: usize = 554;

// What is read: where its one range starts and how many bytes it has; and how many bytes there are up to the last of them.
// Kept: `as`, since a constant may not call `usize::from`.
const MANUFACTURING_RANGES: [(u16, u16); 1] = [(512, 43)];

const MANUFACTURING_BYTES: usize = MANUFACTURING_RANGES[0].0 as usize
    + MANUFACTURING_RANGES[0].1 as usize;

// The last week that a date may name.
const LAST_WEEK: u8 = 53;

/// A JEP-106 manufacturer: its bank, 1 where no continuation code precedes, and its code.
#[derive(Clone, Copy, Debug, PartialEq, Eq)]
pub struct ManufacturerId {
    pub bank: u8,
    pub code: u8,
}

/// A calendar year and a week of it.
#[derive(Clone, Copy, Debug, PartialEq, Eq)]
pub struct ManufacturingDate {
    pub year: u16,
    pub week: u8,
}

/// Four bytes, the first the highest.
#[derive(Clone, Copy, Debug, PartialEq, Eq)]
pub struct SerialNumber(pub u32);

/// The decoded block. The part number is not in it: a part of the image is handed back by a call of its own.
#[derive(Clone, Copy, Debug, PartialEq, Eq)]
pub struct Manufacturing {
    pub module_manufacturer: ManufacturerId,
    pub manufacturing_location: u8,
    pub manufacturing_date: ManufacturingDate,
    pub serial_number: SerialNumber,
    pub revision_code: u8,
    pub dram_manufacturer: ManufacturerId,
    pub dram_stepping: u8,
}

/// Whether a date that is none is decoded as it is, or refused.
#[derive(Clone, Copy, Debug, PartialEq, Eq)]
pub enum DateMode {
    AsIs,
    Strict,
}

/// A part number by value: its thirty bytes, and how many of them are left without the spaces that end them.
// Kept: bytes with a length beside them. The contract of `part_number_kept` promises thirty zeros and 0 for a short image, and the library has no heap.
#[derive(Clone, Copy, Debug, PartialEq, Eq)]
pub struct PartNumber {
    pub bytes: [u8; PART_NUMBER_LEN],
    pub len: usize,
}

/// The block of an image.
#[tactic(auto, using(crate::proofs::Reach::block_long, crate::proofs::Reach::block_short))]
pub fn decode_manufacturing(image: &[u8], mode: DateMode) -> Result<Manufacturing, Refusal>
    ensures { result ≡ manufacturing_of mode image.now }
{
    if image.len() < MANUFACTURING_BYTES {
        return Err(reading::truncated_in(image, &MANUFACTURING_RANGES));
    }
    let year = reading::byte_or_zero(image, OFF_MFR_DATE);
    let week = reading::byte_or_zero(image, OFF_MFR_DATE + 1);
    if date_refused(mode, year, week) {
        return Err(Refusal::StrictDate);
    }
    Ok(Manufacturing {
        module_manufacturer: decode_manufacturer_id(
            reading::byte_or_zero(image, OFF_MODULE_MFR_ID),
            reading::byte_or_zero(image, OFF_MODULE_MFR_ID + 1),
        ),
        manufacturing_location: reading::byte_or_zero(image, OFF_MFR_LOCATION),
        manufacturing_date: decode_date(year, week),
        serial_number: decode_serial_number(
            reading::byte_or_zero(image, OFF_SERIAL),
            reading::byte_or_zero(image, OFF_SERIAL + 1),
            reading::byte_or_zero(image, OFF_SERIAL + 2),
            reading::byte_or_zero(image, OFF_SERIAL + 3),
        ),
        revision_code: reading::byte_or_zero(image, OFF_REVISION),
        dram_manufacturer: decode_manufacturer_id(
            reading::byte_or_zero(image, OFF_DRAM_MFR_ID),
            reading::byte_or_zero(image, OFF_DRAM_MFR_ID + 1),
        ),
        dram_stepping: reading::byte_or_zero(image, OFF_DRAM_STEPPING),
    })
}

/// The part number: a part of the caller's image, without the spaces that end it, and an empty part where the image is too short.
#[tactic(auto, using(crate::proofs::Trim::part_some, crate::proofs::Trim::part_no))]
pub fn part_number(image: &[u8]) -> &[u8]
    ensures { result.now ≡ part_of image.now }
{
    match part_field(image) {
        Some(field) => trim_spaces(field),
        None => &image[..0],
    }
}

/// The same by value, for an image that does not last; thirty zeros of which none counts where the image is too short.
#[tactic(auto, using(crate::proofs::Trim::kept_some, crate::proofs::Trim::kept_no))]
pub fn part_number_kept(image: &[u8]) -> PartNumber
    ensures { result ≡ part_kept_of image.now }
{
    match part_field(image) {
        Some(field) => PartNumber {
            bytes: *field,
            len: trim_spaces(field).len(),
        },
        None => PartNumber {
            bytes: [0; PART_NUMBER_LEN],
            len: 0,
        },
    }
}

// The thirty bytes of the part number, where no byte of the block is missing.
#[tactic(auto, using(crate::proofs::Trim::field_long, crate::proofs::Trim::field_short))]
fn part_field(image: &[u8]) -> Option<&[u8; PART_NUMBER_LEN]>
    ensures { option_copied result ≡ field_of image.now }
{
    if image.len() < MANUFACTURING_BYTES {
        return None;
    }
    image[OFF_PART_NUMBER..OFF_REVISION].first_chunk::<PART_NUMBER_LEN>()
}

// Bit 7 of both bytes is parity. Kept: byte by byte, as `maker_of` takes them, and so are the bytes of the serial number for `serial_of`.
fn decode_manufacturer_id(lsb: u8, msb: u8) -> ManufacturerId
    ensures { result ≡ maker_of lsb msb }
{
    ManufacturerId {
        bank: (lsb & 0x7F) + 1,
        code: msb & 0x7F,
    }
}

// Two decimal digits, one to a nibble. A nibble that is none counts as what it is, so that 0xFF is 165.
fn bcd(byte: u8) -> u8
    ensures { result ≡ bcd_of byte }
{
    (byte >> 4) * 10 + (byte & 0x0F)
}

// Kept: two bytes beside each other, here and below, as `date_of`, `date_refused` and `good_date` of specs/Block.antt take them.
fn decode_date(year_byte: u8, week_byte: u8) -> ManufacturingDate
    ensures { result ≡ date_of year_byte week_byte }
{
    ManufacturingDate {
        year: 2000 + u16::from(bcd(year_byte)),
        week: bcd(week_byte),
    }
}

fn decode_serial_number(b0: u8, b1: u8, b2: u8, b3: u8) -> SerialNumber
    ensures { result ≡ serial_of b0 b1 b2 b3 }
{
    SerialNumber(u32::from_be_bytes([b0, b1, b2, b3]))
}

// Whether a mode refuses the two bytes of a date.
fn date_refused(mode: DateMode, year_byte: u8, week_byte: u8) -> bool
    ensures { result ≡ date_refused mode year_byte week_byte }
{
    matches!(mode, DateMode::Strict) && !good_date(year_byte, week_byte)
}

// Whether two bytes are a date: decimal digits, and a week from 1 to 53.
fn good_date(year_byte: u8, week_byte: u8) -> bool
    ensures { result ≡ good_date year_byte week_byte }
{
    is_digits(year_byte) && is_digits(week_byte) && (1..=LAST_WEEK).contains(&bcd(week_byte))
}

// Whether both nibbles of a byte are decimal digits.
fn is_digits(byte: u8) -> bool
    ensures { result ≡ digits byte }
{
    byte >> 4 < 10 && byte & 0x0F < 10
}

// Without the spaces that end it.
#[tactic(auto, using(crate::proofs::Trim::trim_counted))]
fn trim_spaces(field: &[u8]) -> &[u8]
    ensures { result.now ≡ trimmed field.now }
{
    &field[..field.len() - count_spaces(field)]
}

// How many spaces end it.
fn count_spaces(field: &[u8]) -> usize
    ensures count { result ≡ suffix_len (λ byte. eqb byte 0x20) field.now }
    ensures bound { result ≤ length field.now }
{
    field.iter().rev().take_while(|&&byte| byte == b' ').count()
}
