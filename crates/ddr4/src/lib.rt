//! DDR4 images: sizes, and times that are units of 125 ps with a signed fine byte.
#![tactic(auto)]

ghost use Rattle.std.specs.Prelude.{◌≡◌, ◌+◌, ◌*◌, ◌^◌, ◌%◌, ◌<◌, ◌≤◌, IfOk};
ghost use Rattle.ddr4.specs.Module.{ddr4_of};
ghost use Rattle.ddr4.specs.Parts.{ddr4_type_of, code_of, whole_time_of};

use reading::Refusal;

// Byte offsets in the image.
const OFF_DEVICE_TYPE: usize = 2;

const OFF_DENSITY: usize = 4;

const OFF_IO_WIDTH: usize = 12;

const OFF_BUS_WIDTH: usize = 13;

const OFF_TIMEBASE: usize = 17;

const OFF_TCK: usize = 18;

const OFF_TAA: usize = 24;

const OFF_TRCD: usize = 25;

const OFF_TRP: usize = 26;

const OFF_TRAS_TRC_HIGH: usize = 27;

const OFF_TRAS: usize = 28;

const OFF_TRC: usize = 29;

const OFF_TRC_FINE: usize = 120;

const OFF_TRP_FINE: usize = 121;

const OFF_TRCD_FINE: usize = 122;

const OFF_TAA_FINE: usize = 123;

const OFF_TCK_FINE: usize = 125;

// What is read: where each range starts and how many bytes it has; and how many bytes there are up to the last of them.
const DDR4_RANGES: [(u16, u16); 7] = [
    (2, 1),
    (4, 1),
    (12, 2),
    (17, 2),
    (24, 6),
    (120, 4),
    (125, 1),
];

const DDR4_BYTES: usize = OFF_TCK_FINE + 1;

// What byte 2 of a DDR4 image is.
const DEVICE_DDR4: u8 = 0x0C;

// A unit of time, in picoseconds.
const UNIT: u16 = 125;

// What refusal 3 calls each field, and refusal 15 each time.
// Kept: numbers, since the refusals are public and carry what documents 01 and 02 call a field and a time.
const FIELD_TIMEBASE: u8 = 21;

const FIELD_DENSITY: u8 = 22;

const FIELD_IO_WIDTH: u8 = 23;

const FIELD_BUS_WIDTH: u8 = 24;

const PLACE_TCK: u8 = 1;

const PLACE_TAA: u8 = 2;

const PLACE_TRCD: u8 = 3;

const PLACE_TRP: u8 = 4;

const PLACE_TRC: u8 = 5;

/// The decoded image; times in picoseconds.
#[derive(Clone, Copy, Debug, PartialEq, Eq)]
pub struct Ddr4 {
    pub megabits: u32,
    pub io_width_bits: u16,
    pub bus_width_bits: u16,
    pub tck: u32,
    pub taa: u32,
    pub trcd: u32,
    pub trp: u32,
    pub tras: u32,
    pub trc: u32,
}

/// The sizes and times of an image.
// Compiled into each of its callers, so that no record goes through memory.
#[inline(always)]
#[tactic(auto, using(crate::proofs::Steps::ddr4_short, crate::proofs::Steps::ddr4_steps))]
pub fn decode_ddr4(image: &[u8]) -> Result<Ddr4, Refusal>
    ensures { result ≡ ddr4_of image.now }
{
    if image.len() < DDR4_BYTES {
        return Err(reading::truncated_in(image, &DDR4_RANGES));
    }

    check_device_type(image[OFF_DEVICE_TYPE])?;
    decode_code(FIELD_TIMEBASE, bits_3_0(image[OFF_TIMEBASE]), 0)?;
    let density = decode_code(FIELD_DENSITY, bits_3_0(image[OFF_DENSITY]), 7)?;
    let io_width = decode_code(FIELD_IO_WIDTH, bits_2_0(image[OFF_IO_WIDTH]), 3)?;
    let bus_width = decode_code(FIELD_BUS_WIDTH, bits_2_0(image[OFF_BUS_WIDTH]), 3)?;
    let tck = decode_time(PLACE_TCK, image[OFF_TCK].into(), image[OFF_TCK_FINE])?;
    let taa = decode_time(PLACE_TAA, image[OFF_TAA].into(), image[OFF_TAA_FINE])?;
    let trcd = decode_time(PLACE_TRCD, image[OFF_TRCD].into(), image[OFF_TRCD_FINE])?;
    let trp = decode_time(PLACE_TRP, image[OFF_TRP].into(), image[OFF_TRP_FINE])?;
    let high_halves = image[OFF_TRAS_TRC_HIGH];
    let trc_units = joined(image[OFF_TRC], high_halves >> 4);
    let trc = decode_time(PLACE_TRC, trc_units, image[OFF_TRC_FINE])?;
    // tRAS has no fine byte.
    let tras_units = joined(image[OFF_TRAS], bits_3_0(high_halves));

    Ok(Ddr4 {
        megabits: doubled(256, density).into(),
        io_width_bits: doubled(4, io_width),
        bus_width_bits: doubled(8, bus_width),
        tck,
        taa,
        trcd,
        trp,
        tras: u32::from(UNIT) * u32::from(tras_units),
        trc,
    })
}

// Byte 2: DDR4 alone.
#[tactic(auto, unfolding(crate::specs::Parts::ddr4_type_of))]
fn check_device_type(byte2: u8) -> Result<(), Refusal>
    ensures { result ≡ ddr4_type_of byte2 }
{
    if byte2 != DEVICE_DDR4 {
        return Err(Refusal::NotDdr5(byte2));
    }
    Ok(())
}

// Bits 3-0 of a byte.
fn bits_3_0(byte: u8) -> u8
    ensures { result ≡ byte % 16 }
{
    byte & 0x0F
}

// Bits 2-0. Kept: beside `bits_3_0`, since one function of a mask would be `&` by another name.
fn bits_2_0(byte: u8) -> u8
    ensures { result ≡ byte % 8 }
{
    byte & 0x07
}

// The code of a field, which its table must have: the table goes from 0 to `last`.
#[tactic(auto, unfolding(crate::specs::Parts::code_of))]
fn decode_code(field: u8, code: u8, last: u8) -> Result<u8, Refusal>
    ensures answer { result ≡ code_of field last code }
    ensures few { IfOk result (λ code. code ≤ last) }
{
    if last < code {
        return Err(Refusal::UnknownEnum { field, value: code });
    }
    Ok(code)
}

// A first size, doubled as often as a code says.
fn doubled(first: u16, code: u8) -> u16
    requires { (first ≤ 256) × (code < 8) }
    ensures { result ≡ first * 2 ^ code }
{
    first << code
}

// A time in picoseconds, of units and a signed fine byte; it must not be below zero. Kept: `as`, since it is proved to fit then.
#[tactic(auto, unfolding(crate::specs::Parts::whole_time_of))]
fn decode_time(place: u8, units: u16, fine: u8) -> Result<u32, Refusal>
    ensures { result ≡ whole_time_of place units fine }
{
    let ps = i32::from(UNIT) * i32::from(units) + i32::from(fine.cast_signed());
    if ps < 0 {
        return Err(Refusal::NegativeTime(place));
    }
    Ok(ps as u32)
}

// A byte and the half byte above it.
fn joined(low: u8, high: u8) -> u16
    requires { high < 16 }
    ensures { result ≡ low + 256 * high }
{
    u16::from_le_bytes([low, high])
}
