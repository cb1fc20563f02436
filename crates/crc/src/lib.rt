//! CRC-16 of JESD400-5, the check of the base block by it, and the sound one of two reads.
#![tactic(auto)]

ghost use Rattle.std.specs.Prelude.{◌≡◌, ◌≤◌, fold, length, take};
ghost use Rattle.crc.specs.Crc.{byte_in, crc_from, crc_of};
ghost use Rattle.crc.specs.Base.{base_crc_of, sound_in, block_of, sound_read_of};

use reading::Refusal;

// The two bytes of the stored CRC, the low one first, behind the bytes that it covers.
const OFF_STORED_CRC_LSB: usize = 510;

const OFF_STORED_CRC_MSB: usize = 511;

// What is read: where its one range starts and how many bytes it has; and how many bytes there are up to the last of them.
// Kept: `as`, since a constant may not call `usize::from`.
const CRC_RANGES: [(u16, u16); 1] = [(0, 512)];

const CRC_BYTES: usize = CRC_RANGES[0].0 as usize + CRC_RANGES[0].1 as usize;

/// Which of two reads is the sound one.
#[derive(Clone, Copy, Debug, PartialEq, Eq)]
pub enum SoundRead {
    First,
    Second,
}

/// The CRC of bytes.
pub fn crc16(bytes: &[u8]) -> u16
    ensures { result ≡ crc_of bytes.now }
{
    crc16_from(0, bytes)
}

/// The CRC of bytes that follow others, from the CRC of those: so it runs over pieces. Eight bytes at a time, then byte by byte.
#[tactic(auto, using(crate::proofs::Eights::eights))]
pub fn crc16_from(before: u16, bytes: &[u8]) -> u16
    ensures { result ≡ crc_from before bytes.now }
{
    let (eights, rest) = bytes.as_chunks::<8>();
    crc16_rest(crc16_eights(before, eights), rest)
}

/// The check of an image: the CRC of bytes 0 to 509 against the stored one.
#[tactic(auto, using(crate::proofs::Refused::crc_long, crate::proofs::Refused::crc_short))]
pub fn verify_base_crc(image: &[u8]) -> Result<bool, Refusal>
    ensures { result ≡ base_crc_of image.now }
{
    if image.len() < CRC_BYTES {
        return Err(reading::truncated_in(image, &CRC_RANGES));
    }
    let stored = u16::from_le_bytes([image[OFF_STORED_CRC_LSB], image[OFF_STORED_CRC_MSB]]);
    Ok(crc16(front(image, OFF_STORED_CRC_LSB)) == stored)
}

/// The base block of the sound one of two reads: bytes 0 to 511 as a part of the caller's read, and an empty part where neither is sound.
#[tactic(auto, using(crate::proofs::Base::of_first, crate::proofs::Base::of_second, crate::proofs::Base::of_neither))]
pub fn base_block<'a>(first: &'a [u8], second: &'a [u8]) -> &'a [u8]
    ensures { result.now ≡ block_of first.now second.now }
{
    match sound_read(first, second) {
        Ok(SoundRead::First) => front(first, CRC_BYTES),
        Ok(SoundRead::Second) => front(second, CRC_BYTES),
        Err(_) => &first[..0],
    }
}

/// Which of two reads that block is of.
#[tactic(auto, unfolding(crate::specs::Base::sound_read_of))]
pub fn sound_read(first: &[u8], second: &[u8]) -> Result<SoundRead, Refusal>
    ensures { result ≡ sound_read_of first.now second.now }
{
    if is_sound(first) {
        Ok(SoundRead::First)
    } else if is_sound(second) {
        Ok(SoundRead::Second)
    } else {
        Err(Refusal::NeitherSound)
    }
}

// Whether a read is long enough and its CRC matches.
fn is_sound(read: &[u8]) -> bool
    ensures { result ≡ sound_in read.now }
{
    verify_base_crc(read).unwrap_or(false)
}

// The first bytes.
fn front(bytes: &[u8], len: usize) -> &[u8]
    requires { len ≤ length bytes.now }
    ensures { result.now ≡ take len bytes.now }
{
    &bytes[..len]
}

// Eight bytes at a time.
fn crc16_eights(before: u16, eights: &[[u8; 8]]) -> u16
    ensures { result ≡ fold crc_from before eights.now }
{
    eights
        .iter()
        .fold(before, |crc, eight| step_eight(crc, eight))
}

// Byte by byte: at most seven are left.
fn crc16_rest(before: u16, bytes: &[u8]) -> u16
    ensures { result ≡ crc_from before bytes.now }
{
    bytes.iter().fold(before, |crc, &byte| step(crc, byte))
}

// One byte, without a loop over its bits: x is the quotient of what leaves the register by the polynomial, and 0x1021 times x is what stays.
fn step(crc: u16, byte: u8) -> u16
    ensures { result ≡ byte_in crc byte }
{
    let v = crc ^ (u16::from(byte) << 8);
    let t = v >> 8;
    let x = t ^ (t >> 4);
    (v << 8) ^ ((x << 12) ^ (x << 5) ^ x)
}

// Eight bytes likewise, as one number of 64 bits with the register added to its front. The quotient by the polynomial comes from four lines,
// each of which squares the factor of the one before.
// Kept: `as`, since the remainder is proved to fit, and `try_from` would add an error that cannot be.
fn step_eight(crc: u16, eight: &[u8; 8]) -> u16
    ensures { result ≡ crc_from crc eight.now }
{
    let v = u64::from_be_bytes(*eight) ^ (u64::from(crc) << 48);
    let x1 = v ^ (v >> 4) ^ (v >> 11) ^ (v >> 16);
    let x2 = x1 ^ (x1 >> 8) ^ (x1 >> 22) ^ (x1 >> 32);
    let x4 = x2 ^ (x2 >> 16) ^ (x2 >> 44);
    let x = x4 ^ (x4 >> 32);
    (((x << 12) ^ (x << 5) ^ x) % 65536) as u16
}
