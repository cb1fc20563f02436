//! Base JEDEC timing block: bytes 20 to 93 of an image.
ghost use Rattle.std.specs.Prelude.{◌≡◌, ◌+◌, ◌<◌, ◌*◌, length, IfOk, IfErr, Ok, Err};
ghost use Rattle.reading.specs.View.{view};
ghost use Rattle.decoders.specs.Cas.{cas_of, in_set, cas_list_of, cas_list_after};
ghost use Rattle.decoders.specs.Timing.{le16_at, pair_at, cas_at, rate_of, times_at, timing_bytes_of, timings_of};

use reading::Refusal;

// Byte offsets in the image.
const OFF_TCKAVG_MIN: usize = 20;

const OFF_TCKAVG_MAX: usize = 22;

const OFF_CAS_LATENCIES: usize = 24;

const OFF_TAA: usize = 30;

const OFF_TRCD: usize = 32;

const OFF_TRP: usize = 34;

const OFF_TRAS: usize = 36;

const OFF_TRC: usize = 38;

const OFF_TWR: usize = 40;

const OFF_TRFC1: usize = 42;

const OFF_TRFC2: usize = 44;

const OFF_TRFCSB: usize = 46;

const OFF_TRRD_L: usize = 70;

const OFF_TCCD_L: usize = 73;

const OFF_TCCD_L_WR: usize = 76;

const OFF_TCCD_L_WR2: usize = 79;

const OFF_TFAW: usize = 82;

const OFF_TWTR_L: usize = 85;

const OFF_TWTR_S: usize = 88;

const OFF_TRTP: usize = 91;

// What is read: where each range starts and how many bytes it has; and how many bytes there are up to the last of them.
// Kept: `as`, since a constant may not call `usize::from`.
const TIMING_RANGES: [(u16, u16); 3] = [(20, 9), (30, 18), (70, 24)];

const TIMING_BYTES: usize = TIMING_RANGES[2].0 as usize + TIMING_RANGES[2].1 as usize;

/// A duration in picoseconds: every absolute time is kept so.
#[derive(Clone, Copy, Debug, PartialEq, Eq)]
pub struct Picoseconds(pub u32);

impl Picoseconds {
    /// The value in picoseconds.
    pub fn picoseconds(self) -> u32
        ensures { result ≡ self.0 }
    {
        self.0
    }
}

/// A count of clock cycles (nCK).
#[derive(Clone, Copy, Debug, PartialEq, Eq)]
pub struct ClockCycles(pub u8);

impl ClockCycles {
    /// The number of clock cycles.
    pub fn cycles(self) -> u8
        ensures { result ≡ self.0 }
    {
        self.0
    }
}

/// A timing stored as a time and as a count of clocks; the larger of the two binds.
#[derive(Clone, Copy, Debug, PartialEq, Eq)]
pub struct TimingPair {
    pub time: Picoseconds,
    pub clocks: ClockCycles,
}

/// The supported CAS latencies as a mask: bit k stands for CL 20 + 2k.
#[derive(Clone, Copy, Debug, PartialEq, Eq)]
pub struct CasLatencies(pub u64);

impl CasLatencies {
    pub const BASE_CL: u16 = 20;

    pub const BIT_COUNT: u32 = 40;

    /// The set that five bytes stand for, low byte first.
    // Kept: five bytes and no array, since the parameters of `from_bytes` may not change.
    pub fn from_bytes(b0: u8, b1: u8, b2: u8, b3: u8, b4: u8) -> Self
        ensures { result ≡ cas_of b0 b1 b2 b3 b4 }
    {
        let low = u32::from_le_bytes([b0, b1, b2, b3]);
        Self(u64::from(low) | (u64::from(b4) << 32))
    }

    /// Whether `cl` is in the supported set.
    pub fn contains(self, cl: u16) -> bool
        ensures { result ≡ in_set self cl }
    {
        if cl < Self::BASE_CL || (cl - Self::BASE_CL) % 2 != 0 {
            return false;
        }
        let bit = u32::from((cl - Self::BASE_CL) / 2);
        bit < Self::BIT_COUNT && (self.0 >> bit) & 1 != 0
    }

    /// The supported CAS latencies in ascending order, into a list of at least 40 places; places past their count stay.
    #[tactic(auto, using(crate::proofs::Listing::list_steps), unfolding(crate::specs::Cas::cas_list, crate::specs::Cas::cas_list_of, crate::specs::Cas::cas_list_after))]
    pub fn list(self, out: &mut [u16]) -> Result<usize, Refusal>
        ensures answer { result ≡ cas_list_of self out.old }
        ensures later { out.new ≡ cas_list_after self out.old }
    {
        if out.len() < Self::BIT_COUNT as usize {
            return Err(Refusal::ListTooShort);
        }
        // Kept: with `out.iter_mut().zip(..)` the proof did not close. And `as`, since `BIT_COUNT` is public and a `u32`.
        let mut n = 0;
        for bit in 0..Self::BIT_COUNT {
            let cl = Self::BASE_CL + 2 * bit as u16;
            if self.contains(cl) {
                out[n] = cl;
                n += 1;
            }
        }
        Ok(n)
    }
}

/// The decoded base timings of an image.
#[derive(Clone, Copy, Debug, PartialEq, Eq)]
pub struct Timings {
    /// Minimum and maximum average clock cycle time; the minimum sets the data rate.
    pub tckavg_min: Picoseconds,
    pub tckavg_max: Picoseconds,
    pub supported_cas_latencies: CasLatencies,
    /// CAS latency, RAS-to-CAS delay, row precharge, active-to-precharge, row cycle and write recovery times.
    pub taa: Picoseconds,
    pub trcd: Picoseconds,
    pub trp: Picoseconds,
    pub tras: Picoseconds,
    pub trc: Picoseconds,
    pub twr: Picoseconds,
    /// Refresh recovery times: normal, fine granularity, same bank.
    pub trfc1: Picoseconds,
    pub trfc2: Picoseconds,
    pub trfcsb: Picoseconds,
    /// Activate to activate, CAS to CAS (read, write, second write), four activates, write to read (same and
    /// different bank group), read to precharge.
    pub trrd_l: TimingPair,
    pub tccd_l: TimingPair,
    pub tccd_l_wr: TimingPair,
    pub tccd_l_wr2: TimingPair,
    pub tfaw: TimingPair,
    pub twtr_l: TimingPair,
    pub twtr_s: TimingPair,
    pub trtp: TimingPair,
}

impl Timings {
    /// The data rate in MT/s that the minimum cycle time implies.
    pub fn base_data_rate_mt_s(self) -> u32
        ensures { result ≡ rate_of self.tckavg_min.0 }
    {
        data_rate_mt_s(self.tckavg_min)
    }
}

/// The base timings of an image. No value is reserved, so a short image is the only refusal.
#[inline(always)]
#[tactic(auto, using(crate::proofs::Read::in_bytes))]
pub fn decode_timings(image: &[u8]) -> Result<Timings, Refusal>
    ensures { result ≡ timings_of image.now }
{
    Ok(times(lent_bytes(image)?))
}

/// The image's bytes up to the last that is read.
pub fn timing_bytes(image: &[u8]) -> Result<[u8; TIMING_BYTES], Refusal>
    ensures { result ≡ timing_bytes_of image.now }
{
    Ok(*lent_bytes(image)?)
}

// The same bytes as they are lent. Kept: beside `timing_bytes`: with a copy of the bytes timings took 1.4 times as long.
#[inline(always)]
#[tactic(auto, using(reading::proofs::Reach::by_length), unfolding(crate::specs::Timing::timing_bytes_of))]
fn lent_bytes(image: &[u8]) -> Result<&[u8; TIMING_BYTES], Refusal>
    ensures bytes { IfOk result (λ bytes. timing_bytes_of image.now ≡ Ok bytes.now) }
    ensures refused { IfErr result (λ why. timing_bytes_of image.now ≡ Err why) }
{
    match image.first_chunk() {
        Some(bytes) => Ok(bytes),
        None => Err(reading::truncated_in(image, &TIMING_RANGES)),
    }
}

/// The record that the bytes stand for.
pub fn timings_in(bytes: [u8; TIMING_BYTES]) -> Timings
    ensures { result ≡ times_at (view bytes) }
{
    times(&bytes)
}

// The same of lent bytes.
fn times(bytes: &[u8; TIMING_BYTES]) -> Timings
    ensures { result ≡ times_at (view bytes.now) }
{
    Timings {
        tckavg_min: ps_units(read_le_u16(bytes, OFF_TCKAVG_MIN)),
        tckavg_max: ps_units(read_le_u16(bytes, OFF_TCKAVG_MAX)),
        supported_cas_latencies: decode_cas_latencies(bytes),
        taa: ps_units(read_le_u16(bytes, OFF_TAA)),
        trcd: ps_units(read_le_u16(bytes, OFF_TRCD)),
        trp: ps_units(read_le_u16(bytes, OFF_TRP)),
        tras: ps_units(read_le_u16(bytes, OFF_TRAS)),
        trc: ps_units(read_le_u16(bytes, OFF_TRC)),
        twr: ps_units(read_le_u16(bytes, OFF_TWR)),
        trfc1: ns_units(read_le_u16(bytes, OFF_TRFC1)),
        trfc2: ns_units(read_le_u16(bytes, OFF_TRFC2)),
        trfcsb: ns_units(read_le_u16(bytes, OFF_TRFCSB)),
        trrd_l: read_pair(bytes, OFF_TRRD_L),
        tccd_l: read_pair(bytes, OFF_TCCD_L),
        tccd_l_wr: read_pair(bytes, OFF_TCCD_L_WR),
        tccd_l_wr2: read_pair(bytes, OFF_TCCD_L_WR2),
        tfaw: read_pair(bytes, OFF_TFAW),
        twtr_l: read_pair(bytes, OFF_TWTR_L),
        twtr_s: read_pair(bytes, OFF_TWTR_S),
        trtp: read_pair(bytes, OFF_TRTP),
    }
}

// A stored 16-bit value that is already in picoseconds. Kept: a function by the Rust's name, and no `From`, since a u16 is either this or nanoseconds.
fn ps_units(raw: u16) -> Picoseconds
    ensures { result.0 ≡ raw }
{
    Picoseconds(raw.into())
}

// A stored 16-bit value in nanoseconds (the tRFC family), kept in picoseconds.
fn ns_units(raw: u16) -> Picoseconds
    ensures { result.0 ≡ raw * 1000 }
{
    Picoseconds(u32::from(raw) * 1000)
}

// A 16-bit value at an offset, low byte first.
#[tactic(auto, unfolding(crate::specs::Timing::le16_at))]
fn read_le_u16(bytes: &[u8; TIMING_BYTES], offset: usize) -> u16
    requires { offset + 1 < length bytes.now }
    ensures { result ≡ le16_at (view bytes.now) offset }
{
    u16::from_le_bytes([bytes[offset], bytes[offset + 1]])
}

// A time and the clock byte after it.
#[tactic(auto, unfolding(crate::specs::Timing::pair_at))]
fn read_pair(bytes: &[u8; TIMING_BYTES], offset: usize) -> TimingPair
    requires { offset + 2 < length bytes.now }
    ensures { result ≡ pair_at (view bytes.now) offset }
{
    TimingPair {
        time: ps_units(read_le_u16(bytes, offset)),
        clocks: ClockCycles(bytes[offset + 2]),
    }
}

// The five bytes of the CAS latencies as a set.
#[tactic(auto, unfolding(crate::specs::Timing::cas_at))]
fn decode_cas_latencies(bytes: &[u8; TIMING_BYTES]) -> CasLatencies
    ensures { result ≡ cas_at (view bytes.now) 24 }
{
    CasLatencies::from_bytes(
        bytes[OFF_CAS_LATENCIES],
        bytes[OFF_CAS_LATENCIES + 1],
        bytes[OFF_CAS_LATENCIES + 2],
        bytes[OFF_CAS_LATENCIES + 3],
        bytes[OFF_CAS_LATENCIES + 4],
    )
}

/// The data rate of a clock period in MT/s, to the nearest 100; 0 for the period 0.
pub fn data_rate_mt_s(tckavg_min: Picoseconds) -> u32
    ensures { result ≡ rate_of tckavg_min.0 }
{
    if tckavg_min.0 == 0 {
        return 0;
    }
    (2_000_000 / tckavg_min.0 + 50) / 100 * 100
}
