//! One way to make a finding of each code, in the order of the codes.
ghost use Rattle.std.specs.Prelude.{◌≡◌, ◌<◌, get_or};
ghost use Rattle.rules.specs.Table.{finding, non_integer_device_count, trc_identity_mismatch, timing_ordering_violation, non_integer_cas_latency, cas_latency_not_supported, non_integer_clock_timing, non_standard_data_rate, reserved_bytes_nonzero, package_die_count_mismatch};

use crate::{ClockTimingParam, TimingOrder};
use decoders::identity::PackageType;
use findings::{Finding, Severity};

// The finding of a code.
fn finding(code: u8, severity: Severity, sub: u8, numbers: [u32; 3]) -> Finding
    ensures { result ≡ finding code severity sub (get_or numbers 0 0) (get_or numbers 1 0) (get_or numbers 2 0) }
{
    let [first, second, third] = numbers;
    Finding {
        code,
        severity,
        sub,
        first,
        second,
        third,
    }
}

pub(crate) fn non_integer_device_count(bus_width_bits: u16, io_width_bits: u16) -> Finding
    ensures { result ≡ non_integer_device_count bus_width_bits io_width_bits }
{
    finding(
        1,
        Severity::Error,
        0,
        [bus_width_bits.into(), io_width_bits.into(), 0],
    )
}

pub(crate) fn trc_identity_mismatch(trc_ps: u32, tras_ps: u32, trp_ps: u32) -> Finding
    ensures { result ≡ trc_identity_mismatch trc_ps tras_ps trp_ps }
{
    finding(2, Severity::Error, 0, [trc_ps, tras_ps, trp_ps])
}

pub(crate) fn timing_ordering_violation(
    relation: TimingOrder,
    larger_ps: u32,
    smaller_ps: u32,
) -> Finding
    ensures { result ≡ timing_ordering_violation relation larger_ps smaller_ps }
{
    finding(
        3,
        Severity::Error,
        relation.sub(),
        [larger_ps, smaller_ps, 0],
    )
}

pub(crate) fn non_integer_cas_latency(taa_ps: u32, tck_ps: u32) -> Finding
    ensures { result ≡ non_integer_cas_latency taa_ps tck_ps }
{
    finding(4, Severity::Warning, 0, [taa_ps, tck_ps, 0])
}

pub(crate) fn cas_latency_not_supported(cas_latency: u32) -> Finding
    ensures { result ≡ cas_latency_not_supported cas_latency }
{
    finding(5, Severity::Error, 0, [cas_latency, 0, 0])
}

pub(crate) fn non_integer_clock_timing(
    param: ClockTimingParam,
    value_ps: u32,
    tck_ps: u32,
) -> Finding
    ensures { result ≡ non_integer_clock_timing param value_ps tck_ps }
{
    finding(6, Severity::Warning, param.sub(), [value_ps, tck_ps, 0])
}

pub(crate) fn non_standard_data_rate(data_rate_mt_s: u32) -> Finding
    ensures { result ≡ non_standard_data_rate data_rate_mt_s }
{
    finding(7, Severity::Info, 0, [data_rate_mt_s, 0, 0])
}

// Kept: `as`, since the offset is proved to fit.
pub(crate) fn reserved_bytes_nonzero(offset: usize, value: u8) -> Finding
    requires { offset < 131072 }
    ensures { result ≡ reserved_bytes_nonzero offset value }
{
    finding(8, Severity::Warning, 0, [offset as u32, value.into(), 0])
}

pub(crate) fn package_die_count_mismatch(package_type: PackageType, die_count: u8) -> Finding
    ensures { result ≡ package_die_count_mismatch package_type die_count }
{
    finding(
        9,
        Severity::Error,
        package_type.code(),
        [die_count.into(), 0, 0],
    )
}
