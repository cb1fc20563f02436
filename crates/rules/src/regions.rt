//! The reserved regions: one finding a region, at its first byte that is not zero.
ghost use Rattle.std.specs.Prelude.{◌≡◌, ◌+◌, ◌<◌, fold, position, bit_or};
ghost use Rattle.reading.specs.View.{view};
ghost use Rattle.rules.specs.Regions.{region_at};
ghost use Rattle.rules.specs.Scan.{is_nonzero, scanned};

use crate::table::reserved_bytes_nonzero;
use findings::Finding;

// The reserved regions: where each starts and how many bytes it has.
pub(crate) const REGIONS: [(u16, u16); 7] = [
    (15, 1),
    (29, 1),
    (103, 25),
    (128, 64),
    (214, 16),
    (236, 4),
    (448, 62),
];

// A region's first byte that is not zero, where the region lies wholly inside the image.
#[tactic(auto, using(crate::proofs::Scan::region_scanned))]
pub(crate) fn check_reserved_region(image: &[u8], region: (u16, u16)) -> Option<Finding>
    ensures { result ≡ region_at region.0 region.1 (view image.now) }
{
    scan(image, region.0.into(), region.1.into())
}

#[tactic(auto, unfolding(crate::specs::Scan::scanned))]
fn scan(image: &[u8], offset: usize, len: usize) -> Option<Finding>
    requires { offset + len < 131072 }
    ensures { result ≡ scanned offset len image.now }
{
    let bytes = image.get(offset..offset + len)?;
    let i = first_nonzero(bytes)?;
    Some(reserved_bytes_nonzero(offset + i, bytes[i]))
}

#[tactic(auto, using(crate::proofs::Scan::position_joined))]
fn first_nonzero(bytes: &[u8]) -> Option<usize>
    ensures { result ≡ position is_nonzero bytes.now }
{
    if joined(bytes) == 0 {
        return None;
    }
    bytes.iter().position(|&byte| byte != 0)
}

// All bytes in one: with no exit on the way, the fold compiles to wide loads.
fn joined(bytes: &[u8]) -> u8
    ensures { result ≡ fold bit_or 0 bytes.now }
{
    bytes.iter().fold(0, |all, byte| all | byte)
}
