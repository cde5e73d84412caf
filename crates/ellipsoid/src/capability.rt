// Which figures of an inverse problem are wanted: a mask with a bit for each, the u64 of the crate and
// of the C interface.
ghost use Rattle.std.specs.Prelude.{◌≡◌};
ghost use Rattle.ellipsoid.specs.Capabilities.{wants};

pub const CAP_NONE: u64 = 0;

pub const CAP_C1: u64 = 1 << 0;

pub const CAP_C2: u64 = 1 << 2;

pub const CAP_C3: u64 = 1 << 3;

pub const CAP_C4: u64 = 1 << 4;

pub const CAP_ALL: u64 = 0x1F;

pub const OUT_ALL: u64 = 0x7F80;

// With LONG_UNROLL.
pub const OUT_MASK: u64 = 0xFF80;

pub const EMPTY: u64 = 0;

pub const LATITUDE: u64 = (1 << 7) | CAP_NONE;

pub const LONGITUDE: u64 = (1 << 8) | CAP_C3;

pub const AZIMUTH: u64 = (1 << 9) | CAP_NONE;

pub const DISTANCE: u64 = (1 << 10) | CAP_C1;

pub const STANDARD: u64 = LATITUDE | LONGITUDE | AZIMUTH | DISTANCE;

pub const REDUCEDLENGTH: u64 = (1 << 12) | CAP_C1 | CAP_C2;

pub const GEODESICSCALE: u64 = (1 << 13) | CAP_C1 | CAP_C2;

pub const AREA: u64 = (1 << 14) | CAP_C4;

pub const LONG_UNROLL: u64 = 1 << 15;

// Without LONG_UNROLL.
pub const ALL: u64 = OUT_ALL | CAP_ALL;

// What an outline asks of its edges.
pub const POLYGONAREA_MASK: u64 = LATITUDE | LONGITUDE | DISTANCE | AREA | LONG_UNROLL;

// Whether one of the figures is wanted.
#[tactic(auto, unfolding(crate::specs::Capabilities::wants))]
pub fn wanted(mask: u64, figures: u64) -> bool
    ensures { result ≡ wants mask figures }
{
    mask & OUT_MASK & figures != 0
}
