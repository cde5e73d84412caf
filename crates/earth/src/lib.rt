// The WGS84 ellipsoid over the series set: its constants, which need not be reckoned again, its edges
// and its whole area. Outlines are drawn on it, or on a plate.
#![tactic(auto)]

ghost use Rattle.std.specs.Prelude.{◌≡◌};
ghost use Rattle.functions.specs.Series.{series};
ghost use Rattle.ellipsoid.specs.Ellipsoids.{whole_of};
ghost use Rattle.geodesic.specs.Answers.{edge_of};
ghost use Rattle.earth.specs.Wgs84 as Definitions;

mod grounds;

use ellipsoid::capability::POLYGONAREA_MASK;
use ellipsoid::shape::{Ellipsoid, WGS84_A, WGS84_F};
use functions::SeriesSet;
pub use grounds::Ground;
use inverse::_gen_inverse;
use surface::Edge;

// What Ellipsoid::new reckons from WGS84_A and WGS84_F over the series set.
static WGS84: Ellipsoid = Ellipsoid {
    a: WGS84_A,
    f: WGS84_F,
    f1: 0.9966471893352525,
    e2: 0.0066943799901413165,
    ep2: 0.006739496742276434,
    n: 0.0016792203863837047,
    b: 6356752.314245179,
    c2: 40589732499314.76,
    etol2: 3.6424611488788524e-8,
    A3x: [
        -0.0234375,
        -0.046927475637074494,
        -0.06281503005876607,
        -0.2502088451303832,
        -0.49916038980680816,
        1.0,
    ],
    C3x: [
        0.0234375,
        0.03908873781853724,
        0.04695366939653196,
        0.12499964752736174,
        0.24958019490340408,
        0.01953125,
        0.02345061890926862,
        0.046822392185686165,
        0.062342661206936094,
        0.013671875,
        0.023393770302437927,
        0.025963026642854565,
        0.013671875,
        0.01362595881755982,
        0.008203125,
    ],
    C4x: [
        0.00646020646020646,
        0.0035037627212872787,
        0.034742279454780166,
        -0.01921732223244865,
        -0.19923321555984239,
        0.6662190894642603,
        0.000111000111000111,
        0.003426620602971002,
        -0.009510765372597735,
        -0.01893413691235592,
        0.0221370239510936,
        0.0007459207459207459,
        -0.004142006291321442,
        -0.00504225176309005,
        0.007584982177746079,
        -0.0021565735851450138,
        -0.001962613370670692,
        0.0036104265913438913,
        -0.0009472009472009472,
        0.0020416649913317735,
        0.0012916376552740189,
    ],
};

// The constants of the ellipsoid.
#[tactic(auto, using(crate::specs::Numbers::wgs84_is))]
pub fn wgs84() -> &'static Ellipsoid
    ensures { result.now ≡ Definitions.wgs84 }
{
    &WGS84
}

// An edge of an outline on the ellipsoid. The argument list is that of `Surface::edge`.
#[tactic(auto, unfolding(geodesic::specs::Answers::edge_of))]
pub fn wgs84_edge(lat1: f64, lon1: f64, lat2: f64, lon2: f64) -> Edge
    ensures { result ≡ edge_of series Definitions.wgs84 lat1 lon1 lat2 lon2 }
{
    _gen_inverse(
        &SeriesSet,
        wgs84(),
        lat1,
        lon1,
        lat2,
        lon2,
        POLYGONAREA_MASK,
    )
    .into()
}

// The whole area of the ellipsoid.
pub fn wgs84_area() -> f64
    ensures { result ≡ whole_of Definitions.wgs84 }
{
    wgs84().area()
}
