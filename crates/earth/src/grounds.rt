// What an outline is drawn on: the WGS84 ellipsoid over the series set, or a plate.
ghost use Rattle.std.specs.Prelude.{◌≡◌, ◌≤◌, true};
ghost use Rattle.std.proofs.Math.Dec.{lit≤};
ghost use Rattle.functions.specs.Series.{series};
ghost use Rattle.surface.specs.Plates.{plate_edge};
ghost use Rattle.surface.specs.Wholes.{whole_fits};
ghost use Rattle.ellipsoid.specs.Capabilities.{polygon_area};
ghost use Rattle.inverse.proofs.Evaluations.{inverse_few};
ghost use Rattle.geodesic.specs.Answers.{edge_of};
ghost use Rattle.earth.specs.declared.grounds.Ground.{Ground};
ghost use Rattle.earth.specs.declared.grounds.Ground.TheVariants.{Earth, Sheet};
ghost use Rattle.earth.specs.Wgs84.{wgs84};
ghost use Rattle.earth.specs.Numbers.{whole-fits};
ghost use Rattle.earth.specs.Grounds.{edges_on, whole_on};

use crate::{wgs84_area, wgs84_edge};
use surface::{Edge, Plate, Surface};

#[derive(Clone, Copy, PartialEq, Debug)]
pub enum Ground {
    Earth,
    Sheet(Plate),
}

impl Surface for Ground {
    ghost edges = { λ g. edges_on g };

    ghost whole = { λ g. whole_on g };

    ghost fits = { λ s.
        elim s as (λ (g : Ground). whole_fits (whole_on g) ≡ true) [
          | Earth ↦ whole-fits
          | Sheet p ↦ p.fits
        ] };

    // 83: the most evaluations that `Surface::few` lets an edge take.
    ghost few = { unfold edge_of plate_edge in
        λ s lat1 lon1 lat2 lon2.
        elim s as (λ (g : Ground). (edges_on g lat1 lon1 lat2 lon2).evaluations ≤ 83) [
          | Earth ↦ inverse_few series wgs84 polygon_area lat1 lon1 lat2 lon2
          | Sheet p ↦ lit≤ tt
        ] };

    fn edge(&self, lat1: f64, lon1: f64, lat2: f64, lon2: f64) -> Edge {
        match self {
            Ground::Earth => wgs84_edge(lat1, lon1, lat2, lon2),
            Ground::Sheet(plate) => plate.edge(lat1, lon1, lat2, lon2),
        }
    }

    fn area(&self) -> f64 {
        match self {
            Ground::Earth => wgs84_area(),
            Ground::Sheet(plate) => plate.area(),
        }
    }
}
