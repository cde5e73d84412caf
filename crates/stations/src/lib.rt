// Stations and edit records, which the caller's rows hold: how a station is drawn from the point
// before it, how an edit is noted, and when a record fits an outline.
#![tactic(auto)]

ghost use Rattle.std.specs.Prelude.{◌≡◌, ◌<◌, ◌≤◌};
ghost use Rattle.stations.specs.Costs.{AtMost};
ghost use Rattle.stations.specs.Stations.{point_of, first_station, next_station, capped, drawing, redrawn, redrawn_twice, placed, moved, dropped};

mod records;

use polygon::{Point, transit};
pub use records::{EditKind, EditRecord, UnknownKind, note};
use rows::{put_in, take_out};
use std::ops::Add;
use surface::Surface;

// A point of an outline, and the edge that arrives at it from the station before: its length, its
// area, its crossing of the prime meridian and the evaluations that it took. In the first station
// these four are 0.
#[derive(Clone, Copy, PartialEq, Debug, Default)]
#[repr(C)]
pub struct Station {
    pub lat: f64,
    pub lon: f64,
    pub s12: f64,
    pub S12: f64,
    pub crossing: i8,
    pub evaluations: u8,
}

// Edges solved, and the evaluations spent on them.
#[derive(Clone, Copy, PartialEq, Eq, Debug, Default, Hash)]
#[repr(C)]
pub struct Cost {
    pub edges: u32,
    pub evaluations: u32,
}

impl Cost {
    // No edge is solved.
    pub const FREE: Cost = Cost {
        edges: 0,
        evaluations: 0,
    };
}

// Both costs together; where a count passes what 32 bits hold, the most that they hold.
impl Add for Cost {
    type Output = Cost;

    ghost add_gives = { λ one other sum. sum ≡ capped one other };

    fn add(self, other: Cost) -> Cost {
        Cost {
            edges: self.edges.saturating_add(other.edges),
            evaluations: self.evaluations.saturating_add(other.evaluations),
        }
    }
}

impl Station {
    // Where the station is.
    pub fn point(&self) -> Point
        ensures { result ≡ point_of self.now }
    {
        Point {
            lat: self.lat,
            lon: self.lon,
        }
    }

    // A station at which no edge arrives.
    pub fn first(at: Point) -> Station
        ensures { result ≡ first_station at }
    {
        Station {
            lat: at.lat,
            lon: at.lon,
            ..Station::default()
        }
    }

    // A station at which the edge from another point arrives.
    pub fn next<S: Surface>(surface: &S, before: Point, at: Point) -> Station
        ensures value { result ≡ next_station (S.edges surface.now) before at }
        ensures few { result.evaluations ≤ 83 }
    {
        let edge = surface.edge(before.lat, before.lon, at.lat, at.lon);
        Station {
            lat: at.lat,
            lon: at.lon,
            s12: edge.s12,
            S12: edge.S12,
            crossing: transit(before.lon, at.lon) as i8,
            evaluations: edge.evaluations,
        }
    }
}

// A surface, a row and a count stand as parameters of the five functions below: the row is lent anew
// to each call, so a struct of them would be made only to be taken apart. They ask nothing of their
// callers: out of range nothing is done, and that is free.

// Draws the station at `place` anew from the station before it, if it is among the first `count`.
fn redraw<S: Surface>(surface: &S, stations: &mut [Station], count: usize, place: usize) -> Cost
    ensures drawing { drawing stations.new result ≡ redrawn (S.edges surface.now) stations.old count place }
    ensures few { AtMost 1 result }
{
    if place >= count || count > stations.len() {
        return Cost::FREE;
    }
    let at = stations[place].point();
    if place == 0 {
        stations[place] = Station::first(at);
        return Cost::FREE;
    }
    let before = stations[place - 1].point();
    let station = Station::next(surface, before, at);
    stations[place] = station;
    Cost {
        edges: 1,
        evaluations: station.evaluations as u32,
    }
}

// Draws the stations at `place` and after it anew.
fn redraw_twice<S: Surface>(
    surface: &S,
    stations: &mut [Station],
    count: usize,
    place: usize,
) -> Cost
    requires { place < count }
    ensures drawing { drawing stations.new result ≡ redrawn_twice (S.edges surface.now) stations.old count place }
    ensures few { AtMost 2 result }
{
    let here = redraw(surface, stations, count, place);
    let after = redraw(surface, stations, count, place + 1);
    here + after
}

// Puts a point in at `place` among the first `count` stations, and draws its station and the one
// after it. Without room for it nothing changes.
pub fn place_point<S: Surface>(
    surface: &S,
    stations: &mut [Station],
    count: usize,
    place: usize,
    point: Point,
) -> Cost
    ensures drawing { drawing stations.new result ≡ placed (S.edges surface.now) stations.old count place point }
    ensures few { AtMost 2 result }
{
    if place > count || count >= stations.len() {
        return Cost::FREE;
    }
    put_in(stations, count, place, Station::first(point));
    redraw_twice(surface, stations, count + 1, place)
}

// Moves the point at `place` among the first `count` stations, and draws its station and the one
// after it. Where no station in use stands there, nothing changes.
pub fn shift_point<S: Surface>(
    surface: &S,
    stations: &mut [Station],
    count: usize,
    place: usize,
    point: Point,
) -> Cost
    ensures drawing { drawing stations.new result ≡ moved (S.edges surface.now) stations.old count place point }
    ensures few { AtMost 2 result }
{
    if place >= count || count > stations.len() {
        return Cost::FREE;
    }
    stations[place] = Station::first(point);
    redraw_twice(surface, stations, count, place)
}

// Takes the point at `place` out of the first `count` stations, and draws the station after it.
// Where no station in use stands there, nothing changes.
pub fn remove_point<S: Surface>(
    surface: &S,
    stations: &mut [Station],
    count: usize,
    place: usize,
) -> Cost
    ensures drawing { drawing stations.new result ≡ dropped (S.edges surface.now) stations.old count place }
    ensures few { AtMost 1 result }
{
    if place >= count || count > stations.len() {
        return Cost::FREE;
    }
    take_out(stations, count, place);
    redraw(surface, stations, count - 1, place)
}
