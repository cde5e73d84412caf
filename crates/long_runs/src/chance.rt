// Calls drawn by chance from a fixed seed. The generator is of its own, and not `rand_pcg`'s, so that
// the counts on stdout stay.
use history::Call;

// A linear congruential generator.
#[derive(Clone, Copy, PartialEq, Eq, Hash, Debug)]
pub struct Chance {
    state: u64,
}

impl Chance {
    pub fn seeded(seed: u64) -> Chance {
        Chance { state: seed }
    }

    // The next 32 bits.
    fn next(&mut self) -> u32 {
        self.state = self
            .state
            .wrapping_mul(6364136223846793005)
            .wrapping_add(1442695040888963407);
        (self.state >> 32) as u32
    }

    // A number below `bound`, or 0 where there is none.
    pub fn below(&mut self, bound: u32) -> u32 {
        self.next().checked_rem(bound).unwrap_or(0)
    }

    // A number from `least` to `least` and `span` more.
    fn within(&mut self, least: f64, span: f64) -> f64 {
        f64::from(self.next()) / 4294967296.0 * span + least
    }

    // One of `count` numbers, ten apart from `least` on.
    fn tens(&mut self, least: f64, count: u32) -> f64 {
        f64::from(self.below(count)) * 10.0 + least
    }

    // A latitude from -100 to 100, in whole tens of degrees or not.
    fn latitude(&mut self) -> f64 {
        match self.below(3) {
            0 => self.tens(-100.0, 21),
            _ => self.within(-100.0, 200.0),
        }
    }

    // A longitude from -400 to 400, in whole tens of degrees or not; now and then no number.
    fn longitude(&mut self) -> f64 {
        match self.below(20) {
            0 => f64::NAN,
            1 => f64::INFINITY,
            2..8 => self.tens(-400.0, 81),
            _ => self.within(-400.0, 800.0),
        }
    }

    // A call on an outline of `count` points, at a place among them or just after.
    pub fn call(&mut self, count: u32) -> Call {
        let place = self.below(count.saturating_add(2)) as usize;
        let lat = self.latitude();
        let lon = self.longitude();
        match self.below(16) {
            0..6 => Call::Add { lat, lon },
            6..9 => Call::Move { place, lat, lon },
            9..11 => Call::Drop { place },
            11..14 => Call::TakeBack,
            14 => Call::Measure { sign: true },
            _ => Call::Measure { sign: false },
        }
    }
}
