// Why a line is not answered as it asks.
ghost use Rattle.std.specs.Prelude.{◌≡◌};

use std::error::Error;
use std::fmt;
use surface::Refusal;

// The line cannot be read, or what it asks is refused.
#[derive(Clone, Copy, PartialEq, Eq, Hash, Debug)]
pub enum LineFault<U> {
    Unreadable(U),
    Refused(Refusal),
}

impl<U> From<Refusal> for LineFault<U> {
    ghost use Rattle.script.specs.declared.faults.LineFault.TheVariants.{Refused};

    ghost from_gives = { λ refusal fault. fault ≡ Refused refusal };

    fn from(refusal: Refusal) -> LineFault<U> {
        LineFault::Refused(refusal)
    }
}

impl<U: fmt::Display> fmt::Display for LineFault<U> {
    ghost use Rattle.script.specs.Faults.{fault_text};

    ghost output = { fault_text U.output };

    fn fmt<W: fmt::Write>(&self, f: &mut fmt::Formatter<W>) -> fmt::Result {
        match self {
            LineFault::Unreadable(line) => write!(f, "{line}"),
            LineFault::Refused(refusal) => write!(f, "refused {refusal}"),
        }
    }
}

impl<U: Error> Error for LineFault<U> {}
