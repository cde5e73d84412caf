// Why a call is not done, and the number by which C is told.
ghost use Rattle.std.specs.Prelude.{◌≡◌};
ghost use Rattle.outline_c.specs.declared.faults.Fault.TheVariants.{Refused};
ghost use Rattle.outline_c.specs.Faults.{code_of, told_code, written};

use surface::Refusal;

#[derive(Clone, Copy, PartialEq, Eq, Hash, Debug)]
pub enum Fault {
    // a surface or a winding that is not known
    Unknown,
    Refused(Refusal),
}

impl From<Refusal> for Fault {
    ghost from_gives = { λ e fault. fault ≡ Refused e };

    fn from(refusal: Refusal) -> Fault {
        Fault::Refused(refusal)
    }
}

// The number by which a fault is told; 0 tells that there is no fault.
impl From<Fault> for u32 {
    ghost from_gives = { λ fault n. n ≡ code_of fault };

    fn from(fault: Fault) -> u32 {
        match fault {
            Fault::Unknown => 10,
            Fault::Refused(refusal) => u8::from(refusal).into(),
        }
    }
}

// Writes an answer behind a pointer, and tells 0, or the number of its fault, which leaves what
// stands there.
pub fn tell<T: Copy>(answer: Result<T, Fault>, kept: &mut T) -> u32
    ensures code { result ≡ told_code answer }
    ensures kept { kept.new ≡ written kept.old answer }
{
    match answer {
        Ok(value) => {
            *kept = value;
            0
        }
        Err(fault) => fault.into(),
    }
}
