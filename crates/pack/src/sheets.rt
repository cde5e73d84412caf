// The packed sheet of a text of calls.
ghost use Rattle.std.specs.Prelude.{◌≡◌, ◌⊎◌, IfOk, Ok, Err, MatchResult};
ghost use Rattle.pack.specs.Edits.{no_memory};
ghost use Rattle.pack.specs.Sheets.{Packs, Carries, Unpacks, sheet_from};

use crate::edits::{Fault, edits_of};
use crate::options::Options;
use packed::{Edit, pack};
use std::alloc::Global;

// The sheet of edits under a header that the options make.
fn sheet_from(heap: Global, options: Options, edits: &[Edit]) -> Result<Vec<u8>, Fault>
    ensures bytes { MatchResult result (λ v. sheet_from options edits.now ≡ Ok v.items) (λ f. (f ≡ no_memory) ⊎ (sheet_from options edits.now ≡ Err f)) }
    ensures reads_back { IfOk result (λ v. Unpacks options edits.now v.items) }
{
    let header = options.header(edits.len()).ok_or(Fault::TooMany)?;
    Ok(pack(heap, header, edits)?)
}

// The sheet of a text.
pub fn sheet_of(heap: Global, options: Options, text: &str) -> Result<Vec<u8>, Fault>
    ensures bytes { MatchResult result (λ v. Packs options text.now (Ok v.items)) (λ f. (f ≡ no_memory) ⊎ Packs options text.now (Err f)) }
    ensures reads_back { IfOk result (λ v. Carries options text.now v.items) }
{
    let edits = edits_of(heap, text)?;
    sheet_from(heap, options, edits.as_slice())
}
