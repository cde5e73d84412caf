// Lines that say nothing, and lines of numbers.
ghost use Rattle.std.specs.Prelude.{◌≡◌};
ghost use Rattle.text.specs.Words.{first_word};
ghost use Rattle.script.specs.Lines.{silent};
ghost use Rattle.script.specs.Numbers.{absent, ReadsNumbers};
ghost use Rattle.script.specs.Rows.{SaysRow};

use text::{decimal, split_word};

// Whether nothing is left, or what is left begins with #.
pub(crate) fn is_silent(rest: &str) -> bool
    ensures { result ≡ silent rest.now }
{
    matches!(rest.as_bytes(), [] | [b'#', ..])
}

// Whether a line is blank or begins with #.
pub fn is_remark(line: &str) -> bool
    ensures { result ≡ silent (first_word line.now) }
{
    let (word, _) = split_word(line);
    is_silent(word)
}

// Whether no word is left.
pub(crate) fn is_blank(rest: &str) -> bool
    ensures { result ≡ absent (first_word rest.now) }
{
    let (word, _) = split_word(rest);
    word.is_empty()
}

// The numbers of N words that stand alone.
pub fn numbers<const N: usize>(words: &str) -> Option<[f64; N]>
    ensures { ReadsNumbers N words.now result }
{
    let mut numbers = [0.0; N];
    let mut rest = words;
    for number in numbers.iter_mut() {
        // By `split_word`: no clause tells which words `split_ascii_whitespace` gives.
        let (word, after) = split_word(rest);
        *number = decimal(word)?;
        rest = after;
    }
    is_blank(rest).then_some(numbers)
}

// The N numbers of a line, if it is not blank and does not begin with #; the fault, where other words
// stand there.
pub fn row<const N: usize, F: Copy>(line: &str, fault: F) -> Result<Option<[f64; N]>, F>
    ensures { SaysRow N fault line.now result }
{
    // From the first word on, so that what stands before it is passed once.
    let words = line.trim_ascii_start();
    if is_silent(words) {
        return Ok(None);
    }
    let row = numbers::<N>(words).ok_or(fault)?;
    Ok(Some(row))
}
