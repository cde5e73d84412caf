// A text of calls on an outline, one a line.
#![tactic(auto)]

ghost use Rattle.std.specs.Prelude.{◌≡◌};
ghost use Rattle.script.specs.Lines.{Makes, Says, ReadsAdd, ReadsMove, ReadsVerb, place_of, drop_of, back_of, measure_of};

mod faults;
mod words;

pub use faults::LineFault;
use history::Call;
use std::error::Error;
use std::fmt;
use std::str::FromStr;
use text::split_word;
pub use words::{is_remark, numbers, row};
use words::{is_blank, is_silent};

// A line, or its first word, that is no call.
#[derive(Clone, Copy, Debug, PartialEq, Eq, Hash)]
pub struct NotACall;

impl fmt::Display for NotACall {
    ghost use Rattle.std.specs.Prelude.{Some, codes};

    ghost output = { λ _. Some (codes "not a call") };

    fn fmt<W: fmt::Write>(&self, f: &mut fmt::Formatter<W>) -> fmt::Result {
        write!(f, "not a call")
    }
}

impl Error for NotACall {}

#[derive(Clone, Copy, Debug, PartialEq, Eq, Hash)]
pub enum Verb {
    Add,
    Move,
    Drop,
    Back,
    Measure,
}

impl FromStr for Verb {
    type Err = NotACall;

    ghost from_str_gives = { ReadsVerb };

    fn from_str(word: &str) -> Result<Verb, NotACall> {
        match word {
            "add" => Ok(Verb::Add),
            "move" => Ok(Verb::Move),
            "drop" => Ok(Verb::Drop),
            "back" => Ok(Verb::Back),
            "measure" => Ok(Verb::Measure),
            _ => Err(NotACall),
        }
    }
}

// The place that a word writes, counted from 0.
fn place_of(word: &str) -> Option<usize>
    ensures { result ≡ place_of word.now }
{
    word.parse().ok()
}

// add LAT LON
fn read_add(words: &str) -> Option<Call>
    ensures { ReadsAdd words.now result }
{
    let [lat, lon] = numbers::<2>(words)?;
    Some(Call::Add { lat, lon })
}

// move PLACE LAT LON
fn read_move(words: &str) -> Option<Call>
    ensures { ReadsMove words.now result }
{
    let (place, point) = split_word(words);
    let [lat, lon] = numbers::<2>(point)?;
    let place = place_of(place)?;
    Some(Call::Move { place, lat, lon })
}

// drop PLACE
fn read_drop(words: &str) -> Option<Call>
    ensures { result ≡ drop_of words.now }
{
    let (place, rest) = split_word(words);
    let place = place_of(place)?;
    is_blank(rest).then_some(Call::Drop { place })
}

// back
fn read_back(words: &str) -> Option<Call>
    ensures { result ≡ back_of words.now }
{
    is_blank(words).then_some(Call::TakeBack)
}

// measure, which gives the area its sign, or measure unsigned
fn read_measure(words: &str) -> Option<Call>
    ensures { result ≡ measure_of words.now }
{
    let (how, rest) = split_word(words);
    let sign = match how {
        "" => true,
        "unsigned" => false,
        _ => return None,
    };
    is_blank(rest).then_some(Call::Measure { sign })
}

// The call that a verb and the words after it make.
fn call_of(verb: Verb, words: &str) -> Option<Call>
    ensures { Makes verb words.now result }
{
    match verb {
        Verb::Add => read_add(words),
        Verb::Move => read_move(words),
        Verb::Drop => read_drop(words),
        Verb::Back => read_back(words),
        Verb::Measure => read_measure(words),
    }
}

// The call of a line, if it is not blank and does not begin with #.
pub fn read(line: &str) -> Result<Option<Call>, NotACall>
    ensures { Says line.now result }
{
    let (verb, words) = split_word(line);
    if is_silent(verb) {
        return Ok(None);
    }
    let call = call_of(verb.parse()?, words).ok_or(NotACall)?;
    Ok(Some(call))
}
