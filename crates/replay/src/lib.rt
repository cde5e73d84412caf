// Lists of cases: reading one, comparing it with a function, counting a whole list.
#![tactic(auto)]

ghost use Rattle.std.specs.Prelude.{◌≡◌, ◌+◌, ◌^◌, ◌<◌, ◌≤◌, ℕ, Bool, List, Float};
ghost use Rattle.std.specs.Result.{result_ok};
ghost use Rattle.replay.specs.Verdicts.{case_of, same_pattern, agrees_on, counted, judged_of, tally_of};

mod programs;

pub use programs::{NoSuchFunction, Replayed, replay, report};
use std::str::FromStr;
use text::{Pattern, lines, patterns};

// A function of two floats that answers two, as a line of a list has two; a lone answer stands before +0.
pub trait Answers {
    ghost answers_of: { Self → Float → Float → Float × Float };

    fn answers(&self, x: f64, y: f64) -> (f64, f64)
        ensures { result ≡ answers_of self.now x y };
}

// What the lines of a list must meet.
pub trait Judge {
    ghost meets: { Self → List ℕ → Bool };

    // Whether a line is what the code answers.
    fn judge(&self, line: &str) -> bool
        ensures { result ≡ meets self.now line.now };
}

// Two arguments and the answers to them.
#[derive(Clone, Copy, PartialEq, Debug)]
pub struct Case {
    pub x: f64,
    pub y: f64,
    pub first: f64,
    pub second: f64,
}

// A line whose first four words are not bit patterns.
#[derive(Clone, Copy, PartialEq, Eq, Debug, Hash)]
pub struct NotACase;

// The case that a line writes by its first four words.
impl FromStr for Case {
    type Err = NotACase;

    ghost from_str_gives = { λ line r. result_ok r ≡ case_of line };

    fn from_str(line: &str) -> Result<Case, NotACase> {
        let ([x, y, first, second], _) = patterns::<4>(line).ok_or(NotACase)?;
        Ok(Case {
            x,
            y,
            first,
            second,
        })
    }
}

// How many cases a list has, how many differ, and the first line that does.
#[derive(Clone, Copy, Default, PartialEq, Eq, Debug, Hash)]
pub struct Tally {
    pub cases: usize,
    pub differing: usize,
    pub first: Option<usize>,
}

// Whether two floats have the same bits.
pub fn same_pattern(x: f64, y: f64) -> bool
    ensures { result ≡ same_pattern x y }
{
    Pattern::from(x) == Pattern::from(y)
}

// Whether a line is a case that the function answers bit by bit.
pub fn agrees<F: Answers>(function: &F, line: &str) -> bool
    ensures { result ≡ agrees_on (F.answers_of function.now) line.now }
{
    line.parse::<Case>().is_ok_and(|case| {
        let (first, second) = function.answers(case.x, case.y);
        same_pattern(first, case.first) && same_pattern(second, case.second)
    })
}

// Cases that a function answers bit by bit.
#[derive(Clone, Copy, PartialEq, Eq, Debug, Hash)]
pub struct Bitwise<'a, F>(pub &'a F);

impl<'a, F: Answers> Judge for Bitwise<'a, F> {
    ghost meets = { λ s. agrees_on (F.answers_of s.0.now) };

    fn judge(&self, line: &str) -> bool {
        agrees(self.0, line)
    }
}

impl Tally {
    // One case more.
    fn counted(self, agrees: bool) -> Tally
        requires room { self.cases + 1 < 2 ^ 64 }
        requires parts { self.differing ≤ self.cases }
        ensures { result ≡ counted self agrees }
    {
        let cases = self.cases + 1;
        if agrees {
            Tally { cases, ..self }
        } else {
            Tally {
                cases,
                differing: self.differing + 1,
                first: self.first.or(Some(cases)),
            }
        }
    }
}

// How many lines a text has, how many of them the judge does not meet, and the first of these.
pub fn count_lines<J: Judge>(judge: &J, text: &str) -> Tally
    ensures { result ≡ judged_of (J.meets judge.now) text.now }
{
    let mut tally = Tally::default();
    for line in lines(text) {
        tally = tally.counted(judge.judge(line));
    }
    tally
}

// How many lines a text has, how many of them the function does not answer, and the first of these.
pub fn compare<F: Answers>(function: &F, text: &str) -> Tally
    ensures { result ≡ tally_of (F.answers_of function.now) text.now }
{
    count_lines(&Bitwise(function), text)
}
