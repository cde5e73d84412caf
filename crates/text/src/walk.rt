// The walk over the lines of a text.
ghost use Rattle.std.specs.Prelude.{length};
ghost use Rattle.std.specs.Iterator.{at_most, YieldsFirstRef};
ghost use Rattle.text.specs.Words.{lines_left};

use crate::split_line;

// The lines of a text, as `split_line` cuts them: unlike those of `str::lines`, they keep a `\r`. Their
// clauses tell the lines that are left; those of `split_terminator` tell runs of its steps.
#[derive(Clone, Drop, Debug, PartialEq, Eq, Hash)]
pub struct Lines<'a> {
    pub rest: &'a str,
}

// Each line takes a byte at least, so that lines can be counted.
impl<'a> Iterator for Lines<'a> {
    type Item = &'a str;

    ghost next_gives = { YieldsFirstRef lines_left };

    ghost remaining = { λ s. at_most (length s.rest.now) };

    #[tactic(auto, using(crate::proofs::Cuts::lines_none))]
    fn next(&mut self) -> Option<&'a str> {
        if self.rest.is_empty() {
            return None;
        }
        let (line, after) = split_line(self.rest);
        self.rest = after;
        Some(line)
    }
}
