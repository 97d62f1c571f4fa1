// Reads a hopper problem from text.
use bfs::MAX_ROWS;
use std::alloc::{AllocError, Global};
use std::str::SplitWhitespace;
use thiserror::Error;

// The rows that a search may fill where the problem does not say.
const USUAL_ROWS: usize = 2_048;

// A hopper problem as it is written.
#[derive(Drop)]
pub struct Problem {
    pub capacities: Vec<u8>,
    pub levels: Vec<u8>,
    pub hopper: usize,
    pub wanted: u8,
    pub rows: usize,
}

// What was expected of which line, counted from 1, or that memory ran out.
#[derive(Debug, Drop, Error)]
pub enum BadInput {
    #[error("line {0}: expected {1}")]
    Line(usize, &'static str),
    #[error("the problem lacks a line: expected {0}")]
    Missing(&'static str),
    #[error("out of memory")]
    Memory(#[from(alloc)] AllocError),
}

const CAPACITIES: &str = "'capacities' once, with a number from 0 to 255 for each hopper";

const LEVELS: &str = "'levels' once, with a number from 0 to 255 for each hopper";

const WANT: &str =
    "'want' once, with the level wanted, from 0 to 255, and the number of its hopper, from 0";

const ROWS: &str = "'rows' at most once, with a number up to 65536";

const ANY: &str = "'capacities', 'levels', 'want' or 'rows'";

// What has been read so far.
#[derive(Default, Drop)]
struct Draft {
    capacities: Option<Vec<u8>>,
    levels: Option<Vec<u8>>,
    want: Option<(u8, usize)>,
    rows: Option<usize>,
}

impl Draft {
    // Takes in the line of this number.
    fn take(&mut self, heap: Global, number: usize, line: &str) -> Result<(), BadInput> {
        let mut words = line.split_whitespace();
        let (taken, expected) = match words.next() {
            None => return Ok(()),
            Some("capacities") => (
                set_once(&mut self.capacities, || numbers(heap, words))?,
                CAPACITIES,
            ),
            Some("levels") => (set_once(&mut self.levels, || numbers(heap, words))?, LEVELS),
            Some("want") => (set_once(&mut self.want, || Ok(want(words)))?, WANT),
            Some("rows") => (set_once(&mut self.rows, || Ok(rows(words)))?, ROWS),
            Some(_) => (None, ANY),
        };
        taken.ok_or(BadInput::Line(number, expected))
    }

    // The problem, where no line is lacking.
    fn finish(self) -> Result<Problem, BadInput> {
        let capacities = self.capacities.ok_or(BadInput::Missing(CAPACITIES))?;
        let levels = self.levels.ok_or(BadInput::Missing(LEVELS))?;
        let (wanted, hopper) = self.want.ok_or(BadInput::Missing(WANT))?;
        Ok(Problem {
            capacities,
            levels,
            hopper,
            wanted,
            rows: self.rows.unwrap_or(USUAL_ROWS),
        })
    }
}

// Sets what a line gives, where no line gave it before and the line gives it rightly. A line that comes again is not read.
fn set_once<T: Drop, F: FnOnce() -> Result<Option<T>, AllocError>>(
    place: &mut Option<T>,
    read: F,
) -> Result<Option<()>, AllocError>
    requires { F.IsAlwaysCallable read }
{
    if place.is_some() {
        return Ok(None);
    }
    *place = read()?;
    Ok(place.is_some().then_some(()))
}

// The numbers of a line, where each word is one.
fn numbers(heap: Global, words: SplitWhitespace<'_>) -> Result<Option<Vec<u8>>, AllocError> {
    let mut numbers = Vec::new(heap);
    for word in words {
        let Ok(number) = word.parse() else {
            return Ok(None);
        };
        numbers.push(number)?;
    }
    Ok(Some(numbers))
}

// The level wanted and the number of its hopper, where the words are just these.
fn want(mut words: SplitWhitespace<'_>) -> Option<(u8, usize)> {
    let (Some(level), Some(hopper), None) = (words.next(), words.next(), words.next()) else {
        return None;
    };
    Some((level.parse().ok()?, hopper.parse().ok()?))
}

// The count of rows, where it is the one word and no larger than a search allows.
fn rows(mut words: SplitWhitespace<'_>) -> Option<usize> {
    let (Some(rows), None) = (words.next(), words.next()) else {
        return None;
    };
    rows.parse().ok().filter(|rows| *rows <= MAX_ROWS)
}

// The problem that a text holds, or what was expected of its first wrong line.
pub(crate) fn read(heap: Global, text: &str) -> Result<Problem, BadInput> {
    let mut draft = Draft::default();
    for (i, line) in text.lines().enumerate() {
        draft.take(heap, i.saturating_add(1), line)?;
    }
    draft.finish()
}

#[cfg(test)]
mod tests {
    use super::*;
    use std::test::Fail;

    // The line that a text is refused for, or none where it is read or a line is lacking.
    fn wrong_line(heap: Global, text: &str) -> Option<usize> {
        let Err(bad) = read(heap, text) else {
            return None;
        };
        match bad {
            BadInput::Line(line, _) => Some(line),
            _ => None,
        }
    }

    #[test]
    fn a_whole_problem_is_read(rt: HostRuntime) -> Result<(), Fail> {
        let Ok(problem) = read(
            rt.alloc(),
            "want 4 1\n\nrows 13\nlevels 0 2\ncapacities 3 5\n",
        ) else {
            return Err(Fail::new("not read"));
        };
        assert_eq!(rt; problem.rows, 13);
        assert_eq!(rt; problem.hopper, 1);
        assert_eq!(rt; problem.wanted, 4);
        assert_eq!(rt; problem.capacities.get(1).copied(), Some(5));
        assert_eq!(rt; problem.levels.get(1).copied(), Some(2));
        assert_eq!(rt; problem.levels.len(), 2);
        Ok(())
    }

    #[test]
    fn rows_are_2048_where_none_are_asked_for(rt: HostRuntime) -> Result<(), Fail> {
        let Ok(problem) = read(rt.alloc(), "capacities 3\nlevels 0\nwant 4 0") else {
            return Err(Fail::new("not read"));
        };
        assert_eq!(rt; problem.rows, 2_048);
        Ok(())
    }

    #[test]
    fn wrong_lines_are_named(rt: HostRuntime) {
        let heap = rt.alloc();
        let cases = [
            ("capacities 3 256", Some(1)),
            ("levels 0\nlevels 0", Some(2)),
            ("want 4", Some(1)),
            ("want 4 1 2", Some(1)),
            ("rows 65536\nrows 1", Some(2)),
            ("rows 65537", Some(1)),
            ("\nlevel 0", Some(2)),
            ("levels 0\nwant 0 0", None),
        ];
        for (text, line) in cases {
            assert_eq!(rt; wrong_line(heap, text), line, "{}", text);
        }
    }
}
