// Sets of facts and actions, read from the words of a line.
ghost use Rattle.std.specs.Prelude.{◌≡◌, ◌+◌, ◌^◌, ◌<◌, ◌≤◌, true, cond, length};
ghost use Rattle.words.specs.Words.{holds, is_mark};
ghost use Rattle.sheet.specs.Grid.{words_in};
ghost use Rattle.sheet.specs.Reading.{marked, action_in};
ghost use Rattle.sheet.specs.Shape.{GoodMarks, MarkedMore};

use pieces::Pieces;
use strips::{Action, MAX_FACTS};
use words::Mark;

// A set of facts below i, with fact i where it is in it.
fn with_fact(facts: u64, i: usize, is_in: bool) -> u64
    requires { i < 64 }
    ensures { facts < 2 ^ i → result ≡ facts + cond is_in (2 ^ i) 0 }
{
    if is_in { facts | 1 << i } else { facts }
}

// Whether a word has the letter.
#[tactic(auto, using(crate::proofs::Flags::holds_decides))]
fn has_letter(word: &[u8], letter: u8) -> bool
    ensures { result ≡ holds letter word.now }
{
    word.contains(&letter)
}

// The facts with a 1 in the line.
pub fn ones_in(line: &[u8]) -> u64
    ensures { length (words_in line.now) ≤ 65 → result ≡ marked 49 line.now }
{
    let mut ones = 0;
    let words = Pieces::of(line, b' ').skip(1).take(MAX_FACTS);
    for (i, word) in words.enumerate() {
        ones = with_fact(ones, i, has_letter(word.bytes, b'1'));
    }
    ones
}

// An action on facts below i, with what a mark says of fact i.
fn with_mark(action: Action, i: usize, word: &[u8]) -> Action
    requires { i < 64 }
    ensures { is_mark word.now ≡ true → MarkedMore action i word.now result }
{
    let mark = Mark::try_from(word).unwrap_or_default();
    Action {
        needs: with_fact(action.needs, i, mark.needs),
        adds: with_fact(action.adds, i, mark.adds),
        deletes: with_fact(action.deletes, i, mark.deletes),
    }
}

// The action of a line of marks.
pub fn action_in(line: &[u8]) -> Action
    ensures { GoodMarks line.now → result ≡ action_in line.now }
{
    let mut action = Action::IDLE;
    let words = Pieces::of(line, b' ').skip(1).take(MAX_FACTS);
    for (i, word) in words.enumerate() {
        action = with_mark(action, i, word.bytes);
    }
    action
}
