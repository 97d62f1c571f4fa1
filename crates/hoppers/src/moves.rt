// The moves of hoppers.
ghost use Rattle.std.specs.Prelude.{◌≡◌, Some};
ghost use Rattle.hoppers.specs.Moves.{move_of, made, move_text};

use crate::levels::Levels;
use std::fmt;

// What can be done with hoppers.
#[derive(Clone, Copy, PartialEq, Eq, Debug)]
pub enum Move {
    // fill a hopper to its capacity
    Fill(usize),
    // empty a hopper
    Empty(usize),
    // pour the first into the second, until the first is empty or the second full
    Pour(usize, usize),
}

impl Move {
    // The move of a number, where there are so many hoppers. The numbers stand in rows of that many: the first row fills, the second
    // empties, and each further row pours one hopper into those in order.
    #[tactic(auto, using(crate::proofs::Numbering::pour_by_row))]
    pub fn numbered(count: u8, number: u16) -> Option<Move>
        ensures { result ≡ move_of count number }
    {
        let h = usize::from(count);
        let k = usize::from(number);
        let row = k.checked_div(h)?;
        let i = k % h;
        match row {
            0 => Some(Move::Fill(i)),
            1 => Some(Move::Empty(i)),
            _ => (row < h + 2).then_some(Move::Pour(row - 2, i)),
        }
    }

    // The levels after the move, or none where it is forbidden.
    pub fn made(self, capacities: Levels, levels: Levels) -> Option<Levels>
        ensures { result ≡ made capacities levels self }
    {
        let hoppers = Filled { capacities, levels };
        match self {
            Move::Fill(i) => hoppers.fill(i),
            Move::Empty(i) => hoppers.empty(i),
            Move::Pour(i, j) => hoppers.pour(i, j),
        }
    }
}

// A move is written as a word and its hoppers.
impl fmt::Display for Move {
    ghost output = { λ k. Some (move_text k) };

    fn fmt<W: fmt::Write>(&self, f: &mut fmt::Formatter<W>) -> fmt::Result {
        match *self {
            Move::Fill(i) => write!(f, "fill {i}"),
            Move::Empty(i) => write!(f, "empty {i}"),
            Move::Pour(i, j) => write!(f, "pour {i} {j}"),
        }
    }
}

// Hoppers of some capacities, filled to some levels.
#[derive(Clone, Copy)]
struct Filled {
    capacities: Levels,
    levels: Levels,
}

impl Filled {
    // A hopper is filled, unless it is full.
    fn fill(self, i: usize) -> Option<Levels>
        ensures { result ≡ made self.capacities self.levels (Move.Fill i) }
    {
        let full = self.capacities.level(i);
        (self.levels.level(i) < full).then_some(self.levels.put(i, full))
    }

    // A hopper is emptied, unless it is empty.
    fn empty(self, i: usize) -> Option<Levels>
        ensures { result ≡ made self.capacities self.levels (Move.Empty i) }
    {
        (self.levels.level(i) > 0).then_some(self.levels.put(i, 0))
    }

    // Hopper i is poured into j, until i is empty or j full, where they are two, i is not empty, and j is not full.
    fn pour(self, i: usize, j: usize) -> Option<Levels>
        ensures { result ≡ made self.capacities self.levels (Move.Pour i j) }
    {
        let have = self.levels.level(i);
        let held = self.levels.level(j);
        let room = self.capacities.level(j).saturating_sub(held);
        let poured = have.min(room);
        (i != j && poured > 0).then_some(self.levels.put(i, have - poured).put(j, held + poured))
    }
}
