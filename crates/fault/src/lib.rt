// Everything that is refused: one enum, whose every case has a number, a layer and a place.
#![tactic(auto)]

ghost use Rattle.std.specs.Prelude.{◌≡◌, Some};
ghost use Rattle.fault.specs.Refusals.{refusal, place_text, fault_text, ToldApart};

use std::error::Error;
use std::fmt;

// The part of the planner that refuses.
#[derive(Clone, Copy, PartialEq, Eq, Debug)]
pub enum Layer {
    Bytes,
    Lines,
    Sheet,
    Planner,
    Search,
    Checker,
}

// Where the trouble is: an offset, an index or a number, or a row and a move from it.
#[derive(Clone, Copy, PartialEq, Eq, Debug)]
pub enum Place {
    At(usize),
    RowMove(usize, u16),
}

// What was refused, with what the refusal carries.
#[derive(Clone, Copy, PartialEq, Eq, Debug)]
pub enum Fault {
    // the text is empty or too long
    TextLength,
    // the bytes are not lines, from this offset on
    NotLines(usize),
    // too few lines or facts, or too many facts or actions, from this offset on
    SheetSize(usize),
    // the line at this offset has another number of words than the first
    WordCount(usize),
    // the word at this offset is none that its column allows
    WrongWord(usize),
    // the name at this offset came before
    RepeatedName(usize),
    // no sheet is loaded
    NoSheet,
    // a run is open
    RunOpen,
    // the token is not the open run's
    WrongToken,
    // this fact is not one of the task's
    NoSuchFact(usize),
    // the list is no plan, from this index on
    NotPlan(usize),
    // the plan has too many actions for a run
    LongPlan,
    // there is no such direction
    NoSuchDirection,
    // the dual text does not fit its buffer
    ShortBuffer,
    // more nodes are counted than the tables have rows
    TooFewRows,
    // the plan is longer than its slice
    TooFewPlaces,
    // a hopper setting is out of range
    BadHoppers,
    // this row is no node
    NotNode(usize),
    // the start is missing
    NoStart,
    // this row is a target
    TargetRow(usize),
    // the next node of this row by this move is missing
    NextMissing(usize, u16),
}

impl Fault {
    // The refusal's number.
    pub fn number(self) -> u8
        ensures { result ≡ (refusal self).number }
    {
        match self {
            Fault::TextLength => 1,
            Fault::NotLines(_) => 2,
            Fault::SheetSize(_) => 3,
            Fault::WordCount(_) => 4,
            Fault::WrongWord(_) => 5,
            Fault::RepeatedName(_) => 6,
            Fault::NoSheet => 7,
            Fault::RunOpen => 8,
            Fault::WrongToken => 9,
            Fault::NoSuchFact(_) => 10,
            Fault::NotPlan(_) => 11,
            Fault::LongPlan => 12,
            Fault::NoSuchDirection => 13,
            Fault::ShortBuffer => 14,
            Fault::TooFewRows => 15,
            Fault::TooFewPlaces => 16,
            Fault::BadHoppers => 17,
            Fault::NotNode(_) => 18,
            Fault::NoStart => 19,
            Fault::TargetRow(_) => 20,
            Fault::NextMissing(_, _) => 21,
        }
    }

    // The layer that refused.
    pub fn layer(self) -> Layer
        ensures { result ≡ (refusal self).layer }
    {
        match self {
            Fault::TextLength | Fault::NotLines(_) | Fault::ShortBuffer => Layer::Bytes,
            Fault::SheetSize(_) | Fault::WordCount(_) => Layer::Lines,
            Fault::WrongWord(_) | Fault::RepeatedName(_) => Layer::Sheet,
            Fault::TooFewRows | Fault::TooFewPlaces | Fault::BadHoppers => Layer::Search,
            Fault::NotNode(_) | Fault::NoStart | Fault::TargetRow(_) | Fault::NextMissing(_, _) =>
                Layer::Checker,
            _ => Layer::Planner,
        }
    }

    // The place that the refusal names.
    pub fn place(self) -> Place
        ensures { result ≡ (refusal self).place }
    {
        match self {
            Fault::NotLines(at)
            | Fault::SheetSize(at)
            | Fault::WordCount(at)
            | Fault::WrongWord(at)
            | Fault::RepeatedName(at)
            | Fault::NoSuchFact(at)
            | Fault::NotPlan(at)
            | Fault::NotNode(at)
            | Fault::TargetRow(at) => Place::At(at),
            Fault::NextMissing(row, by) => Place::RowMove(row, by),
            _ => Place::At(0),
        }
    }
}

// A place is written as its numbers.
impl fmt::Display for Place {
    ghost output = { λ p. Some (place_text p) };

    fn fmt<W: fmt::Write>(&self, f: &mut fmt::Formatter<W>) -> fmt::Result {
        match *self {
            Place::At(at) => write!(f, "{at}"),
            Place::RowMove(row, by) => write!(f, "{row} {by}"),
        }
    }
}

// A fault is written as its number and its place.
impl fmt::Display for Fault {
    ghost output = { λ f. Some (fault_text f) };

    fn fmt<W: fmt::Write>(&self, f: &mut fmt::Formatter<W>) -> fmt::Result {
        let number = self.number();
        let place = self.place();
        write!(f, "{number} {place}")
    }
}

impl Error for Fault {}

// Two faults with the same number, layer and place are the same fault.
pub fn faults_are_told_apart()
    ensures { ToldApart }
{}
