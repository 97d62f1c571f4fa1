// The pieces of a text between separators.
#![tactic(auto)]

ghost use Rattle.std.specs.Prelude.{◌≡◌, ℕ, ◌+◌, ◌^◌, ◌<◌, ◌≤◌, ◌≢◌, IfSome, length, drop, slice_index};
ghost use Rattle.std.specs.Iterator.{YieldsFirstBy};
ghost use Rattle.std.specs.Iterator.Runs.{AllItems, EachRunFrom, ItemsMapTo};
ghost use Rattle.pieces.specs.Pieces.{pieces, place, piece, Ends, placed, located, pieces_left};

use std::ops::Range;

// The number of bytes in front of the first separator, or of all bytes.
fn first_len(text: &[u8], sep: u8) -> usize
    ensures within { result ≤ length text.now }
    ensures before { (i : ℕ) → i < result → slice_index text.now i ≢ sep }
    ensures found { result < length text.now → slice_index text.now result ≡ sep }
{
    text.iter().position(|b| *b == sep).unwrap_or(text.len())
}

// Where the piece ends that a place is in: at the next separator from there on, or with the text.
pub fn piece_end(text: &[u8], sep: u8, at: usize) -> usize
    ensures { Ends sep text.now at result }
{
    match text.get(at..) {
        Some(rest) => at + first_len(rest, sep),
        None => text.len(),
    }
}

// The text from a place up to the next separator; empty past the end of the text. At the beginning of a piece it is that piece.
pub fn piece_from(text: &[u8], sep: u8, at: usize) -> &[u8]
    ensures from { result.now ≡ piece (pieces sep (drop at text.now)) 0 }
    ensures is { (k : ℕ) → k < length (pieces sep text.now) → at ≡ place (pieces sep text.now) k → result.now ≡ piece (pieces sep text.now) k }
{
    if at > text.len() {
        return b"";
    }
    &text[at..piece_end(text, sep, at)]
}

// The number of separators in a text.
pub fn separators(text: &[u8], sep: u8) -> usize
    ensures is { result + 1 ≡ length (pieces sep text.now) }
    ensures few { result ≤ length text.now }
{
    text.iter().map(|b| usize::from(*b == sep)).sum()
}

// Where piece k begins; for a piece that the text does not have, one past its end.
#[tactic(auto, using(crate::proofs::Splits::place_past, crate::proofs::Splits::place_inside))]
pub fn piece_start(text: &[u8], sep: u8, k: usize) -> usize
    ensures is { result ≡ place (pieces sep text.now) k }
    ensures inside { result ≤ length text.now + 1 }
{
    Pieces::of(text, sep)
        .nth(k)
        .map_or(text.len() + 1, |p| p.start)
}

// Piece k; empty for a piece that the text does not have.
pub fn piece_at(text: &[u8], sep: u8, k: usize) -> &[u8]
    ensures { result.now ≡ piece (pieces sep text.now) k }
{
    Pieces::of(text, sep).nth(k).map_or(b"", |p| p.bytes)
}

// A piece of a text: where it begins, and its bytes.
#[derive(Clone, Copy)]
pub struct Piece<'a> {
    pub start: usize,
    pub bytes: &'a [u8],
}

impl Piece<'_> {
    // Where the piece stands in its text.
    pub fn range(&self) -> Range<usize>
        requires { self.now.start + length self.now.bytes.now < 2 ^ 64 }
        ensures from { result.start ≡ self.now.start }
        ensures to { result.end ≡ self.now.start + length self.now.bytes.now }
    {
        self.start..self.start + self.bytes.len()
    }
}

// The pieces of a text, one after the other.
#[derive(Clone, Copy)]
pub struct Pieces<'a> {
    text: &'a [u8],
    sep: u8,
    // where the next piece begins; past the text where none is left
    at: usize,
}

impl<'a> Pieces<'a> {
    // All pieces of a text.
    pub fn of(text: &'a [u8], sep: u8) -> Pieces<'a>
        ensures all { pieces_left result ≡ placed 0 (pieces sep text.now) }
        ensures few { length (pieces_left result) ≤ length text.now + 1 }
        ensures runs { EachRunFrom (YieldsFirstBy located pieces_left) result (λ p. ItemsMapTo p (λ x. x.bytes.now) (pieces sep text.now)) }
        ensures starts { EachRunFrom (YieldsFirstBy located pieces_left) result (λ p. (k : ℕ) → IfSome (p.at k) (λ x. x.start ≡ place (pieces sep text.now) k)) }
        ensures inside { EachRunFrom (YieldsFirstBy located pieces_left) result (λ p. AllItems p (λ x. x.start + length x.bytes.now ≤ length text.now)) }
    {
        Pieces { text, sep, at: 0 }
    }
}

impl<'a> Iterator for Pieces<'a> {
    ghost use Rattle.std.specs.Iterator.{YieldsFirstBy, item_count};
    ghost use Rattle.pieces.specs.Pieces.{located, pieces_left};

    type Item = Piece<'a>;

    ghost next_gives = { YieldsFirstBy located pieces_left };

    ghost remaining = { item_count pieces_left };

    fn next(&mut self) -> Option<Piece<'a>> {
        if self.at > self.text.len() {
            return None;
        }
        let start = self.at;
        let end = piece_end(self.text, self.sep, start);
        self.at = end + 1;
        Some(Piece {
            start,
            bytes: &self.text[start..end],
        })
    }
}
