// Whether a list of nodes is a closed set of a space: evidence that no target can be reached.
#![tactic(auto)]

ghost use Rattle.std.specs.Prelude.{◌≡◌, ℕ, ◌<◌, true, false, length, slice_index_or, Ok, Err};
ghost use Rattle.closed.specs.Check.{Checked, FirstMove, Free, Keeps, Misses, MissingAt, NoNodeAt, Nodes, TargetAt};
ghost use Rattle.fault.specs.declared.Fault.{Fault};
ghost use Rattle.closed.specs.Judgement.{ChecksSound};
ghost use Rattle.space.specs.Meaning.{Lawful, Meaning};
ghost use Rattle.space.specs.Rows.{node_at};

use fault::Fault;
use space::{Space, holds};

// Tests the rows one after another, up to the first that breaks a rule.
fn first_break<N: Copy, F: Fn(usize, N) -> Result<(), Fault>>(
    rows: &[N],
    test: F,
) -> Result<(), Fault>
    requires { F.IsAlwaysCallable test }
    ensures passed { result ≡ Ok tt → (i : ℕ) (d : _) → i < length rows.now → F.post test i (slice_index_or rows.now i d) (Ok tt) }
    ensures broke { (f : Fault) → result ≡ Err f → (i : ℕ) × (i < length rows.now) × ((d : _) → F.post test i (slice_index_or rows.now i d) (Err f)) × ((h : ℕ) (d : _) → h < i → F.post test h (slice_index_or rows.now h d) (Ok tt)) }
{
    for (i, row) in rows.iter().enumerate() {
        test(i, *row)?;
    }
    Ok(())
}

// Whether the next node by a move, if the move is allowed, is one of the rows.
fn keeps<S: Space>(space: &S, rows: &[S::Node], from: S::Node, by: u16) -> bool
    ensures kept { result ≡ true → Keeps (S.Space.meaning space.now) rows.now from by }
    ensures missed { result ≡ false → Misses (S.Space.meaning space.now) rows.now from by }
{
    space
        .next(from, by)
        .is_none_or(|next| holds(space, rows, next))
}

// The first move from a node whose next node is missing.
fn missing_move<S: Space>(space: &S, rows: &[S::Node], from: S::Node) -> Option<u16>
    requires { Lawful (S.Space.meaning space.now) }
    ensures { FirstMove (S.Space.meaning space.now) rows.now from result }
{
    (0..space.count()).find(|by| !keeps(space, rows, from, *by))
}

// Refuses the first row that is no node.
fn check_nodes<S: Space>(space: &S, rows: &[S::Node]) -> Result<(), Fault>
    ensures passed { result ≡ Ok tt → Nodes (S.Space.meaning space.now) rows.now (length rows.now) }
    ensures broke { (f : Fault) → result ≡ Err f → NoNodeAt (S.Space.meaning space.now) rows.now f }
{
    first_break(
        rows,
        |i, node| if space.is_node(node) {
            Ok(())
        } else {
            Err(Fault::NotNode(i))
        },
    )
}

// Refuses the first row that is a target.
fn check_targets<S: Space>(space: &S, rows: &[S::Node]) -> Result<(), Fault>
    ensures passed { result ≡ Ok tt → Free (S.Space.meaning space.now) rows.now (length rows.now) }
    ensures broke { (f : Fault) → result ≡ Err f → TargetAt (S.Space.meaning space.now) rows.now f }
{
    first_break(
        rows,
        |i, node| if space.is_target(node) {
            Err(Fault::TargetRow(i))
        } else {
            Ok(())
        },
    )
}

// Refuses the first row from which a next node is missing.
fn check_moves<S: Space>(space: &S, rows: &[S::Node]) -> Result<(), Fault>
    requires { Lawful (S.Space.meaning space.now) }
    ensures passed { result ≡ Ok tt → (i j : ℕ) → i < length rows.now → Keeps (S.Space.meaning space.now) rows.now (node_at (S.Space.meaning space.now) rows.now i) j }
    ensures broke { (f : Fault) → result ≡ Err f → MissingAt (S.Space.meaning space.now) rows.now f }
{
    first_break(rows, |i, node| match missing_move(space, rows, node) {
        Some(by) => Err(Fault::NextMissing(i, by)),
        None => Ok(()),
    })
}

// Accepts the rows where they are a closed set of the space, and else names the first break of the rule: a row that is no node,
// then a missing start, then a target, then a missing next node.
pub fn check_closed<S: Space>(space: &S, rows: &[S::Node]) -> Result<(), Fault>
    ensures { Checked (S.Space.meaning space.now) rows.now result }
{
    check_nodes(space, rows)?;
    if !holds(space, rows, space.start()) {
        return Err(Fault::NoStart);
    }
    check_targets(space, rows)?;
    check_moves(space, rows)
}

// Every answer that meets the check's contract is sound, in every space: it accepts the closed sets and nothing else, and these
// show that no target can be reached.
pub fn checks_are_sound<N>()
    ensures { (m : Meaning N) → ChecksSound m }
{}
