// The node table and the link table of a search, in lent memory, and how a search fills them.
ghost use Rattle.std.specs.Prelude.{◌≡◌, ℕ, ◌+◌, ◌<◌, ◌≤◌, length, min};
ghost use Rattle.bfs.specs.Tables.{link_at};

use crate::MAX_ROWS;
use fault::Fault;
use space::{Space, holds};

// The distance of a row's node, the row of a node one nearer, and the move that leads from there.
#[derive(Clone, Copy, PartialEq, Eq, Debug)]
pub struct Link {
    pub distance: u16,
    pub row: u16,
    pub via: u16,
}

impl Link {
    // The start's link.
    pub const ORIGIN: Link = Link {
        distance: 0,
        row: 0,
        via: 0,
    };

    // The link of a node that a move leads to from the node of a row.
    fn onward(self, row: usize, via: u16) -> Link
        requires { (self.distance < 65535) × (row < 65536) }
        ensures { (result.distance ≡ self.distance + 1) × (result.row ≡ row) × (result.via ≡ via) }
    {
        Link {
            distance: self.distance + 1,
            row: row as u16,
            via,
        }
    }
}

// The rows that a search has filled, of those that it may fill.
#[derive(Drop)]
pub struct NodeTable<'a, N> {
    rows: &'a mut [N],
    links: &'a mut [Link],
    capacity: usize,
    used: usize,
    ghost room: { capacity ≡ min (min (length rows.now) (length links.now)) 65536 },
    ghost used_fits: { used ≤ capacity },
    ghost near: { (i : ℕ) → i < used → (link_at links.now i).distance ≤ i },
}

impl<'a, N: Copy> NodeTable<'a, N> {
    ghost use Rattle.std.specs.Prelude.{true, false, Some, None, Ok};
    ghost use Rattle.fault.specs.declared.Fault.{Fault};
    ghost use Rattle.bfs.specs.Progress.{ExploredSo, Grown, Pushed, Readable, Turned, Written, trail};
    ghost use Rattle.space.specs.Meaning.{Lawful};
    ghost use Rattle.space.specs.Rows.{node_at, Held};

    // A table over the lent slices with no row used.
    pub(crate) fn new(rows: &'a mut [N], links: &'a mut [Link]) -> NodeTable<'a, N>
        ensures rows { result.rows.ghost_name ≡ rows.entry.ghost_name }
        ensures links { result.links.ghost_name ≡ links.entry.ghost_name }
        ensures same_rows { result.rows.now ≡ rows.old }
        ensures same_links { result.links.now ≡ links.old }
        ensures used { result.used ≡ 0 }
    {
        let capacity = rows.len().min(links.len()).min(MAX_ROWS);
        NodeTable {
            rows,
            links,
            capacity,
            used: 0,
        }
    }

    // The count of rows used.
    pub(crate) fn used(&self) -> usize
        ensures { result ≡ self.now.used }
    {
        self.used
    }

    // Refuses a table with no row left.
    fn check_room(&self) -> Result<(), Fault>
        ensures room { result ≡ Ok tt → self.now.used < self.now.capacity }
        ensures full { (f : Fault) → result ≡ Err f → (f ≡ Fault.TooFewRows) × (self.now.used ≡ self.now.capacity) }
    {
        if self.used == self.capacity {
            return Err(Fault::TooFewRows);
        }
        Ok(())
    }

    // Fills the next row.
    fn push(&mut self, node: N, link: Link)
        requires room { self.old.used < self.old.capacity }
        requires near { link.distance ≤ self.old.used }
        ensures { Pushed self.old self.new node link }
    {
        self.rows[self.used] = node;
        self.links[self.used] = link;
        self.used += 1;
    }

    // Whether one of the rows used holds the node.
    fn has<S: Space<Node = N>>(&self, space: &S, node: N) -> bool
        ensures found { result ≡ true → Held (node_at (S.Space.meaning space.now) self.now.rows.now) self.now.used node }
        ensures missed { result ≡ false → Held (node_at (S.Space.meaning space.now) self.now.rows.now) self.now.used node → ⊥ }
    {
        holds(space, &self.rows[..self.used], node)
    }

    // The next node of a row by a move.
    fn next_of<S: Space<Node = N>>(&self, space: &S, row: usize, by: u16) -> Option<N>
        requires { row < self.now.used }
        ensures { result ≡ (S.Space.meaning space.now).next (node_at (S.Space.meaning space.now) self.now.rows.now row) by }
    {
        space.next(self.rows[row], by)
    }

    // Makes a move from a row; refused where its next node is new and no row is left.
    fn make_move<S: Space<Node = N>>(&mut self, space: &S, row: usize, by: u16) -> Result<(), Fault>
        requires { row < self.old.used }
        ensures grown { Grown (S.Space.meaning space.now) self.old self.new }
        ensures turned { (last : ℕ) → row < last → Turned (S.Space.meaning space.now) self.old self.new last row by row (by + 1) result }
    {
        let Some(next) = self.next_of(space, row, by) else {
            return Ok(());
        };
        if self.has(space, next) {
            return Ok(());
        }
        self.check_room()?;
        let link = self.links[row].onward(row, by);
        self.push(next, link);
        Ok(())
    }

    // Makes every move from a row.
    fn expand<S: Space<Node = N>>(&mut self, space: &S, row: usize) -> Result<(), Fault>
        requires lawful { Lawful (S.Space.meaning space.now) }
        requires within { row < self.old.used }
        ensures grown { Grown (S.Space.meaning space.now) self.old self.new }
        ensures turned { (last : ℕ) → row < last → Turned (S.Space.meaning space.now) self.old self.new last row 0 (row + 1) 0 result }
    {
        for by in 0..space.count() {
            self.make_move(space, row, by)?;
        }
        Ok(())
    }

    // Makes every move from the rows from first to last.
    fn expand_layer<S: Space<Node = N>>(
        &mut self,
        space: &S,
        first: usize,
        last: usize,
    ) -> Result<(), Fault>
        requires lawful { Lawful (S.Space.meaning space.now) }
        requires within { (first ≤ last) × (last ≤ self.old.used) }
        ensures grown { Grown (S.Space.meaning space.now) self.old self.new }
        ensures turned { Turned (S.Space.meaning space.now) self.old self.new last first 0 last 0 result }
    {
        for row in first..last {
            self.expand(space, row)?;
        }
        Ok(())
    }

    // The first of the rows used, from first on, whose node is a target.
    fn target_from<S: Space<Node = N>>(&self, space: &S, first: usize) -> Option<usize>
        requires { first ≤ self.now.used }
        ensures found { (i : ℕ) → result ≡ Some i → (first ≤ i) × (i < self.now.used) × ((S.Space.meaning space.now).target (node_at (S.Space.meaning space.now) self.now.rows.now i) ≡ true) }
        ensures first { (i h : ℕ) → result ≡ Some i → first + h < i → (S.Space.meaning space.now).target (node_at (S.Space.meaning space.now) self.now.rows.now (first + h)) ≡ false }
        ensures missed { result ≡ None → (i : ℕ) → first + i < self.now.used → (S.Space.meaning space.now).target (node_at (S.Space.meaning space.now) self.now.rows.now (first + i)) ≡ false }
    {
        self.rows[first..self.used]
            .iter()
            .position(|node| space.is_target(*node))
            .map(|at| first + at)
    }

    // Fills the table distance by distance, from the start through the distance of the nearest target, and answers that target's row.
    pub(crate) fn explore<S: Space<Node = N>>(&mut self, space: &S) -> Result<Option<usize>, Fault>
        requires { self.old.used ≡ 0 }
        ensures grown { Grown (S.Space.meaning space.now) self.old self.new }
        ensures ended { ExploredSo (S.Space.meaning space.now) self.old self.new result }
    {
        self.check_room()?;
        self.push(space.start(), Link::ORIGIN);
        let mut first = 0;
        while first < self.used {
            if let Some(row) = self.target_from(space, first) {
                return Ok(Some(row));
            }
            let last = self.used;
            self.expand_layer(space, first, last)?;
            first = last;
        }
        Ok(None)
    }

    // Writes the moves that lead to a row into the first places of the plan slice, and answers their count.
    pub(crate) fn read_back(&self, row: usize, plan: &mut [u16]) -> Result<usize, Fault>
        requires { Readable self.now row }
        ensures { Written (link_at self.now.links.now) row plan.old plan.new result }
    {
        let length = usize::from(self.links[row].distance);
        if plan.len() < length {
            return Err(Fault::TooFewPlaces);
        }
        let mut at = row;
        for i in (0..length).rev() {
            plan[i] = self.links[at].via;
            at = usize::from(self.links[at].row);
        }
        Ok(length)
    }
}
