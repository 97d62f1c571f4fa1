// What a search space is: six questions, whose answers are those of one meaning.
#![tactic(auto)]

ghost use Rattle.std.specs.Prelude.{◌≡◌, true, false, length};
ghost use Rattle.space.specs.Meaning.{Meaning, Lawful};
ghost use Rattle.space.specs.Paths.{CountedAsTold};
ghost use Rattle.space.specs.Rows.{node_at, Held};

// A space is asked six things, and asking alters nothing: each answer is the meaning's, however often asked.
pub trait Space {
    // a word, or a record of plain numbers
    type Node: Copy;

    // the nodes, the start, the count of moves, the targets and the next nodes
    ghost meaning: { Self → Meaning Self.Node };

    // Is this a node?
    fn is_node(&self, node: Self::Node) -> bool
        ensures { result ≡ (meaning self.now).node node };

    // The start. Whoever answers it also shows that the meaning keeps the laws of a space.
    fn start(&self) -> Self::Node
        ensures value { result ≡ (meaning self.now).start }
        ensures lawful { Lawful (meaning self.now) };

    // The count of moves.
    fn count(&self) -> u16
        ensures { result ≡ (meaning self.now).count };

    // Is this a target?
    fn is_target(&self, node: Self::Node) -> bool
        ensures { result ≡ (meaning self.now).target node };

    // The next node by a move, or none where the move is forbidden.
    fn next(&self, node: Self::Node, by: u16) -> Option<Self::Node>
        ensures { result ≡ (meaning self.now).next node by };

    // Are these two equal?
    fn same(&self, a: Self::Node, b: Self::Node) -> bool
        ensures { (result ≡ true → a ≡ b) × (a ≡ b → result ≡ true) };
}

// Whether one of the rows holds the node.
pub fn holds<S: Space>(space: &S, rows: &[S::Node], node: S::Node) -> bool
    ensures found { result ≡ true → Held (node_at (S.Space.meaning space.now) rows.now) (length rows.now) node }
    ensures missed { result ≡ false → Held (node_at (S.Space.meaning space.now) rows.now) (length rows.now) node → ⊥ }
{
    rows.iter().any(|row| space.same(*row, node))
}

// The counted nodes are, in every space, those no farther than the nearest target, or all reachable ones where no target is reachable.
pub fn counting_is_as_told<N>()
    ensures { (m : Meaning N) (a : N) → CountedAsTold m a }
{}
