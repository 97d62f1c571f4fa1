// Hoppers as a search space, and how they are set up.
ghost use Rattle.std.specs.Prelude.{◌≡◌, true, false, length};
ghost use Rattle.hoppers.specs.Moves.{move_of};
ghost use Rattle.hoppers.specs.Setting.{SetUp, GoodLevels, hoppers};

use crate::levels::Levels;
use crate::moves::Move;
use crate::setting::Hoppers;
use fault::Fault;
use space::Space;

// The most hoppers.
const MAX_HOPPERS: u8 = 8;

// The largest capacity.
const MAX_CAPACITY: u8 = 200;

// Whether each capacity is from 1 to the largest, and each level within its hopper's capacity.
fn in_range(capacities: &[u8], levels: &[u8]) -> bool
    requires { length levels.now ≡ length capacities.now }
    ensures good { result ≡ true → GoodLevels capacities.now levels.now (length capacities.now) }
    ensures bad { result ≡ false → GoodLevels capacities.now levels.now (length capacities.now) → ⊥ }
{
    capacities.iter().zip(levels).all(|(capacity, level)| (1..=MAX_CAPACITY).contains(capacity)
        && level <= capacity)
}

impl Hoppers {
    // Hoppers of these capacities, at these levels, with a level wanted in one of them.
    #[tactic(auto, using(crate::proofs::Laws::set_fine))]
    pub fn new(
        capacities: &[u8],
        levels: &[u8],
        hopper: usize,
        wanted: u8,
    ) -> Result<Hoppers, Fault>
        ensures { SetUp capacities.now levels.now hopper wanted result }
    {
        let Ok(count @ 1..=MAX_HOPPERS) = u8::try_from(capacities.len()) else {
            return Err(Fault::BadHoppers);
        };
        if levels.len() != capacities.len()
            || hopper >= capacities.len()
            || !in_range(capacities, levels)
        {
            return Err(Fault::BadHoppers);
        }
        Ok(Hoppers {
            count,
            capacities: Levels::padded(capacities),
            start: Levels::padded(levels),
            hopper,
            wanted,
        })
    }

    // The move of a number.
    pub fn move_numbered(&self, number: u16) -> Option<Move>
        ensures { result ≡ move_of self.now.count number }
    {
        Move::numbered(self.count, number)
    }
}

impl Space for Hoppers {
    type Node = Levels;

    ghost meaning = { hoppers };

    fn is_node(&self, node: Levels) -> bool {
        node.within(self.capacities)
    }

    #[tactic(auto, using(crate::proofs::Laws::lawful))]
    fn start(&self) -> Levels {
        self.start
    }

    fn count(&self) -> u16 {
        let h = u16::from(self.count);
        2 * h + h * h
    }

    fn is_target(&self, node: Levels) -> bool {
        self.is_node(node) && node.level(self.hopper) == self.wanted
    }

    fn next(&self, node: Levels, by: u16) -> Option<Levels> {
        if !self.is_node(node) {
            return None;
        }
        self.move_numbered(by)?.made(self.capacities, node)
    }

    fn same(&self, a: Levels, b: Levels) -> bool {
        a == b
    }
}
