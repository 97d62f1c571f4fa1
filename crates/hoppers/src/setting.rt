// Hoppers as they are set up: the type and what always holds of it. A definition that names a type cannot be cited in the file of the
// type, so the functions on hoppers stand in hopper_space.
ghost use Rattle.std.specs.Prelude.{◌≡◌, true, ◌&&◌, nat_le};
ghost use Rattle.hoppers.specs.Levels.{within};

use crate::levels::Levels;

// The count of hoppers, their capacities, the levels at the start, and which level is wanted in which hopper.
#[derive(Clone, Copy)]
pub struct Hoppers {
    pub(crate) count: u8,
    pub(crate) capacities: Levels,
    pub(crate) start: Levels,
    pub(crate) hopper: usize,
    pub(crate) wanted: u8,
    ghost fine: { (nat_le count 8 && within start capacities) ≡ true },
}
