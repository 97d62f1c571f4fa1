// The type of a text of the size of a sheet. A definition that names a type cannot be cited in the file of the type, so its methods stand
// in shape, wrong and names.
ghost use Rattle.std.specs.Prelude.{◌≡◌};
ghost use Rattle.sheet.specs.Grid.{fact_count, action_count};
ghost use Rattle.sheet.specs.Reading.{Sized};

// The lines before the first action: the facts' names, the state and the goal.
pub const HEAD_LINES: usize = 3;

// A text of the size of a sheet, with the numbers of its facts and actions.
#[derive(Clone, Copy)]
pub struct Grid<'a> {
    pub text: &'a [u8],
    pub facts: usize,
    pub actions: usize,
    ghost sized: { Sized text.now },
    ghost facts_are: { facts ≡ fact_count text.now },
    ghost actions_are: { actions ≡ action_count text.now },
}
