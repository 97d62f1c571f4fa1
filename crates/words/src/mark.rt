// The mark of a fact in an action's line.
ghost use Rattle.std.specs.Prelude.{◌≡◌, true, false, length};
ghost use Rattle.words.specs.Marks.{dual_mark, mark_word};
ghost use Rattle.words.specs.Words.{is_mark};

// What an action does with one fact.
#[derive(Clone, Copy, Default)]
pub struct Mark {
    pub needs: bool,
    pub adds: bool,
    pub deletes: bool,
}

// A word that is no mark.
#[derive(Clone, Copy, Debug)]
pub struct NoMark;

// What a mark's last letter was: the letters come in this order, and a hyphen alone.
#[derive(Clone, Copy, PartialEq, PartialOrd)]
enum Last {
    Nothing,
    Needed,
    Added,
    Deleted,
    Hyphen,
}

impl TryFrom<&[u8]> for Mark {
    ghost use Rattle.std.specs.Result.{result_ok};
    ghost use Rattle.words.specs.Marks.{MarkOf};

    type Error = NoMark;

    ghost try_from_gives = { λ word r. MarkOf word.now (result_ok r) };

    // The mark that a word is, if it is one.
    #[tactic(auto, using(crate::proofs::Reading::mark_goes_on))]
    fn try_from(word: &[u8]) -> Result<Mark, NoMark> {
        let mut mark = Mark::default();
        let mut last = Last::Nothing;
        for b in word {
            match char::from(*b) {
                'p' if last < Last::Needed => {
                    mark.needs = true;
                    last = Last::Needed;
                }
                'a' if last < Last::Added => {
                    mark.adds = true;
                    last = Last::Added;
                }
                'd' if last < Last::Deleted => {
                    mark.deletes = true;
                    last = Last::Deleted;
                }
                '-' if last == Last::Nothing => last = Last::Hyphen,
                _ => return Err(NoMark),
            }
        }
        if last == Last::Nothing {
            return Err(NoMark);
        }
        Ok(mark)
    }
}

impl Mark {
    // The mark of the dual action: it needs what this one deletes, and deletes what this one needs.
    fn dual(self) -> Mark
        ensures { result ≡ record { needs = self.deletes; adds = self.adds; deletes = self.needs } }
    {
        Mark {
            needs: self.deletes,
            adds: self.adds,
            deletes: self.needs,
        }
    }

    // The word of a mark: p, a and d in that order, or a hyphen.
    fn word(self) -> &'static [u8]
        ensures { result.now ≡ mark_word self.needs self.adds self.deletes }
    {
        match (self.needs, self.adds, self.deletes) {
            (false, false, false) => b"-",
            (false, false, true) => b"d",
            (false, true, false) => b"a",
            (false, true, true) => b"ad",
            (true, false, false) => b"p",
            (true, false, true) => b"pd",
            (true, true, false) => b"pa",
            (true, true, true) => b"pad",
        }
    }
}

// Turns a mark into that of the dual action, in place; what is no mark stays as it is.
pub fn turn_mark(word: &mut [u8])
    ensures dual { is_mark word.old ≡ true → word.new ≡ dual_mark word.old }
    ensures other { is_mark word.old ≡ false → word.new ≡ word.old }
    ensures size { length word.new ≡ length word.old }
{
    if let Ok(mark) = Mark::try_from(&*word) {
        word.copy_from_slice(mark.dual().word());
    }
}
