// Runs of reading sheets, of their dual texts, and of the answer as text.
#![tactic(auto)]

#[cfg(test)]
mod tests {
    use answer::report;
    use dual_text::write_dual;
    use fault::Fault;
    use sheet::Sheet;
    use std::alloc::{AllocError, Global};
    use std::test::Fail;

    // Grind, wash and pack a lot of pods.
    const PEPPER: &str =
        "line pods clean ground packed\nnow 1 1 0 0\nwish - - - 1\ngrind pd pd a -\nwash - a - -\npack - p pd a\n";

    const PEPPER_DUAL: &str =
        "line pods clean ground packed\nnow 1 1 1 0\nwish - - 1 1\ngrind pd pd a -\nwash - a - -\npack - d pd a\n";

    // How a text is refused, if it is.
    fn refusal(text: &[u8]) -> Option<Fault> {
        match Sheet::read(text) {
            Ok(_) => None,
            Err(fault) => Some(fault),
        }
    }

    // Puts a name of three letters behind a text: a letter, and the number in letters.
    fn push_name(text: &mut Vec<u8>, first: u8, number: usize) -> Result<(), AllocError> {
        let number = number % 676;
        text.push(first)?;
        text.push(b'a' + (number / 26) as u8)?;
        text.push(b'a' + (number % 26) as u8)?;
        Ok(())
    }

    // A sheet with so many facts and actions, in which nothing holds, is to hold, or happens.
    fn idle_sheet(heap: Global, facts: usize, actions: usize) -> Result<Vec<u8>, AllocError> {
        let mut text = Vec::new(heap);
        text.extend_from_slice(b"line")?;
        for i in 0..facts {
            text.push(b' ')?;
            push_name(&mut text, b'f', i)?;
        }
        text.extend_from_slice(b"\nnow")?;
        for _ in 0..facts {
            text.extend_from_slice(b" 0")?;
        }
        text.extend_from_slice(b"\nwish")?;
        for _ in 0..facts {
            text.extend_from_slice(b" -")?;
        }
        text.push(b'\n')?;
        for k in 0..actions {
            push_name(&mut text, b'x', k)?;
            for _ in 0..facts {
                text.extend_from_slice(b" -")?;
            }
            text.push(b'\n')?;
        }
        Ok(text)
    }

    #[test]
    fn refusals_name_the_first_place(rt: HostRuntime) {
        for (text, fault) in [
            ("", Fault::TextLength),
            (" line", Fault::NotLines(0)),
            ("\n", Fault::NotLines(0)),
            ("Line", Fault::NotLines(0)),
            ("line a b", Fault::NotLines(8)),
            ("line a ", Fault::NotLines(7)),
            ("line a \n", Fault::NotLines(7)),
            ("line  a\n", Fault::NotLines(5)),
            ("line a\n\n", Fault::NotLines(7)),
            ("line a\nnow 1\n", Fault::SheetSize(13)),
            ("line\nnow\nwish\n", Fault::SheetSize(14)),
            ("line a\nnow\nwish 1\n", Fault::WordCount(7)),
            (
                "line a\nnow 1\nwish 1\ngo -\nrun - -\n",
                Fault::WordCount(25),
            ),
            ("lines a\nnow 1\nwish 1\n", Fault::WrongWord(0)),
            ("line 1a\nnow 1\nwish 1\n", Fault::WrongWord(5)),
            ("line a-b\nnow 1\nwish 1\n", Fault::WrongWord(5)),
            ("line a\nnow -\nwish 1\n", Fault::WrongWord(11)),
            ("line a\nnow 1\nwish 0\n", Fault::WrongWord(18)),
            ("line a\nnow 1\nwant 1\n", Fault::WrongWord(13)),
            ("line a\nnow 1\nwish 1\ngo dp\n", Fault::WrongWord(23)),
            ("line a\nnow 1\nwish 1\ngo pp\n", Fault::WrongWord(23)),
            ("line a\nnow 1\nwish 1\ngo p-\n", Fault::WrongWord(23)),
            ("line a\nnow 1\nwish 1\n2go p\n", Fault::WrongWord(20)),
            (
                "line a b a\nnow 1 0 0\nwish - - -\n",
                Fault::RepeatedName(9),
            ),
            (
                "line a\nnow 1\nwish 1\ngo p\nrun -\ngo -\n",
                Fault::RepeatedName(31),
            ),
        ] {
            assert_eq!(rt; refusal(text.as_bytes()), Some(fault));
        }
    }

    #[test]
    fn each_refusal_comes_before_the_next(rt: HostRuntime) {
        for (text, fault) in [
            ("line a a\nnow 2 0\nwish -\n go\n", Fault::NotLines(24)),
            ("line a a\nnow 2\n", Fault::SheetSize(15)),
            ("line a a\nnow 2 0\nwish -\n", Fault::WordCount(17)),
            ("line a a\nnow 2 0\nwish - -\n", Fault::WrongWord(13)),
            (
                "line a a\nnow 1 0\nwish - -\ngo - -\ngo - -\n",
                Fault::RepeatedName(7),
            ),
        ] {
            assert_eq!(rt; refusal(text.as_bytes()), Some(fault));
        }
    }

    #[test]
    fn names_have_up_to_sixteen_letters_and_digits(rt: HostRuntime) {
        assert_eq!(rt; refusal(b"line abcdefghijklmn16\nnow 1\nwish 1\n"), None);
        assert_eq!(rt;
            refusal(b"line abcdefghijklmno17\nnow 1\nwish 1\n"),
            Some(Fault::WrongWord(5))
        );
    }

    #[test]
    fn sheets_have_up_to_64_facts_and_256_actions(rt: HostRuntime) -> Result<(), Fail> {
        let heap = rt.alloc();
        assert_eq!(rt; refusal(idle_sheet(heap, 64, 0)?.as_slice()), None);
        assert_eq!(rt; refusal(idle_sheet(heap, 64, 256)?.as_slice()), None);
        assert_eq!(rt;
            refusal(idle_sheet(heap, 65, 0)?.as_slice()),
            Some(Fault::SheetSize(261))
        );
        assert_eq!(rt; refusal(idle_sheet(heap, 1, 256)?.as_slice()), None);
        assert_eq!(rt;
            refusal(idle_sheet(heap, 1, 257)?.as_slice()),
            Some(Fault::SheetSize(1_558))
        );
        Ok(())
    }

    #[test]
    fn texts_have_up_to_65535_bytes(rt: HostRuntime) {
        let text = [b'a'; 65_536];
        assert_eq!(rt; refusal(&text), Some(Fault::TextLength));
        assert_eq!(rt; refusal(&text[..65_535]), Some(Fault::NotLines(65_535)));
    }

    #[test]
    fn names_are_parts_of_the_text(rt: HostRuntime) -> Result<(), Fail> {
        let sheet = Sheet::read(PEPPER.as_bytes())?;
        let Some(ground) = sheet.fact_name(2) else {
            return Err(Fail::new("no such fact"));
        };
        assert!(rt; ground.bytes == b"ground".as_slice());
        assert_eq!(rt; ground.offset, 16);
        let Some(pack) = sheet.action_name(2) else {
            return Err(Fail::new("no such action"));
        };
        assert!(rt; pack.bytes == b"pack".as_slice());
        assert_eq!(rt; pack.offset, 84);
        assert!(rt; sheet.fact_name(4).is_none());
        assert!(rt; sheet.action_name(3).is_none());
        Ok(())
    }

    #[test]
    fn the_dual_of_a_dual_is_the_text(rt: HostRuntime) {
        let mut dual = [b'?'; 100];
        assert_eq!(rt; write_dual(PEPPER.as_bytes(), &mut dual), Ok(PEPPER.len()));
        assert!(rt; dual.starts_with(PEPPER_DUAL.as_bytes()));
        assert!(rt; dual.ends_with(b"\n??"));
        let mut twice = [b'?'; 98];
        assert_eq!(rt;
            write_dual(PEPPER_DUAL.as_bytes(), &mut twice),
            Ok(PEPPER.len())
        );
        assert!(rt; twice.starts_with(PEPPER.as_bytes()));
    }

    #[test]
    fn a_refused_dual_leaves_the_buffer(rt: HostRuntime) {
        let mut short = [b'?'; 97];
        assert_eq!(rt;
            write_dual(PEPPER.as_bytes(), &mut short),
            Err(Fault::ShortBuffer)
        );
        assert_eq!(rt;
            write_dual(b"line a\n", &mut short),
            Err(Fault::SheetSize(7))
        );
        assert!(rt; short == [b'?'; 97]);
    }

    #[test]
    fn answers_are_written(rt: HostRuntime) -> Result<(), Fail> {
        let heap = rt.alloc();
        for (text, answer) in [
            (PEPPER, "answer length rows\nplan 3 4\ngrind\nwash\npack\n"),
            (
                "line a b\nnow 1 0\nwish - 1\ngo p -\n",
                "answer length rows\nnone 0 1\n",
            ),
            ("line a\nnow 1\nwish 1\n", "answer length rows\nplan 0 1\n"),
            (
                "line a\nnow 1\nwish 2\n",
                "answer length rows\nrefused 5 18\n",
            ),
        ] {
            let written = report(heap, text.as_bytes())?;
            assert!(rt; written.as_slice() == answer.as_bytes());
        }
        Ok(())
    }

    #[test]
    fn what_is_read_is_the_task(rt: HostRuntime) -> Result<(), Fail> {
        let sheet = Sheet::read(PEPPER.as_bytes())?;
        assert_eq!(rt; sheet.fact_count(), 4);
        assert_eq!(rt; sheet.action_count(), 3);
        assert_eq!(rt; sheet.state(), 0b0011);
        assert_eq!(rt; sheet.goal(), 0b1000);
        let mut actions = sheet.actions();
        for (needs, adds, deletes) in [
            (0b0011, 0b0100, 0b0011),
            (0, 0b0010, 0),
            (0b0110, 0b1000, 0b0100),
        ] {
            let Some(action) = actions.next() else {
                return Err(Fail::new("an action is missing"));
            };
            assert_eq!(rt;
                (action.needs, action.adds, action.deletes),
                (needs, adds, deletes)
            );
        }
        assert!(rt; actions.next().is_none());
        Ok(())
    }
}
