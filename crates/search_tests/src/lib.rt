// Runs of the search and of the closed-set check, over hoppers of 3 and 5 and over a dial.
#![tactic(auto)]

ghost use Rattle.std.specs.Prelude.{◌+◌, true, Some, None, if◌then◌else◌, nat_eq, nat_le};

#[cfg(test)]
mod tests {
    use bfs::{Link, Outcome, find_plan};
    use closed::check_closed;
    use fault::Fault;
    use hoppers::{Hoppers, Levels};
    use space::Space;
    use std::alloc::Global;
    use std::test::Fail;

    // A number that no search writes here.
    const UNTOUCHED: u16 = 777;

    // Tables of so many rows and a plan slice of so many places, with the hoppers.
    #[derive(Drop)]
    struct Bench {
        hoppers: Hoppers,
        nodes: Vec<Levels>,
        links: Vec<Link>,
        plan: Vec<u16>,
    }

    impl Bench {
        fn new(heap: Global, wanted: u8, rows: usize, places: usize) -> Result<Bench, Fail> {
            let Ok(hoppers) = Hoppers::new(&[3, 5], &[0, 0], 1, wanted) else {
                return Err(Fail::new("not set up"));
            };
            Ok(Bench {
                hoppers,
                nodes: vec![in heap; Levels::padded(&[9]); rows]?,
                links: vec![in heap; Link::ORIGIN; rows]?,
                plan: vec![in heap; UNTOUCHED; places]?,
            })
        }

        fn search(&mut self) -> Result<Outcome, Fault> {
            find_plan(
                &self.hoppers,
                self.nodes.as_mut_slice(),
                self.links.as_mut_slice(),
                self.plan.as_mut_slice(),
            )
        }

        fn place(&self, i: usize) -> Option<u16> {
            self.plan.get(i).copied()
        }
    }

    // A dial of marks from 0 to its last, which stands at its last and turns to any. That its moves are few rests on the last mark
    // being a u8.
    #[derive(Clone, Copy)]
    struct Dial {
        last: u8,
        wanted: u8,
    }

    impl Space for Dial {
        type Node = u8;

        ghost meaning = { λ s. record { node = λ _. true; start = s.last; count = s.last + 1; target = λ w. nat_eq w s.wanted; next = λ _ k. if nat_le k s.last then Some k else None } };

        fn is_node(&self, _mark: u8) -> bool {
            true
        }

        fn start(&self) -> u8 {
            self.last
        }

        fn count(&self) -> u16 {
            u16::from(self.last) + 1
        }

        fn is_target(&self, mark: u8) -> bool {
            mark == self.wanted
        }

        fn next(&self, _mark: u8, by: u16) -> Option<u8> {
            if by > u16::from(self.last) {
                return None;
            }
            Some(by as u8)
        }

        fn same(&self, a: u8, b: u8) -> bool {
            a == b
        }
    }

    #[test]
    fn four_of_five_in_six_moves(rt: HostRuntime) -> Result<(), Fail> {
        let mut bench = Bench::new(rt.alloc(), 4, 20, 7)?;
        assert_eq!(rt; bench.search(), Ok(Outcome::Plan((6, 14))));
        assert_eq!(rt; bench.place(0), Some(1));
        assert_eq!(rt; bench.place(6), Some(UNTOUCHED));
        let Some(past) = bench.nodes.get(14) else {
            return Err(Fail::new("no row 14"));
        };
        assert_eq!(rt; past.level(0), 9);
        Ok(())
    }

    #[test]
    fn fourteen_rows_are_enough_and_thirteen_too_few(rt: HostRuntime) -> Result<(), Fail> {
        let mut bench = Bench::new(rt.alloc(), 4, 14, 6)?;
        assert_eq!(rt; bench.search(), Ok(Outcome::Plan((6, 14))));
        let mut bench = Bench::new(rt.alloc(), 4, 13, 6)?;
        assert_eq!(rt; bench.search(), Err(Fault::TooFewRows));
        assert_eq!(rt; bench.place(0), Some(UNTOUCHED));
        let mut bench = Bench::new(rt.alloc(), 4, 0, 6)?;
        assert_eq!(rt; bench.search(), Err(Fault::TooFewRows));
        Ok(())
    }

    #[test]
    fn five_places_are_too_few(rt: HostRuntime) -> Result<(), Fail> {
        let mut bench = Bench::new(rt.alloc(), 4, 14, 5)?;
        assert_eq!(rt; bench.search(), Err(Fault::TooFewPlaces));
        assert_eq!(rt; bench.place(0), Some(UNTOUCHED));
        Ok(())
    }

    #[test]
    fn the_rows_of_none_are_a_closed_set(rt: HostRuntime) -> Result<(), Fail> {
        let mut bench = Bench::new(rt.alloc(), 6, 30, 5)?;
        assert_eq!(rt; bench.search(), Ok(Outcome::NoPlan(16)));
        assert_eq!(rt; bench.place(0), Some(UNTOUCHED));
        let rows = bench.nodes.as_slice();
        assert!(rt; rows.len() == 30);
        assert!(rt; check_closed(&bench.hoppers, &rows[0..16]).is_ok());
        let Err(fault) = check_closed(&bench.hoppers, &rows[0..15]) else {
            return Err(Fail::new("accepted without its last row"));
        };
        assert_eq!(rt; fault.number(), 21);
        assert_eq!(rt;
            check_closed(&bench.hoppers, &rows[0..17]),
            Err(Fault::NotNode(16))
        );
        assert_eq!(rt;
            check_closed(&bench.hoppers, &rows[1..16]),
            Err(Fault::NoStart)
        );
        Ok(())
    }

    #[test]
    fn the_lowest_break_is_named(rt: HostRuntime) -> Result<(), Fail> {
        let bench = Bench::new(rt.alloc(), 4, 1, 1)?;
        let hoppers = &bench.hoppers;
        let start = Levels::padded(&[0, 0]);
        let target = Levels::padded(&[0, 4]);
        let full = Levels::padded(&[3, 5]);
        assert_eq!(rt; check_closed(hoppers, &[]), Err(Fault::NoStart));
        assert_eq!(rt; check_closed(hoppers, &[target]), Err(Fault::NoStart));
        assert_eq!(rt;
            check_closed(hoppers, &[start, full, target]),
            Err(Fault::TargetRow(2))
        );
        assert_eq!(rt;
            check_closed(hoppers, &[start, full]),
            Err(Fault::NextMissing(0, 0))
        );
        assert_eq!(rt;
            check_closed(
                hoppers,
                &[start, Levels::padded(&[3, 0]), Levels::padded(&[0, 5])],
            ),
            Err(Fault::NextMissing(1, 1))
        );
        Ok(())
    }

    #[test]
    fn a_dial_turns_to_each_of_its_marks(rt: HostRuntime) -> Result<(), Fail> {
        let dial = Dial { last: 3, wanted: 2 };
        let mut nodes = [9; 5];
        let mut links = [Link::ORIGIN; 5];
        let mut plan = [UNTOUCHED; 2];
        assert_eq!(rt;
            find_plan(&dial, &mut nodes, &mut links, &mut plan),
            Ok(Outcome::Plan((1, 4)))
        );
        assert_eq!(rt; plan, [2, UNTOUCHED]);
        assert_eq!(rt; nodes, [3, 0, 1, 2, 9]);
        Ok(())
    }

    #[test]
    fn a_dial_without_the_wanted_mark_is_closed(rt: HostRuntime) -> Result<(), Fail> {
        let dial = Dial { last: 2, wanted: 3 };
        let mut nodes = [9; 5];
        let mut links = [Link::ORIGIN; 5];
        assert_eq!(rt;
            find_plan(&dial, &mut nodes, &mut links, &mut []),
            Ok(Outcome::NoPlan(3))
        );
        assert_eq!(rt; check_closed(&dial, &nodes[0..3]), Ok(()));
        assert_eq!(rt;
            check_closed(&dial, &nodes[0..2]),
            Err(Fault::NextMissing(0, 1))
        );
        Ok(())
    }
}
