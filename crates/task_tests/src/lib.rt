// Runs of planning and checking over a task: grind, wash and pack a lot of pods.
#![tactic(auto)]

#[cfg(test)]
mod tests {
    use bfs::{Link, Outcome};
    use directions::{Direction, check_in, plan_in};
    use fault::Fault;
    use std::test::Fail;
    use strips::{Action, Task, TaskView, lowest};

    // The facts are pods, clean, ground and packed.
    const GRIND: Action = Action {
        needs: 0b0011,
        adds: 0b0100,
        deletes: 0b0011,
    };

    const WASH: Action = Action {
        needs: 0,
        adds: 0b0010,
        deletes: 0,
    };

    const PACK: Action = Action {
        needs: 0b0110,
        adds: 0b1000,
        deletes: 0b0100,
    };

    // A number that no search writes here.
    const UNTOUCHED: u16 = 777;

    fn task(actions: &[Action]) -> Result<Task, Fail> {
        Task::new(4, actions, 0b0011, 0b1000).ok_or_else(|| Fail::new("no task"))
    }

    // Plans in a direction with so many rows; the answer, and the first moves.
    fn planned(direction: usize, task: &Task, rows: usize) -> (Result<Outcome, Fault>, [u16; 3]) {
        let mut nodes = [0u64; 8];
        let mut links = [Link::ORIGIN; 8];
        let mut plan = [UNTOUCHED; 3];
        let rows = rows.min(8);
        let answer = plan_in(direction, task, &mut nodes[0..rows], &mut links, &mut plan);
        (answer, plan)
    }

    #[test]
    fn every_direction_shows_the_same_plan(rt: HostRuntime) -> Result<(), Fail> {
        let task = task(&[GRIND, WASH, PACK])?;
        for (direction, rows) in [(0, 4), (1, 8), (2, 8), (3, 4)] {
            let (answer, moves) = planned(direction, &task, rows);
            assert_eq!(rt; answer, Ok(Outcome::Plan((3, rows))));
            assert_eq!(rt; moves, [0, 1, 2]);
            let (answer, moves) = planned(direction, &task, rows.saturating_sub(1));
            assert_eq!(rt; answer, Err(Fault::TooFewRows));
            assert_eq!(rt; moves, [UNTOUCHED; 3]);
        }
        Ok(())
    }

    #[test]
    fn without_wash_there_is_no_plan(rt: HostRuntime) -> Result<(), Fail> {
        let task = task(&[GRIND, PACK])?;
        for (direction, used) in [(0, 2), (1, 4), (2, 4), (3, 2)] {
            assert_eq!(rt; planned(direction, &task, 8).0, Ok(Outcome::NoPlan(used)));
        }
        assert!(rt; check_in(0, &task, &[3, 4]).is_ok());
        assert!(rt; check_in(1, &task, &[8, 11, 6, 7]).is_ok());
        assert!(rt; check_in(2, &task, &[7, 4, 9, 8]).is_ok());
        assert!(rt; check_in(3, &task, &[12, 11]).is_ok());
        assert_eq!(rt; check_in(0, &task, &[3]), Err(Fault::NextMissing(0, 0)));
        assert_eq!(rt; check_in(0, &task, &[3, 16]), Err(Fault::NotNode(1)));
        Ok(())
    }

    #[test]
    fn a_direction_past_three_is_refused(rt: HostRuntime) -> Result<(), Fail> {
        let task = task(&[GRIND, WASH, PACK])?;
        let (answer, moves) = planned(4, &task, 8);
        assert_eq!(rt; answer, Err(Fault::NoSuchDirection));
        assert_eq!(rt; moves, [UNTOUCHED; 3]);
        assert_eq!(rt;
            check_in(usize::MAX, &task, &[3, 4]),
            Err(Fault::NoSuchDirection)
        );
        Ok(())
    }

    #[test]
    fn directions_are_numbered(rt: HostRuntime) {
        assert_eq!(rt; Direction::try_from(0), Ok(Direction::Forward));
        assert_eq!(rt; Direction::try_from(1), Ok(Direction::Backward));
        assert_eq!(rt; Direction::try_from(2), Ok(Direction::DualForward));
        assert_eq!(rt; Direction::try_from(3), Ok(Direction::DualBackward));
    }

    #[test]
    fn lent_actions_are_a_task(rt: HostRuntime) {
        assert!(rt; TaskView::new(4, &[GRIND, WASH, PACK], 0b0011, 0b1000).is_some());
        assert!(rt; TaskView::new(4, &[GRIND, WASH, PACK], 0b0011, 0b10000).is_none());
    }

    #[test]
    fn tasks_are_tried(rt: HostRuntime) {
        assert!(rt; Task::new(0, &[], 0, 0).is_none());
        assert!(rt; Task::new(64, &[], u64::MAX, 1 << 63).is_some());
        assert!(rt; Task::new(65, &[], 0, 0).is_none());
        assert!(rt; Task::new(4, &[], 16, 0).is_none());
        assert!(rt; Task::new(3, &[PACK], 0, 0).is_none());
        assert!(rt; Task::new(1, &[Action::IDLE; 256], 0, 0).is_some());
        assert!(rt; Task::new(1, &[Action::IDLE; 257], 0, 0).is_none());
        assert_eq!(rt; lowest(0), None);
        assert_eq!(rt; lowest(0b1010_0000), Some(5));
        assert_eq!(rt; lowest(1 << 63), Some(63));
    }

    #[test]
    fn a_fact_added_and_deleted_is_absent(rt: HostRuntime) {
        let both = Action {
            needs: 0,
            adds: 1,
            deletes: 1,
        };
        assert_eq!(rt; both.after(0), 0);
        assert_eq!(rt; both.after(1), 0);
    }
}
