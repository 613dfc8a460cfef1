#![tactic(auto)]

ghost use Rattle.examples.specs.Worked.{WorkedExamples};

// The worked examples hold of the definitions; it computes nothing.
pub fn worked_examples()
    ensures { WorkedExamples }
{}

#[cfg(test)]
mod tests {
    use admission::refusal::Refusal;
    use admission::task::{Segment, Task};
    use controller::controller::Controller;
    use shelf::cell::Cell;

    fn task(period: u32, deadline: u32, first: u32, count: u32) -> Task {
        Task {
            period,
            deadline,
            first,
            count,
            rank: 0,
            witness: 0,
        }
    }

    // The kind as its number: it goes into the record as a caller in C writes it.
    fn segment(kind: u32, size: u32, amount: u32) -> Segment {
        Segment {
            kind,
            size,
            object: 0,
            amount,
        }
    }

    // Table A, with another deadline of the second task.
    fn tasks_a(deadline: u32) -> [Task; 2] {
        [task(5, 5, 0, 2), task(20, deadline, 2, 2)]
    }

    fn segments_a() -> [Segment; 4] {
        [
            segment(2, 0, 1),
            segment(0, 1, 0),
            segment(0, 1, 0),
            segment(2, 3, 10),
        ]
    }

    fn run_for(controller: &mut Controller<Cell>, ticks: u32) {
        for _ in 0..ticks {
            let _ = controller.tick();
        }
    }

    #[test]
    fn table_a_is_taken(rt: HostRuntime) {
        let mut controller = Controller::new(Cell::new(0));
        let mut tasks = tasks_a(15);
        assert_eq!(rt; controller.adopt(1, &mut tasks, &segments_a()), Ok(15));
        assert_eq!(rt; tasks[0].rank, 0);
        assert_eq!(rt; tasks[0].witness, 2);
        assert_eq!(rt; tasks[1].rank, 1);
        assert_eq!(rt; tasks[1].witness, 15);
    }

    #[test]
    fn refused_list_is_as_before(rt: HostRuntime) {
        let mut controller = Controller::new(Cell::new(0));
        let mut tasks = tasks_a(14);
        let refusal = Refusal::Unschedulable { at: 1 };
        assert_eq!(rt;
            controller.adopt(1, &mut tasks, &segments_a()),
            Err(refusal)
        );
        assert_eq!(rt; refusal.number(), 20);
        assert_eq!(rt; tasks[0].rank, 0);
        assert_eq!(rt; tasks[0].witness, 0);
        assert_eq!(rt; tasks[1].rank, 0);
        assert_eq!(rt; tasks[1].witness, 0);
    }

    #[test]
    fn release_waits_for_the_period(rt: HostRuntime) {
        let mut controller = Controller::new(Cell::new(0));
        let mut tasks = tasks_a(15);
        let greatest = controller.adopt(1, &mut tasks, &segments_a());
        let (_, token) = controller.open();
        let first = controller.release(0);
        run_for(&mut controller, 4);
        let early = controller.release(0);
        run_for(&mut controller, 1);
        let second = controller.release(0);
        let _ = controller.close(token);
        assert_eq!(rt; greatest, Ok(15));
        assert_eq!(rt; first, Ok(5));
        assert_eq!(rt; early, Err(Refusal::TooSoon));
        assert_eq!(rt; Refusal::TooSoon.number(), 33);
        assert_eq!(rt; second, Ok(10));
    }

    #[test]
    fn long_hyperperiod_is_refused(rt: HostRuntime) {
        let mut controller = Controller::new(Cell::new(0));
        let segments = [segment(0, 1, 0)];
        let mut tasks = [
            task(1_000_000, 1_000_000, 0, 1),
            task(999_999, 999_999, 0, 1),
        ];
        let refusal = Refusal::LongHyperperiod;
        assert_eq!(rt; controller.adopt(3, &mut tasks, &segments), Err(refusal));
        assert_eq!(rt; refusal.number(), 18);
    }
}
