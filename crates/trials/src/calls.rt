// What a planner declines, by number, and what it leaves.
use device::{Command, Journal, SLOTS};
use planner::Planner;
use rules::{Answer, Call, Records, Report};
use std::test::Fail;

// A planner over a journal of two records, all of whose cells begin at 7.
fn planner(rt: &HostRuntime) -> Result<Planner<Journal>, Fail> {
    let Ok(journal) = Journal::new(
        vec![in rt.alloc(); Command::default(); 2]?,
        7,
        [1 << 40; SLOTS],
    ) else {
        return Err(Fail::new("no journal"));
    };
    Planner::new(journal, 0, 256).map_err(|_| Fail::new("no planner"))
}

// The number of what declines a call, or 0; the tables below read plainest as numbers.
fn declined(answer: Answer) -> u8 {
    answer.err().map_or(0, |fault| u8::from(fault.refusal))
}

// Whether each call is declined by the number beside it.
fn all_answer(planner: &mut Planner<Journal>, records: &mut Records, calls: &[(Call, u8)]) -> bool {
    calls.iter().all(|(call, number)| declined(planner.perform(*call, records)) == *number)
}

fn read(start: u64, end: u64) -> Call {
    Call::BufferRead {
        list: 0,
        resource: 0,
        start,
        end,
    }
}

fn write(start: u64, end: u64) -> Call {
    Call::BufferWrite {
        list: 0,
        resource: 0,
        byte: 9,
        start,
        end,
    }
}

fn clear(offset: u64, size: Option<u64>) -> Call {
    Call::ClearBuffer {
        list: 0,
        resource: 0,
        offset,
        size,
    }
}

const MAKE: Call = Call::MakeBuffer { size: 8, copy: 1 };

const OPEN: Call = Call::Open { list: 0 };

const CLOSE: Call = Call::Close { list: 0 };

const ABANDON: Call = Call::Abandon { list: 0 };

const SUBMIT: Call = Call::Submit { list: 0 };

#[test]
fn each_bad_step_breaks_its_list(rt: HostRuntime) -> Result<(), Fail> {
    let mut planner = planner(&rt)?;
    let mut records = Records {
        report: Report::new(),
    };
    let good = all_answer(
        &mut planner,
        &mut records,
        &[
            (read(0, 4), 1),
            (MAKE, 0),
            (read(0, 4), 2),
            (OPEN, 0),
            (read(2, 4), 6),
            (read(0, 4), 2),
            (ABANDON, 0),
            (OPEN, 0),
            (write(0, 6), 7),
            (ABANDON, 0),
            (OPEN, 0),
            (read(0, 12), 9),
            (ABANDON, 0),
            (OPEN, 0),
            (read(8, 4), 10),
            (CLOSE, 2),
        ],
    );
    assert!(rt; good);
    Ok(())
}

#[test]
fn clears_at_the_end_of_a_buffer(rt: HostRuntime) -> Result<(), Fail> {
    let mut planner = planner(&rt)?;
    let mut records = Records {
        report: Report::new(),
    };
    let good = all_answer(
        &mut planner,
        &mut records,
        &[
            (MAKE, 0),
            (OPEN, 0),
            (clear(8, None), 0),
            (clear(12, None), 9),
            (ABANDON, 0),
            (OPEN, 0),
            (clear(4, Some(u64::MAX - 3)), 8),
        ],
    );
    assert!(rt; good);
    Ok(())
}

#[test]
fn a_declined_submission_keeps_all(rt: HostRuntime) -> Result<(), Fail> {
    let mut planner = planner(&rt)?;
    let mut records = Records {
        report: Report::new(),
    };
    records.report.cleared = 99;
    let destroy = Call::Destroy { resource: 0 };
    let good = all_answer(
        &mut planner,
        &mut records,
        &[
            (MAKE, 0),
            (OPEN, 0),
            (write(0, 4), 0),
            (write(0, 4), 0),
            (read(0, 8), 0),
            (CLOSE, 0),
            (SUBMIT, 18),
            (SUBMIT, 18),
            (destroy, 0),
            (SUBMIT, 4),
            (destroy, 4),
        ],
    );
    let device = planner.into_device();
    assert!(rt; good && records.report.cleared == 99 && device.written().is_empty());
    Ok(())
}
