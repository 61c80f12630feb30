// A journal and bytes in memory at work: what they take, what they decline, and what they sum.
use device::{ByteMemory, Command, CommandKind, Device, Journal, SLOTS, run_all};
use std::test::Fail;

// A command that fills count cells of slot 0 from first on.
fn fill(byte: u8, first: u64, count: u64) -> Command {
    Command {
        kind: CommandKind::Fill(byte),
        slot: 0,
        first,
        count,
    }
}

// A command that clears count cells of slot 1 from first on.
fn clear(first: u64, count: u64) -> Command {
    Command {
        kind: CommandKind::Clear,
        slot: 1,
        first,
        count,
    }
}

// A journal of two records whose cells begin at 7; slot 0 has 2^40 cells, slot 1 has 10.
fn journal(rt: &HostRuntime) -> Result<Journal, Fail> {
    let mut extents = [0; SLOTS];
    extents[0] = 1 << 40;
    extents[1] = 10;
    Journal::new(vec![in rt.alloc(); Command::default(); 2]?, 7, extents).map_err(|_| Fail::new(
        "not made",
    ))
}

// Whether a clear past the extent is declined, and a command past the allowance, and no other.
fn declines(journal: &mut Journal) -> bool {
    let past = journal.take(clear(8, 3));
    let left = journal.allowance();
    let within = journal.take(clear(8, 2));
    let sum = journal.total(1, 0, 10);
    let last = journal.take(fill(9, 0, 4));
    let full = journal.take(fill(9, 0, 4));
    !past && left == 2 && within && sum == 56 && last && !full && journal.written().len() == 2
}

// Whether all 2^40 cells are summed, half of them filled, with a pass over the seam, and ranges outside are 0.
fn sums(journal: &mut Journal) -> bool {
    journal.take(fill(255, 100, 1 << 39));
    journal.take(Command {
        kind: CommandKind::Pass,
        slot: 0,
        first: 50,
        count: 100,
    });
    let all = ((1 << 39) - 50) * 7 + ((1 << 39) - 50) * 255;
    journal.total(0, 0, 1 << 40) == all
        && journal.total(0, 1, 1 << 40) == 0
        && journal.total(2, u64::MAX, u64::MAX) == 0
}

// The sum of ten cells of any device, after a fill and a copy of some of them; a third command passes every slot.
fn sum_after<D: Device>(device: &mut D) -> u64 {
    let copied = Command {
        kind: CommandKind::Copy,
        slot: 0,
        first: 4,
        count: 2,
    };
    run_all(device, &[fill(3, 0, 10), copied, fill(5, 1, 1 << 40)]);
    device.total(0, 0, 10)
}

#[test]
fn declines_past_extent_and_allowance(rt: HostRuntime) -> Result<(), Fail> {
    let mut journal = journal(&rt)?;
    assert!(rt; declines(&mut journal));
    Ok(())
}

#[test]
fn sums_all_cells_at_once(rt: HostRuntime) -> Result<(), Fail> {
    let mut journal = journal(&rt)?;
    assert!(rt; sums(&mut journal));
    Ok(())
}

#[test]
fn hands_the_records_back(rt: HostRuntime) -> Result<(), Fail> {
    let mut extents = [0; SLOTS];
    extents[23] = (1 << 40) + 1;
    let Err(unmade) = Journal::new(vec![in rt.alloc(); Command::default(); 3]?, 0, extents) else {
        return Err(Fail::new("made"));
    };
    assert_eq!(rt; unmade.given.len(), 3);
    assert_eq!(rt; u8::from(unmade.refusal), 20);
    Ok(())
}

#[test]
fn both_ends_agree(rt: HostRuntime) -> Result<(), Fail> {
    let mut journal = journal(&rt)?;
    let mut rows = Vec::new(rt.alloc());
    rows.push(vec![in rt.alloc(); 7; 10]?)?;
    let Ok(mut memory) = ByteMemory::new(rows, 3) else {
        return Err(Fail::new("not made"));
    };
    assert_eq!(rt; sum_after(&mut journal), 24);
    assert_eq!(rt; sum_after(&mut memory), 24);
    Ok(())
}
