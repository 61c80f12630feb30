// A range list over an index of its own kind, which has positions and no trait of comparison: none is asked of an index.
ghost use Rattle.std.proofs.Common.{rules};

use range_list::{Index, InitTracker, Span, check};
use std::test::Fail;

#[derive(Clone, Copy)]
struct Row {
    number: u16,
}

impl Index for Row {
    ghost position = { λ row. row.number };

    ghost apart = { Prim.search rules };

    fn least() -> Row {
        Row { number: 0 }
    }

    fn before(self, other: Row) -> bool {
        self.number < other.number
    }
}

// The rows from one number up to another.
fn rows(start: u16, end: u16) -> Span<Row> {
    Span {
        start: Row { number: start },
        end: Row { number: end },
    }
}

#[test]
fn asks_no_order_of_an_index_but_its_own(rt: HostRuntime) -> Result<(), Fail> {
    let mut places = [rows(0, 0); 2];
    let Ok(list) = InitTracker::new(&mut places, Row { number: 9 }) else {
        return Err(Fail::new("no list"));
    };
    assert_eq!(rt; list.count(), 1);
    assert!(rt; check(&[], rows(3, 5)).is_none());
    Ok(())
}
