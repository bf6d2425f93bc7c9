//! The numbers of cells, and marks.
use line_words::Why;
use std::test::Fail;
use table_cells::{Taking, amount_in, cell_fault, is_marked, mark_fault};

#[test]
fn numbers(rt: HostRuntime) -> Result<(), Fail> {
    for (cell, cut, fault, amount) in [
        (Some("48.5"), false, Some(Why::NotWhole), 48_500_000_000_000),
        (Some("48.5"), true, None, 48_500_000_000_000),
        (Some("-1"), false, Some(Why::BadNumber), -1_000_000_000_000),
        (Some("x"), false, Some(Why::BadNumber), 0),
        (Some("1e16"), false, Some(Why::TooBig), 0),
        (
            Some("1099511627776"),
            false,
            None,
            1_099_511_627_776_000_000_000_000,
        ),
        (
            Some("1099511627777"),
            false,
            Some(Why::TooBig),
            1_099_511_627_777_000_000_000_000,
        ),
        (None, false, Some(Why::NoRow), 0),
    ] {
        let word = cell.unwrap_or("");
        assert!(rt;
            cell_fault(cell, Taking { scale: 0, cut }) == fault,
            "{}",
            word
        );
        assert!(rt; amount_in(cell) == amount, "{}", word);
    }
    Ok(())
}

#[test]
fn marks(rt: HostRuntime) -> Result<(), Fail> {
    for (cell, fault, marked) in [
        (Some("0"), None, false),
        (Some("0.0"), None, false),
        (Some("1"), None, true),
        (Some("-1"), None, true),
        (Some("x"), Some(Why::BadNumber), true),
        (None, Some(Why::NoRow), true),
    ] {
        let word = cell.unwrap_or("");
        assert!(rt; mark_fault(cell) == fault, "{}", word);
        assert!(rt; is_marked(cell) == marked, "{}", word);
    }
    Ok(())
}
