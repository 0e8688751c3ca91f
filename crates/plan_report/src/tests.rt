// What a run of the program does not show: lines and plans that are refused.
use crate::input::{Fault, table_of};
use crate::report::Report;
use std::test::Fail;

// The first line at fault, and the number of its refusal, which a line that is not of the form has not.
fn fault_in(text: &str) -> Option<(usize, Option<u8>)> {
    match table_of(text) {
        Ok(_) => None,
        Err(bad) => match bad.fault {
            Fault::Form => Some((bad.line, None)),
            Fault::Row(refusal) => Some((bad.line, Some(refusal.number()))),
        },
    }
}

const LINES: [(&str, Option<(usize, Option<u8>)>); 15] = [
    ("# no rows\n\n", None),
    (
        "1 9 sixteen  letters\n1 9 ~ tilde ~\r\n1000000 1000000 a",
        None,
    ),
    // the first line at fault counts
    ("1 2 a\n0 9 b\n3 2 c\n", Some((2, Some(1)))),
    ("\n5 1000001 oven", Some((2, Some(2)))),
    ("1 1 a\n3 2 c", Some((2, Some(3)))),
    // not of the form
    ("5 oven\n0 9 b", Some((1, None))),
    ("-5 9 oven", Some((1, None))),
    ("5 4294967296 oven", Some((1, None))),
    // the name is tested first
    ("0 9", Some((1, Some(15)))),
    ("0 9 seventeen letters", Some((1, Some(15)))),
    ("3 2 caf\u{e9}", Some((1, Some(15)))),
    ("0 9 \u{7f}", Some((1, Some(15)))),
    ("0 9 a\tb", Some((1, Some(15)))),
    // then the budget, the period, and both
    ("0 1000001 a", Some((1, Some(1)))),
    ("1000002 1000001 a", Some((1, Some(2)))),
];

#[test]
fn lines_at_fault(rt: HostRuntime) {
    for (text, fault) in LINES {
        assert!(rt; fault_in(text) == fault, "{}", text);
    }
}

// The report of a table that is accepted, or nothing.
fn report_of(rt: &HostRuntime, text: &str, processors: u8, delta: u8) -> Result<String, Fail> {
    match table_of(text) {
        Ok(table) => {
            let plan = table.close(processors, delta);
            Ok(Report { plan: &plan }.to_string(rt.alloc())?)
        }
        Err(_) => Ok(String::new(rt.alloc())),
    }
}

#[test]
fn plans_that_are_refused(rt: HostRuntime) -> Result<(), Fail> {
    let short = report_of(&rt, "2 3 short", 1, 4)?;
    let wanted =
        "processors 1, delta 4\nverdict 26: the shortest period is below delta\nshortest period 3, slot 0\n\ntask   budget   period     charge  bin  name\n   0        2        3   66.6667%    -  short\n";
    assert!(rt; short.as_str() == wanted);
    let many = report_of(&rt, "5 9 a\n8 17 b\n5 9 c\n", 2, 1)?;
    assert!(rt;
        many.as_str().ends_with("\nreserves 20 of 18 ticks (processors 2 x slot 9): 2 too many\n")
    );
    Ok(())
}
