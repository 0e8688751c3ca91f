// What a run of the program does not show.
use crate::composing::compose;
use plan::{Row, Table};
use planfile::{Settings, read};
use std::test::Fail;

// What comes of a text, in words.
fn told(rt: &HostRuntime, text: &str) -> Result<String, Fail> {
    match compose(rt.alloc(), text) {
        Ok(file) => {
            let len = file.len();
            Ok(format!(in rt.alloc(); "{len} bytes")?)
        }
        Err(bad) => Ok(bad.to_string(rt.alloc())?),
    }
}

// Texts that are at fault. The first fault counts, and that settings are missing comes out last.
static BAD: [(&str, &str); 38] = [
    ("", "line 1: there is no line with processors"),
    ("# nothing\n\n", "line 3: there is no line with processors"),
    (
        "processors 2\ntask 1 3 a",
        "line 3: there is no line with delta",
    ),
    (
        "delta 1\nprocessors 2\n",
        "line 3: there is no line with layout",
    ),
    ("delta", "line 1: a field is missing"),
    ("processors 2 3", "line 1: there are too many fields"),
    ("processors 256", "line 1: a number is above 255"),
    ("delta one", "line 1: a number is not made of digits"),
    (
        "layout Flat",
        "line 1: the layout is not flat, semi or dedicated",
    ),
    ("delta 1\ndelta 1", "line 2: the setting was made above"),
    (
        "tasks 1 3 a",
        "line 1: the first word is not processors, delta, layout, task, request, done or ticks",
    ),
    (
        "\n  # a comment\r\n\tTask 1 3 a",
        "line 3: the first word is not processors, delta, layout, task, request, done or ticks",
    ),
    ("task", "line 1: a field is missing"),
    ("task 1", "line 1: a field is missing"),
    ("request", "line 1: a field is missing"),
    ("done  ", "line 1: a field is missing"),
    ("ticks\n", "line 1: a field is missing"),
    ("ticks 3 # three", "line 1: there are too many fields"),
    ("ticks -1", "line 1: a number is not made of digits"),
    ("ticks +1", "line 1: a number is not made of digits"),
    ("task 1.5 3 a", "line 1: a number is not made of digits"),
    ("task 1 a 3", "line 1: a number is not made of digits"),
    (
        "task 1 4294967296 a",
        "line 1: a number is above 4294967295",
    ),
    (
        "task 18446744073709551617 3 a",
        "line 1: a number is above 4294967295",
    ),
    ("request 256", "line 1: a number is above 255"),
    (
        "request a\ntask 1 3 a",
        "line 1: no task has this name, and it is no number",
    ),
    (
        "task 1 3 a\ndone A",
        "line 2: no task has this name, and it is no number",
    ),
    (
        "task 1 3 a\ntask 2 3 a\nrequest a",
        "line 3: several tasks have this name",
    ),
    (
        "task 1 3 a\ndelta 1",
        "line 2: settings come first, then tasks, then calls",
    ),
    (
        "ticks 1\ndelta 1",
        "line 2: settings come first, then tasks, then calls",
    ),
    (
        "ticks 1\ntask 1 3 b",
        "line 2: settings come first, then tasks, then calls",
    ),
    ("ticks 0", "line 1: refused 17: the ticks are 0"),
    ("task 0 3 a", "line 1: refused 1: the budget is 0"),
    (
        "task 1 3 a\ntask 1 1000001 b",
        "line 2: refused 2: the period is above 1000000",
    ),
    (
        "task 4 3 a",
        "line 1: refused 3: the budget is above the period",
    ),
    (
        "task 0 3",
        "line 1: refused 15: the name is not 1 to 16 bytes long",
    ),
    (
        "task 1 3 seventeen letters",
        "line 1: refused 15: the name is not 1 to 16 bytes long",
    ),
    (
        "task 1 3 caf\u{e9}",
        "line 1: refused 15: the name has a byte that is not printable ASCII",
    ),
];

#[test]
fn lines_at_fault(rt: HostRuntime) -> Result<(), Fail> {
    for (text, wanted) in BAD.iter() {
        assert!(rt; told(&rt, text)?.as_str() == *wanted, "{}", *text);
    }
    Ok(())
}

// A line, how often it stands below the settings, what follows, and what comes of that.
static SIZES: [(&str, usize, &str, &str); 6] = [
    ("task 1 9 sixteen  letters\n", 64, "", "1611 bytes"),
    (
        "task 1 9 sixteen  letters\n",
        64,
        "task 1 9 a",
        "line 68: refused 21: the table has 64 rows already",
    ),
    ("request 0\n", 32_767, "", "65548 bytes"),
    (
        "request 0\n",
        32_767,
        "done 0",
        "line 32771: refused 18: the calls are longer than 65535 bytes",
    ),
    // 21,845 calls of 65,535 ticks fill the section
    ("ticks 1431612075\n", 1, "", "65549 bytes"),
    (
        "",
        0,
        "ticks 99999999999999999999",
        "line 4: refused 18: the calls are longer than 65535 bytes",
    ),
];

fn repeated(rt: &HostRuntime, line: &str, times: usize, rest: &str) -> Result<String, Fail> {
    let mut text = String::from_str(rt.alloc(), "processors 2\ndelta 1\nlayout flat\n")?;
    for _ in 0..times {
        text.push_str(line)?;
    }
    text.push_str(rest)?;
    Ok(text)
}

#[test]
fn as_much_as_fits(rt: HostRuntime) -> Result<(), Fail> {
    for (line, times, rest, wanted) in SIZES.iter() {
        let text = repeated(&rt, line, *times, rest)?;
        assert!(rt;
            told(&rt, text.as_str())?.as_str() == *wanted,
            "{}",
            *wanted
        );
    }
    Ok(())
}

// A text, and what the file that is composed of it holds.
#[derive(Clone, Copy)]
struct Case {
    text: &'static str,
    settings: Settings,
    rows: &'static [(u32, u32, &'static str)],
    calls: &'static [u8],
}

const ONE_FLAT: Settings = Settings {
    processors: 1,
    delta: 1,
    letter: b'F',
};

static CASES: [Case; 6] = [
    // no rows and no calls; the numbers are for the plan's verdict
    Case {
        text: "layout dedicated\ndelta 0\nprocessors 255",
        settings: Settings {
            processors: 255,
            delta: 0,
            letter: b'D',
        },
        rows: &[],
        calls: b"",
    },
    // line ends of both kinds, tabs, spaces at both ends, comments
    Case {
        text: "# made elsewhere\r\nprocessors\t2\r\ndelta 1\r\n  layout   semi \r\n\r\n task\t1 \t 3\ta\t\r\n#\n\trequest a\r\n",
        settings: Settings {
            processors: 2,
            delta: 1,
            letter: b'S',
        },
        rows: &[(1, 3, "a")],
        calls: b"R\x00",
    },
    // names with spaces and hashes
    Case {
        text: "processors 1\ndelta 1\nlayout flat\ntask 1 8 load cell\ntask 2 9 ~ 2  of #3 ~\ndone ~ 2  of #3 ~\nrequest load cell",
        settings: ONE_FLAT,
        rows: &[(1, 8, "load cell"), (2, 9, "~ 2  of #3 ~")],
        calls: b"D\x01R\x00",
    },
    // a name comes before a number, and a number may begin with zeros
    Case {
        text: "processors 1\ndelta 1\nlayout flat\ntask 1 8 1\ntask 2 9 300\nrequest 1\nrequest 01\nrequest 0\ndone 300\ndone 7\ndone 255",
        settings: ONE_FLAT,
        rows: &[(1, 8, "1"), (2, 9, "300")],
        calls: b"R\x00R\x01R\x00D\x01D\x07D\xff",
    },
    // names that are words of the text; two tasks of one name, by number
    Case {
        text: "processors 1\ndelta 1\nlayout flat\ntask 1 8 ticks 3\ntask 2 9 ticks 3\ntask 3 9 request\nrequest 1\nrequest request",
        settings: ONE_FLAT,
        rows: &[(1, 8, "ticks 3"), (2, 9, "ticks 3"), (3, 9, "request")],
        calls: b"R\x01R\x02",
    },
    // the greatest row, and ticks on both sides of what one call holds
    Case {
        text: "processors 1\ndelta 1\nlayout flat\ntask 1000000 1000000 sixteen  letters\nticks 65535\nticks 65536\nticks 131070\nticks 0200000",
        settings: ONE_FLAT,
        rows: &[(1_000_000, 1_000_000, "sixteen  letters")],
        calls: b"K\xff\xffK\xff\xffK\x00\x01K\xff\xffK\xff\xffK\xff\xffK\xff\xffK\xff\xffK\x0d\x43",
    },
];

fn is_row(row: &Row, budget: u32, period: u32, name: &str) -> bool {
    row.budget() == budget && row.period() == period && row.name().as_str() == name
}

fn has_rows(table: &Table, rows: &[(u32, u32, &str)]) -> bool {
    table.rows().len() == rows.len()
        && table.rows().iter().zip(rows).all(|(row, (budget, period, name))| is_row(
            row, *budget, *period, name,
        ))
}

fn holds(file: &[u8], case: &Case) -> bool {
    let mut table = Table::new();
    match read(file, &mut table) {
        Ok(contents) => {
            contents.settings == case.settings
                && contents.calls == case.calls
                && has_rows(&table, case.rows)
        }
        Err(_) => false,
    }
}

#[test]
fn what_is_composed_reads_back(rt: HostRuntime) -> Result<(), Fail> {
    for case in CASES.iter() {
        let file = compose(rt.alloc(), case.text).map_err(|_| Fail::new(case.text))?;
        assert!(rt; holds(&file, case), "{}", case.text);
    }
    Ok(())
}
