//! Logs of any bytes.
use crate::row::{File, Row, all_end};
use std::test::Fail;

const FILES: &[File<'static>] = &[
    ("/empty", b""),
    ("/lf", b"\n"),
    ("/rest", b"1709287200 from 192.0.2.7"),
    (
        "/cr",
        b"1709287200 from 192.0.2.7\r\n1709287200 from 192.0.2.7\r",
    ),
    ("/nul", b"1709287200 a\0b from 192.0.2.7\n"),
    ("/bytes", b"1709287200 \xff from 192.0.2.7\n"),
];

const ROWS: [Row; 6] = [
    Row {
        words: &["/empty", "from <IP4>$"],
        status: 0,
        said: "Failregex: 0 total\nIgnoreregex: 0 total\nLines: 0 lines, 0 ignored, 0 matched, 0 missed\n",
    },
    Row {
        words: &["/lf", "from <IP4>$"],
        status: 0,
        said: "Failregex: 0 total\nIgnoreregex: 0 total\nLines: 1 lines, 0 ignored, 0 matched, 1 missed\n",
    },
    // A line without LF at its end.
    Row {
        words: &["/rest", "from <IP4>$"],
        status: 0,
        said: "Failregex: 1 total\n   1) [1] from <IP4>$\nIgnoreregex: 0 total\nLines: 1 lines, 0 ignored, 1 matched, 0 missed\n",
    },
    Row {
        words: &["/cr", "from <IP4>$"],
        status: 0,
        said: "Failregex: 2 total\n   1) [2] from <IP4>$\nIgnoreregex: 0 total\nLines: 2 lines, 0 ignored, 2 matched, 0 missed\n",
    },
    Row {
        words: &["/nul", "a\0b from <IP4>$"],
        status: 0,
        said: "Failregex: 1 total\n   1) [1] a\0b from <IP4>$\nIgnoreregex: 0 total\nLines: 1 lines, 0 ignored, 1 matched, 0 missed\n",
    },
    // A byte that is no UTF-8 is U+FFFD.
    Row {
        words: &["/bytes", "\u{fffd} from <IP4>$"],
        status: 0,
        said: "Failregex: 1 total\n   1) [1] \u{fffd} from <IP4>$\nIgnoreregex: 0 total\nLines: 1 lines, 0 ignored, 1 matched, 0 missed\n",
    },
];

#[test]
fn reads_any_bytes(rt: HostRuntime) -> Result<(), Fail> {
    all_end(&rt, rt.alloc(), FILES, &ROWS)?;
    Ok(())
}
