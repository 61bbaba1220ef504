// The payload of a run started, by the reader that keeps it and by the cursor.
use payload_reader::{Started, run_started};
use reader::Reader as Cursor;
use std::io;

pub(crate) fn show_started(rt: &impl Print, payload: &[u8]) -> io::Result<()> {
    let n = payload.len();
    let Some(run) = run_started(payload) else {
        return println!(rt; "run started of {n} bytes: short");
    };
    let Started {
        workflow_kind,
        workflow_version,
        input_len,
    } = run;
    println!(rt; "run started of {n} bytes: {workflow_kind} {workflow_version} {input_len}")
}

fn by_cursor(payload: &[u8]) -> Option<Started> {
    let (workflow_kind, next) = Cursor::new().u16(payload)?;
    let (workflow_version, next) = next.u16(payload)?;
    Some(Started {
        workflow_kind,
        workflow_version,
        input_len: next.rest(payload).len(),
    })
}

pub(crate) fn start_agrees(payload: &[u8]) -> bool {
    run_started(payload) == by_cursor(payload)
}
