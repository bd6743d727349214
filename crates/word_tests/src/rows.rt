//! How a row of a table is asked for.
use std::process::Abort;

// What stands before and behind what a row tells.
pub(crate) type Frame = [&'static str; 2];

// A row tells the whole text.
pub(crate) const WHOLE: Frame = ["", ""];

// A row tells the members of a refusal.
pub(crate) const REFUSED: Frame = ["{\"refused\":{", "}}"];

// A row tells what stands between the number and the name of the refusal of a bad line.
pub(crate) const BAD_LINE: Frame = [
    "{\"refused\":{\"code\":1,\"kind\":",
    ",\"name\":\"BadLine\"}}",
];

fn is_framed(told: &str, frame: &Frame, wanted: &str) -> bool {
    match told.strip_prefix(frame[0]) {
        Some(rest) => rest.strip_suffix(frame[1]) == Some(wanted),
        None => false,
    }
}

// Asks that this was told of a row, inside the frame; none was where memory is wanted.
pub(crate) fn expect(
    rt: &impl Abort,
    row: &str,
    told: Option<String>,
    frame: &Frame,
    wanted: &str,
) {
    match told {
        Some(told) => assert!(rt; is_framed(told.as_str(), frame, wanted), "{row}: {told}"),
        None => panic!(rt; "nothing was told of {row}"),
    }
}
