//! How a report is asked for.
use std::alloc::Global;
use std::process::Abort;

// What stands in front of each report, which is appended to it.
pub(crate) const FRONT: &str = "front\n";

// Some bytes that a report is appended to.
pub(crate) fn front_of(alloc: Global) -> Option<Vec<u8>> {
    Vec::from_slice(alloc, FRONT.as_bytes()).ok()
}

// The front with the lines behind it, each with its line feed.
fn wanted_of(alloc: Global, lines: &[&str]) -> Option<String> {
    let mut text = String::from_str(alloc, FRONT).ok()?;
    'lines: for line in lines {
        text.push_str(line).ok()?;
        text.push('\n').ok()?;
    }
    Some(text)
}

// Asks that a report has these lines; there is none where memory is wanted.
pub(crate) fn expect(
    rt: &impl Abort,
    alloc: Global,
    says: &str,
    told: Option<Vec<u8>>,
    lines: &[&str],
) {
    match (told, wanted_of(alloc, lines)) {
        (Some(told), Some(wanted)) => {
            let told = std::str::from_utf8(told.as_slice()).unwrap_or("no text");
            assert_eq!(rt; told, wanted.as_str(), "{says}");
        }
        _ => panic!(rt; "nothing was told of {says}"),
    }
}
