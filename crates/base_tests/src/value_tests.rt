//! Tests over values from outside: spellings, and each call that allocates with ample memory.
use crate::rows::expect;
use reg_base::{
    Comment, Cut, Date, DateFault, Memory, Num, NumFault, Point, inside, print_sum, sum_string,
};
use std::alloc::Global;
use std::test::Fail;

fn is_text(found: Result<String, Memory>, wanted: &str) -> bool {
    match found {
        Ok(text) => text.as_str() == wanted,
        Err(_) => false,
    }
}

// A text, the scale that it is read at, and what it is read as.
const NUMBERS: [(&str, u8, Result<Num, NumFault>); 7] = [
    ("-12.50", 2, Ok(Num { units: -1250 })),
    ("7", 3, Ok(Num { units: 7000 })),
    ("1.2345", 3, Err(NumFault::TooManyDecimals)),
    ("1x", 3, Err(NumFault::NotANumber { place: 1 })),
    ("1.2345x", 3, Err(NumFault::NotANumber { place: 6 })),
    ("1000000000000000", 0, Err(NumFault::TooLarge)),
    ("99999999999999999999999999", 6, Err(NumFault::TooLarge)),
];

fn is_read(text: &str, scale: u8, wanted: &Result<Num, NumFault>) -> bool {
    scale <= 6 && Num::parse(text, scale) == *wanted
}

#[test]
fn a_number_is_read_or_its_first_fault_is_told(rt: HostRuntime) {
    for (text, scale, wanted) in &NUMBERS {
        expect(&rt, text, is_read(text, *scale, wanted));
    }
}

// The units of a sum, its scale, and its text.
const SUMS: [(i128, u8, &str); 3] = [
    (4286, 2, "42.86"),
    (-5, 3, "-0.005"),
    (i128::MIN, 0, "-170141183460469231731687303715884105728"),
];

// Whether a sum has this text, and is printed so behind other bytes.
fn is_sum(alloc: Global, units: i128, scale: u8, wanted: &str) -> bool {
    let mut out = Vec::new(alloc);
    scale <= 6
        && is_text(sum_string(alloc, units, scale), wanted)
        && out.extend_from_slice(b"sum ").is_ok()
        && print_sum(alloc, units, scale, &mut out).is_ok()
        && out.as_slice().strip_prefix(b"sum ".as_slice()) == Some(wanted.as_bytes())
}

#[test]
fn a_sum_is_printed_with_the_decimals_of_its_scale(rt: HostRuntime) {
    for (units, scale, wanted) in &SUMS {
        expect(&rt, wanted, is_sum(rt.alloc(), *units, *scale, wanted));
    }
}

// Texts that are no dates, each with the reason.
const NO_DATES: [(&str, DateFault); 5] = [
    ("2024-02-30", DateFault::NotADate),
    ("2024-01-10T24:00:00", DateFault::NotADate),
    ("2024-12-31T23:59:60", DateFault::NotADate),
    ("1999-12-31", DateFault::OutOfYears),
    ("2100-01-01T00:00:00", DateFault::OutOfYears),
];

fn is_no_date(text: &str, fault: DateFault) -> bool {
    Date::parse(text) == Err(fault)
}

// Whether a date is read so many seconds from the first day on, and has this long form.
fn is_date(alloc: Global, text: &str, seconds: u32, wanted: &str) -> bool {
    let Ok(date) = Date::parse(text) else {
        return false;
    };
    let mut out = Vec::new(alloc);
    date.seconds() == seconds
        && is_text(date.to_text(alloc), wanted)
        && date.print(alloc, &mut out).is_ok()
        && out.as_slice() == wanted.as_bytes()
}

#[test]
fn a_date_is_read_to_the_second_and_printed_in_the_long_form(rt: HostRuntime) {
    for (text, fault) in &NO_DATES {
        expect(&rt, text, is_no_date(text, *fault));
    }
    let morning = "2024-01-10T09:00:00";
    expect(
        &rt,
        &morning,
        is_date(rt.alloc(), morning, 758_192_400, morning),
    );
    let day = "2096-02-29";
    let long = "2096-02-29T00:00:00";
    expect(&rt, &day, is_date(rt.alloc(), day, 3_034_627_200, long));
}

// Cuts, each with whether the first document of nine o'clock stands inside, and its text.
const CUTS: [(&str, bool, &str); 6] = [
    ("now", true, "now"),
    ("2024-01-10T09:00:00", false, "before 2024-01-10T09:00:00"),
    (
        "before 2024-01-10T09:00:00",
        false,
        "before 2024-01-10T09:00:00",
    ),
    (
        "through 2024-01-10T09:00:00",
        true,
        "through 2024-01-10T09:00:00",
    ),
    (
        "before 2024-01-10T09:00:00#1",
        false,
        "before 2024-01-10T09:00:00#1",
    ),
    (
        "through 2024-01-10T09:00:00#1",
        true,
        "through 2024-01-10T09:00:00#1",
    ),
];

const FIRST: &str = "2024-01-10T09:00:00#1";

fn takes_point(cut: &Cut, point: &Point) -> bool {
    inside(*cut, *point)
}

fn has_text(alloc: Global, cut: &Cut, wanted: &str) -> bool {
    is_text(cut.to_text(alloc), wanted)
}

// Whether a cut is read that has the point inside or not, and this text.
fn is_cut(alloc: Global, text: &str, point: &Point, takes: bool, wanted: &str) -> bool {
    match Cut::parse(text) {
        Ok(cut) => takes_point(&cut, point) == takes && has_text(alloc, &cut, wanted),
        Err(_) => false,
    }
}

#[test]
fn a_cut_takes_the_points_before_it_or_through_it(rt: HostRuntime) -> Result<(), Fail> {
    let first = Point::parse(FIRST)?;
    for (text, takes, wanted) in &CUTS {
        expect(&rt, text, is_cut(rt.alloc(), text, &first, *takes, wanted));
    }
    Ok(())
}

// Whether a point is printed as it is read, and is no cut by itself.
fn is_point(alloc: Global, text: &str) -> bool {
    let Ok(point) = Point::parse(text) else {
        return false;
    };
    let mut out = Vec::new(alloc);
    point.print(alloc, &mut out).is_ok()
        && out.as_slice() == text.as_bytes()
        && Cut::parse(text) == Err(DateFault::NotADate)
}

#[test]
fn a_point_is_printed_as_it_is_read_and_is_no_cut(rt: HostRuntime) {
    expect(&rt, &FIRST, is_point(rt.alloc(), FIRST));
}

// Texts that are comments: the last two have 64 bytes.
const COMMENTS: [&str; 6] = [
    "",
    "late, \"sic\"",
    "\u{7e}\u{a0}",
    "caf\u{e9} \u{20ac} \u{1f600}",
    "0123456789012345678901234567890123456789012345678901234567890123",
    "\u{e9}\u{e9}\u{e9}\u{e9}\u{e9}\u{e9}\u{e9}\u{e9}\u{e9}\u{e9}\u{e9}\u{e9}\
     \u{e9}\u{e9}\u{e9}\u{e9}\u{e9}\u{e9}\u{e9}\u{e9}\u{e9}\u{e9}\u{e9}\u{e9}\
     \u{e9}\u{e9}\u{e9}\u{e9}\u{e9}\u{e9}\u{e9}\u{e9}",
];

// Texts that are none: the last has 65 bytes.
const NO_COMMENTS: [&str; 7] = [
    "\u{0}",
    "a\tb",
    "late\u{1f}",
    "\u{7f}",
    "\u{80}",
    "late \u{9f}",
    "01234567890123456789012345678901234567890123456789012345678901234",
];

fn is_comment(alloc: Global, text: &str) -> bool {
    match Comment::parse(alloc, text) {
        Ok(Some(comment)) => comment.as_str() == text,
        _ => false,
    }
}

fn is_no_comment(alloc: Global, text: &str) -> bool {
    matches!(Comment::parse(alloc, text), Ok(None))
}

#[test]
fn a_comment_is_short_and_controls_no_terminal(rt: HostRuntime) {
    for text in &COMMENTS {
        expect(&rt, text, is_comment(rt.alloc(), text));
    }
    for text in &NO_COMMENTS {
        expect(&rt, text, is_no_comment(rt.alloc(), text));
    }
}
