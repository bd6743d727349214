//! Requests about documents: their canonical texts, and the faults of their members.
use crate::print_tests::expect_texts;
use crate::rows::{WHOLE, expect};
use crate::tests::{expect_bad_behind, expect_bad_lines, told_behind};

// Lines, each with the canonical text of its request.
const TEXTS: [(&str, &str); 9] = [
    (
        "{\"op\":\"write\",\"no\":1,\"key\":\"bill-7\",\"kind\":\"receipt\",\
         \"lines\":[{\"quantity\":\"1\",\"item\":\"nail\"},{}],\
         \"head\":{\"warehouse\":\"main\"},\"date\":\"2024-01-10\",\
         \"comment\":\"a\\\"b\\\\c\\/\\u00e9\",\"clerk\":\"anna\"}",
        "{\"clerk\":\"anna\",\"comment\":\"a\\\"b\\\\c/é\",\"date\":\"2024-01-10T00:00:00\",\
         \"head\":{\"warehouse\":\"main\"},\"key\":\"bill-7\",\"kind\":\"receipt\",\
         \"lines\":[{\"item\":\"nail\",\"quantity\":\"1\"},{}],\"no\":1,\"op\":\"write\"}",
    ),
    (
        "{\"op\":\"write\",\"no\":2,\"doc\":4294967295,\"kind\":\"sale\",\"lines\":[],\
         \"head\":{\"b\":\"1\",\"a\":\"\\n\",\"b\":\"3\"},\"date\":\"2024-01-10T09:00:00\",\
         \"comment\":\"\",\"clerk\":\"anna\"}",
        "{\"clerk\":\"anna\",\"comment\":\"\",\"date\":\"2024-01-10T09:00:00\",\
         \"doc\":4294967295,\"head\":{\"a\":\"\\n\",\"b\":\"3\"},\"kind\":\"sale\",\
         \"lines\":[],\"no\":2,\"op\":\"write\"}",
    ),
    (
        "{\"op\":\"mark\",\"on\":true,\"no\":3,\"doc\":1,\"clerk\":\"anna\"}",
        "{\"clerk\":\"anna\",\"doc\":1,\"no\":3,\"on\":true,\"op\":\"mark\"}",
    ),
    (
        "{\"op\":\"activity\",\"on\":false,\"no\":4,\"doc\":1,\"clerk\":\"anna\"}",
        "{\"clerk\":\"anna\",\"doc\":1,\"no\":4,\"on\":false,\"op\":\"activity\"}",
    ),
    (
        "{\"op\":\"manual\",\"sets\":[],\"no\":5,\"doc\":2,\"date\":\"2024-01-10\",\
         \"comment\":\"late\",\"clerk\":\"anna\"}",
        "{\"clerk\":\"anna\",\"comment\":\"late\",\"date\":\"2024-01-10T00:00:00\",\"doc\":2,\
         \"no\":5,\"op\":\"manual\",\"sets\":[]}",
    ),
    (
        "{\"op\":\"manual\",\"sets\":[],\"no\":6,\"key\":\"K.1\",\"date\":\"2024-01-10\",\
         \"clerk\":\"anna\"}",
        "{\"clerk\":\"anna\",\"date\":\"2024-01-10T00:00:00\",\"key\":\"K.1\",\"no\":6,\
         \"op\":\"manual\",\"sets\":[]}",
    ),
    (
        "{\"op\":\"close\",\"no\":7,\"date\":\"2024-02-01\",\"clerk\":\"anna\"}",
        "{\"clerk\":\"anna\",\"date\":\"2024-02-01T00:00:00\",\"no\":7,\"op\":\"close\"}",
    ),
    (
        "{\"op\":\"sweep\",\"no\":8,\"doc\":3,\"clerk\":\"anna\"}",
        "{\"clerk\":\"anna\",\"doc\":3,\"no\":8,\"op\":\"sweep\"}",
    ),
    (
        "{\"op\":\"doc\",\"doc\":3,\"clerk\":\"anna\"}",
        "{\"clerk\":\"anna\",\"doc\":3,\"op\":\"doc\"}",
    ),
];

#[test]
fn a_request_about_a_document_has_its_canonical_text(rt: HostRuntime) {
    expect_texts(&rt, rt.alloc(), &TEXTS);
}

// Lines, each with what is told of it.
const LINES: [(&str, &str); 22] = [
    (
        "{\"op\":\"write\",\"clerk\":\"anna\",\"kind\":7}",
        "5,\"member\":\"no\"",
    ),
    (
        "{\"op\":\"write\",\"clerk\":\"anna\",\"no\":1,\"lines\":[]}",
        "5,\"member\":\"kind\"",
    ),
    (
        "{\"op\":\"write\",\"clerk\":\"anna\",\"no\":1,\"kind\":7,\"lines\":[]}",
        "5,\"member\":\"date\"",
    ),
    (
        "{\"op\":\"write\",\"clerk\":\"anna\",\"no\":1,\"kind\":7,\"date\":7,\"lines\":[]}",
        "5,\"member\":\"head\"",
    ),
    (
        "{\"op\":\"write\",\"clerk\":\"anna\",\"no\":1,\"kind\":7,\"date\":7,\"head\":7,\
         \"tx\":1}",
        "5,\"member\":\"lines\"",
    ),
    (
        "{\"op\":\"mark\",\"clerk\":\"anna\",\"no\":1,\"on\":true}",
        "5,\"member\":\"doc\"",
    ),
    (
        "{\"op\":\"mark\",\"clerk\":\"anna\",\"no\":1,\"doc\":7}",
        "5,\"member\":\"on\"",
    ),
    (
        "{\"op\":\"activity\",\"doc\":7,\"on\":true,\"no\":1}",
        "5,\"member\":\"clerk\"",
    ),
    (
        "{\"op\":\"activity\",\"clerk\":\"anna\",\"doc\":7,\"no\":1}",
        "5,\"member\":\"on\"",
    ),
    (
        "{\"op\":\"close\",\"clerk\":\"anna\",\"no\":1}",
        "5,\"member\":\"date\"",
    ),
    (
        "{\"op\":\"close\",\"clerk\":\"anna\",\"date\":\"2024-02-01\"}",
        "5,\"member\":\"no\"",
    ),
    (
        "{\"op\":\"sweep\",\"clerk\":\"anna\",\"no\":1}",
        "5,\"member\":\"doc\"",
    ),
    (
        "{\"op\":\"doc\",\"clerk\":\"anna\"}",
        "5,\"member\":\"doc\"",
    ),
    (
        "{\"op\":\"close\",\"clerk\":\"anna\",\"no\":1,\"date\":7,\"doc\":1}",
        "6,\"member\":\"doc\"",
    ),
    (
        "{\"op\":\"close\",\"clerk\":\"anna\",\"no\":1,\"date\":\"2024-02\"}",
        "7,\"member\":\"date\"",
    ),
    (
        "{\"op\":\"close\",\"clerk\":\"anna\",\"no\":1,\"date\":null}",
        "7,\"member\":\"date\"",
    ),
    (
        "{\"op\":\"sweep\",\"clerk\":\"anna\",\"no\":1,\"doc\":1,\"on\":true}",
        "6,\"member\":\"on\"",
    ),
    (
        "{\"op\":\"sweep\",\"clerk\":\"anna\",\"no\":1,\"doc\":null}",
        "7,\"member\":\"doc\"",
    ),
    (
        "{\"op\":\"doc\",\"clerk\":\"anna\",\"doc\":1,\"no\":1}",
        "6,\"member\":\"no\"",
    ),
    (
        "{\"op\":\"doc\",\"clerk\":\"anna\",\"doc\":1,\"tx\":1}",
        "6,\"member\":\"tx\"",
    ),
    (
        "{\"op\":\"doc\",\"clerk\":\"anna\",\"doc\":\"1\"}",
        "7,\"member\":\"doc\"",
    ),
    (
        "{\"op\":\"Unpost\",\"clerk\":\"anna\",\"no\":1,\"doc\":1}",
        "4",
    ),
];

#[test]
fn a_line_about_a_document_is_refused_by_its_first_fault(rt: HostRuntime) {
    expect_bad_lines(&rt, rt.alloc(), &LINES);
}

// The front of new content: a member that comes again takes the place of the first.
const WRITE: &str = "{\"op\":\"write\",\"clerk\":\"anna\",\"no\":1,\"kind\":\"receipt\",\
    \"date\":\"2024-01-10\",\"head\":{},\"lines\":[],";

// Members of new content, each with what is told of it.
pub(crate) const WRITES: [(&str, &str); 17] = [
    ("\"tx\":1", "6,\"member\":\"tx\""),
    ("\"sets\":[],\"x\":1", "6,\"member\":\"sets\""),
    ("\"no\":0", "7,\"member\":\"no\""),
    ("\"doc\":0", "7,\"member\":\"doc\""),
    ("\"doc\":1.0", "7,\"member\":\"doc\""),
    ("\"doc\":4294967296", "7,\"member\":\"doc\""),
    ("\"doc\":null", "7,\"member\":\"doc\""),
    ("\"key\":null", "7,\"member\":\"key\""),
    ("\"key\":\"\"", "7,\"member\":\"key\""),
    ("\"key\":\"a b\"", "7,\"member\":\"key\""),
    ("\"doc\":7,\"key\":\"k\"", "7,\"member\":\"key\""),
    ("\"doc\":7,\"key\":null", "7,\"member\":\"key\""),
    ("\"doc\":0,\"key\":\"k\"", "7,\"member\":\"doc\""),
    (
        "\"doc\":7,\"key\":\"k\",\"kind\":\"K\"",
        "7,\"member\":\"key\"",
    ),
    ("\"kind\":\"Receipt\",\"date\":7", "7,\"member\":\"kind\""),
    ("\"kind\":null", "7,\"member\":\"kind\""),
    (
        "\"date\":\"2024-02-30\",\"head\":7",
        "7,\"member\":\"date\"",
    ),
];

// The same of its head, its lines and its comment.
pub(crate) const CONTENTS: [(&str, &str); 15] = [
    ("\"head\":[],\"lines\":7", "7,\"member\":\"head\""),
    ("\"head\":null", "7,\"member\":\"head\""),
    ("\"head\":{\"Item\":\"nail\"}", "7,\"member\":\"head\""),
    ("\"head\":{\"\":\"nail\"}", "7,\"member\":\"head\""),
    ("\"head\":{\"item\":7}", "7,\"member\":\"head\""),
    ("\"lines\":{}", "7,\"member\":\"lines\""),
    ("\"lines\":[{},7]", "7,\"member\":\"lines\""),
    ("\"lines\":[{\"item\":null}]", "7,\"member\":\"lines\""),
    (
        "\"lines\":[{\"item_\":\"x\",\"Item\":\"x\"}]",
        "7,\"member\":\"lines\"",
    ),
    ("\"comment\":null", "7,\"member\":\"comment\""),
    ("\"comment\":7,\"lines\":7", "7,\"member\":\"lines\""),
    ("\"comment\":\"a\\nb\"", "7,\"member\":\"comment\""),
    ("\"comment\":\"\\u007f\"", "7,\"member\":\"comment\""),
    ("\"comment\":\"\\u0085\"", "7,\"member\":\"comment\""),
    (
        "\"comment\":\"01234567890123456789012345678901234567890123456789012345678901234\"",
        "7,\"member\":\"comment\"",
    ),
];

// Members that are read.
const ACCEPTED: [&str; 6] = [
    "\"doc\":1",
    "\"doc\":4294967295",
    "\"key\":\"01234567890123456789012345678901\"",
    "\"head\":{\"item\":\"\"},\"lines\":[{\"a\":\"\\u0000\"},{}]",
    "\"comment\":\"0123456789012345678901234567890123456789012345678901234567890123\"",
    "\"comment\":\"\\u00a0\\ud83d\\ude00\"",
];

#[test]
fn a_member_of_new_content_is_refused_by_name(rt: HostRuntime) {
    expect_bad_behind(&rt, rt.alloc(), WRITE, &WRITES);
}

#[test]
fn heads_lines_and_comments_have_their_shape(rt: HostRuntime) {
    expect_bad_behind(&rt, rt.alloc(), WRITE, &CONTENTS);
    for rest in &ACCEPTED {
        let told = told_behind(rt.alloc(), WRITE, rest);
        expect(&rt, rest, told, &WHOLE, "a request");
    }
}

// Members of a switch, each with what is told of it.
const SWITCHES: [(&str, &str); 9] = [
    ("\"doc\":0", "7,\"member\":\"doc\""),
    ("\"doc\":1.0", "7,\"member\":\"doc\""),
    ("\"doc\":4294967296,\"on\":7", "7,\"member\":\"doc\""),
    ("\"no\":0,\"doc\":0", "7,\"member\":\"no\""),
    ("\"on\":null", "7,\"member\":\"on\""),
    ("\"on\":1", "7,\"member\":\"on\""),
    ("\"on\":\"true\"", "7,\"member\":\"on\""),
    ("\"tx\":1", "6,\"member\":\"tx\""),
    (
        "\"key\":\"k\",\"comment\":\"x\"",
        "6,\"member\":\"comment\"",
    ),
];

#[test]
fn a_member_of_a_switch_is_refused_by_name(rt: HostRuntime) {
    let mark = "{\"op\":\"mark\",\"clerk\":\"anna\",\"no\":1,\"doc\":1,\"on\":true,";
    expect_bad_behind(&rt, rt.alloc(), mark, &SWITCHES);
    let activity = "{\"op\":\"activity\",\"clerk\":\"anna\",\"no\":1,\"doc\":1,\"on\":true,";
    expect_bad_behind(&rt, rt.alloc(), activity, &SWITCHES);
}

// Members of a manual document, each with what is told of it.
const MANUALS: [(&str, &str); 10] = [
    ("\"tx\":1", "6,\"member\":\"tx\""),
    ("\"kind\":\"receipt\"", "6,\"member\":\"kind\""),
    ("\"doc\":0,\"date\":7", "7,\"member\":\"doc\""),
    ("\"doc\":null", "7,\"member\":\"doc\""),
    ("\"key\":7", "7,\"member\":\"key\""),
    ("\"doc\":1,\"key\":\"k\",\"date\":7", "7,\"member\":\"key\""),
    ("\"date\":7,\"comment\":7", "7,\"member\":\"date\""),
    ("\"sets\":7,\"comment\":7", "7,\"member\":\"sets\""),
    ("\"comment\":null", "7,\"member\":\"comment\""),
    ("\"comment\":[]", "7,\"member\":\"comment\""),
];

#[test]
fn what_a_manual_document_may_have_is_refused_by_name(rt: HostRuntime) {
    let front =
        "{\"op\":\"manual\",\"clerk\":\"anna\",\"no\":1,\"date\":\"2024-01-10\",\"sets\":[],";
    expect_bad_behind(&rt, rt.alloc(), front, &MANUALS);
}
