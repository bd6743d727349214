//! Requests to post and to unpost: their canonical texts, and the faults of their members.
use crate::document_tests::{CONTENTS, WRITES};
use crate::print_tests::expect_texts;
use crate::tests::{expect_bad_behind, expect_bad_lines};

// Lines, each with the canonical text of its request.
const TEXTS: [(&str, &str); 5] = [
    (
        "{\"op\":\"post\",\"no\":1,\"key\":\"bill-7\",\"kind\":\"receipt\",\
         \"lines\":[{\"quantity\":\"1\",\"item\":\"nail\"},{}],\"head\":{\"warehouse\":\"main\"},\
         \"date\":\"2024-01-10\",\"comment\":\"late\",\"clerk\":\"anna\"}",
        "{\"clerk\":\"anna\",\"comment\":\"late\",\"date\":\"2024-01-10T00:00:00\",\
         \"head\":{\"warehouse\":\"main\"},\"key\":\"bill-7\",\"kind\":\"receipt\",\
         \"lines\":[{\"item\":\"nail\",\"quantity\":\"1\"},{}],\"no\":1,\"op\":\"post\"}",
    ),
    (
        "{\"op\":\"post\",\"no\":2,\"doc\":7,\"kind\":\"sale\",\"lines\":[],\"head\":{},\
         \"date\":\"2024-01-10T09:00:00\",\"clerk\":\"anna\"}",
        "{\"clerk\":\"anna\",\"date\":\"2024-01-10T09:00:00\",\"doc\":7,\"head\":{},\
         \"kind\":\"sale\",\"lines\":[],\"no\":2,\"op\":\"post\"}",
    ),
    (
        "{\"op\":\"post\",\"no\":3,\"kind\":\"sale\",\"lines\":[],\"head\":{},\
         \"date\":\"2024-01-10T09:00:00\",\"clerk\":\"anna\"}",
        "{\"clerk\":\"anna\",\"date\":\"2024-01-10T09:00:00\",\"head\":{},\
         \"kind\":\"sale\",\"lines\":[],\"no\":3,\"op\":\"post\"}",
    ),
    (
        "{\"op\":\"post\",\"no\":4,\"doc\":4294967295,\"clerk\":\"anna\"}",
        "{\"clerk\":\"anna\",\"doc\":4294967295,\"no\":4,\"op\":\"post\"}",
    ),
    (
        "{\"op\":\"unpost\",\"no\":5,\"doc\":1,\"clerk\":\"anna\"}",
        "{\"clerk\":\"anna\",\"doc\":1,\"no\":5,\"op\":\"unpost\"}",
    ),
];

#[test]
fn a_request_to_post_has_its_canonical_text(rt: HostRuntime) {
    expect_texts(&rt, rt.alloc(), &TEXTS);
}

// Lines, each with what is told of it.
const LINES: [(&str, &str); 6] = [
    (
        "{\"op\":\"post\",\"doc\":1,\"no\":1}",
        "5,\"member\":\"clerk\"",
    ),
    (
        "{\"op\":\"post\",\"clerk\":\"anna\",\"kind\":7}",
        "5,\"member\":\"no\"",
    ),
    (
        "{\"op\":\"unpost\",\"clerk\":\"anna\",\"doc\":1}",
        "5,\"member\":\"no\"",
    ),
    (
        "{\"op\":\"unpost\",\"clerk\":\"anna\",\"no\":1,\"kind\":\"receipt\"}",
        "5,\"member\":\"doc\"",
    ),
    (
        "{\"op\":\"post\",\"clerk\":7,\"no\":0,\"doc\":1,\"key\":\"k\"}",
        "7,\"member\":\"clerk\"",
    ),
    (
        "{\"op\":\"post\",\"clerk\":\"anna\",\"no\":0,\"doc\":0,\"key\":\"k\"}",
        "7,\"member\":\"no\"",
    ),
];

// Members of a request to post, each with what is told of it: it lacks one or has one too much.
const MISSING: [(&str, &str); 10] = [
    ("\"date\":7,\"head\":7,\"lines\":7", "5,\"member\":\"doc\""),
    ("\"key\":\"k\",\"tx\":1", "5,\"member\":\"doc\""),
    ("\"kind\":null", "5,\"member\":\"date\""),
    ("\"kind\":7,\"date\":7,\"tx\":1", "5,\"member\":\"head\""),
    (
        "\"kind\":7,\"date\":7,\"head\":7,\"doc\":7",
        "5,\"member\":\"lines\"",
    ),
    ("\"doc\":1,\"kind\":null", "5,\"member\":\"date\""),
    ("\"doc\":1,\"tx\":1", "6,\"member\":\"tx\""),
    ("\"doc\":0,\"key\":\"k\",\"on\":true", "6,\"member\":\"on\""),
    ("\"doc\":1,\"date\":7,\"sets\":[]", "6,\"member\":\"sets\""),
    (
        "\"kind\":7,\"date\":7,\"head\":7,\"lines\":7,\"on\":7",
        "6,\"member\":\"on\"",
    ),
];

// The same of a document as it stands: a member that may not be there, or is malformed.
const STANDING: [(&str, &str); 10] = [
    ("\"doc\":0,\"key\":\"k\"", "7,\"member\":\"doc\""),
    ("\"doc\":null,\"date\":7", "7,\"member\":\"doc\""),
    ("\"doc\":1,\"key\":\"k\",\"date\":7", "7,\"member\":\"key\""),
    ("\"doc\":1,\"key\":null", "7,\"member\":\"key\""),
    (
        "\"doc\":1,\"date\":\"2024-01-10\",\"head\":{}",
        "7,\"member\":\"date\"",
    ),
    (
        "\"doc\":1,\"comment\":\"\",\"lines\":[],\"head\":{}",
        "7,\"member\":\"head\"",
    ),
    ("\"doc\":1,\"head\":null", "7,\"member\":\"head\""),
    (
        "\"doc\":1,\"comment\":\"\",\"lines\":[]",
        "7,\"member\":\"lines\"",
    ),
    ("\"doc\":1,\"comment\":\"late\"", "7,\"member\":\"comment\""),
    ("\"doc\":1.0", "7,\"member\":\"doc\""),
];

#[test]
fn a_request_to_post_is_refused_by_its_first_fault(rt: HostRuntime) {
    expect_bad_lines(&rt, rt.alloc(), &LINES);
    let front = "{\"op\":\"post\",\"clerk\":\"anna\",\"no\":1,";
    expect_bad_behind(&rt, rt.alloc(), front, &MISSING);
    expect_bad_behind(&rt, rt.alloc(), front, &STANDING);
}

// The front of content that is posted.
const POST: &str = "{\"op\":\"post\",\"clerk\":\"anna\",\"no\":1,\"kind\":\"receipt\",\
    \"date\":\"2024-01-10\",\"head\":{},\"lines\":[],";

#[test]
fn content_that_is_posted_is_read_as_content_that_is_written(rt: HostRuntime) {
    expect_bad_behind(&rt, rt.alloc(), POST, &WRITES);
    expect_bad_behind(&rt, rt.alloc(), POST, &CONTENTS);
}

// Members of a request to unpost, each with what is told of it.
const UNPOSTED: [(&str, &str); 6] = [
    ("\"kind\":\"receipt\"", "6,\"member\":\"kind\""),
    ("\"key\":\"k\",\"date\":7", "6,\"member\":\"date\""),
    ("\"doc\":0,\"tx\":1", "6,\"member\":\"tx\""),
    ("\"doc\":\"1\"", "7,\"member\":\"doc\""),
    ("\"doc\":null", "7,\"member\":\"doc\""),
    ("\"doc\":0,\"no\":1.0", "7,\"member\":\"no\""),
];

#[test]
fn a_request_to_unpost_has_a_document_alone(rt: HostRuntime) {
    let front = "{\"op\":\"unpost\",\"clerk\":\"anna\",\"no\":1,\"doc\":1,";
    expect_bad_behind(&rt, rt.alloc(), front, &UNPOSTED);
}
