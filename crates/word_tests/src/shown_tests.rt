//! Documents as they are shown, byte by byte.
use crate::rows::{Frame, expect};
use crate::tests::line_of;
use desk_words::{Answer, FieldText, Reply, Request, SetText, ShownDocument};
use reg_base::{Code, Comment, Date, DocState, List, Name, Text};
use std::alloc::Global;

// Names, each with the text of its field.
type Fields = &'static [(&'static str, &'static str)];

// What a document says, and what is printed of it.
struct Row {
    active: bool,
    head: Fields,
    // Empty for a document without a key.
    key: &'static str,
    // Empty for a manual document.
    kind: &'static str,
    lines: &'static [Fields],
    // As in a request.
    sets: &'static str,
    state: DocState,
    wanted: &'static str,
}

// All members of the reply; the comment is empty.
const SHOWN: Frame = ["{\"ok\":{", "}}"];

const ROWS: [Row; 4] = [
    Row {
        active: true,
        head: &[],
        key: "",
        kind: "",
        lines: &[],
        sets: "",
        state: DocState::Posted,
        wanted: "\"active\":true,\"comment\":\"\",\"date\":\"2024-01-10T09:00:00\",\"doc\":7,\
            \"head\":{},\"key\":null,\"kind\":\"manual\",\"lines\":[],\"sets\":[],\
            \"state\":\"posted\"",
    },
    Row {
        active: false,
        head: &[],
        key: "m-1",
        kind: "",
        lines: &[],
        sets: "{\"space\":\"goods\",\"records\":[{\"kind\":\"receipt\",\
            \"values\":[\"nail\"],\"sums\":[\"10.000\",\"50.00\"]},\
            {\"kind\":\"expense\",\"values\":[],\"sums\":[]}]},\
            {\"space\":\"main\",\"records\":[{\"amount\":\"50.00\",\"debit\":null,\
            \"credit\":[\"60\"]},\
            {\"amount\":\"1.00\",\"debit\":[\"10\",\"nail\"],\"credit\":null}]}",
        state: DocState::Posted,
        wanted: "\"active\":false,\"comment\":\"\",\"date\":\"2024-01-10T09:00:00\",\"doc\":7,\
            \"head\":{},\"key\":\"m-1\",\"kind\":\"manual\",\"lines\":[],\
            \"sets\":[{\"records\":[{\"kind\":\"receipt\",\"sums\":[\"10.000\",\"50.00\"],\
            \"values\":[\"nail\"]},{\"kind\":\"expense\",\"sums\":[],\"values\":[]}],\
            \"space\":\"goods\"},\
            {\"records\":[{\"amount\":\"50.00\",\"credit\":[\"60\"],\"debit\":null},\
            {\"amount\":\"1.00\",\"credit\":null,\"debit\":[\"10\",\"nail\"]}],\
            \"space\":\"main\"}],\"state\":\"posted\"",
    },
    Row {
        active: true,
        head: &[("warehouse", "w1"), ("agent", "b")],
        key: "r-1",
        kind: "receipt",
        lines: &[
            &[
                ("quantity", "10.000"),
                ("item", "nail"),
                ("amount", "50.00"),
            ],
            &[],
            &[("item", "screw")],
        ],
        sets: "",
        state: DocState::Written,
        wanted: "\"active\":true,\"comment\":\"\",\"date\":\"2024-01-10T09:00:00\",\"doc\":7,\
            \"head\":{\"agent\":\"b\",\"warehouse\":\"w1\"},\"key\":\"r-1\",\
            \"kind\":\"receipt\",\
            \"lines\":[{\"amount\":\"50.00\",\"item\":\"nail\",\"quantity\":\"10.000\"},\
            {},{\"item\":\"screw\"}],\"sets\":[],\"state\":\"written\"",
    },
    Row {
        active: true,
        head: &[("a", "\"so\" \\ caf\u{e9}"), ("b", "\t\n\u{1}/")],
        key: "",
        kind: "note",
        lines: &[&[("a", "\u{20ac}")]],
        sets: "",
        state: DocState::Marked,
        wanted: "\"active\":true,\"comment\":\"\",\"date\":\"2024-01-10T09:00:00\",\"doc\":7,\
            \"head\":{\"a\":\"\\\"so\\\" \\\\ caf\u{e9}\",\"b\":\"\\t\\n\\u0001/\"},\
            \"key\":null,\"kind\":\"note\",\"lines\":[{\"a\":\"\u{20ac}\"}],\"sets\":[],\
            \"state\":\"marked\"",
    },
];

fn field(alloc: Global, name: &str, text: &str) -> Option<FieldText> {
    Some(FieldText {
        name: Name::parse(name)?,
        text: Text::from_str(alloc, text).ok()?,
    })
}

fn fields(alloc: Global, given: &[(&str, &str)]) -> Option<List<FieldText>> {
    let mut fields = List::new(alloc);
    for (name, text) in given {
        fields.push(field(alloc, name, text)?).ok()?;
    }
    Some(fields)
}

fn lines(alloc: Global, given: &[Fields]) -> Option<List<List<FieldText>>> {
    let mut lines = List::new(alloc);
    for line in given {
        lines.push(fields(alloc, line)?).ok()?;
    }
    Some(lines)
}

// The sets that a manual document with this text of them has.
fn sets(alloc: Global, given: &str) -> Option<List<SetText>> {
    let line = format!(in alloc;
        "{{\"op\":\"manual\",\"clerk\":\"anna\",\"no\":1,\"date\":\"2024-01-10\",\
         \"sets\":[{given}]}}"
    )
    .ok()?;
    match Request::read_text(alloc, line.as_bytes()) {
        Ok(Request::Manual(manual)) => Some(manual.sets),
        _ => None,
    }
}

fn shown(alloc: Global, row: &Row) -> Option<ShownDocument> {
    Some(ShownDocument {
        active: row.active,
        comment: Comment::empty(alloc),
        date: Date::parse("2024-01-10T09:00:00").ok()?,
        doc: 7,
        head: fields(alloc, row.head)?,
        key: Code::parse(row.key),
        kind: Name::parse(row.kind),
        lines: lines(alloc, row.lines)?,
        sets: sets(alloc, row.sets)?,
        state: row.state,
    })
}

// What is printed of the document of a row.
fn line_of_row(alloc: Global, row: &Row) -> Option<String> {
    let shown = shown(alloc, row)?;
    line_of(alloc, &Reply::Done(Answer::Shown(shown)))
}

#[test]
fn documents_are_shown(rt: HostRuntime) {
    let alloc = rt.alloc();
    for row in &ROWS {
        expect(&rt, row.kind, line_of_row(alloc, row), &SHOWN, row.wanted);
    }
}
