//! Short texts of rules with the reason against their meaning, worked out from the text.

// Names that nothing has.
pub(crate) const NAMES: [(&str, &str); 19] = [
    ("receipt Goods(item = \"i\"; quantity = 1);", "fill 0 2"),
    (
        "receipt abcdefghijklmnopqrstuvwxyzabcd(item = \"i\"; quantity = 1);",
        "fill 0 2",
    ),
    ("  receipt goods(what = \"i\"; quantity = 1);", "fill 2 2"),
    (
        "receipt goods(item = head.nothing; quantity = 1);",
        "fill 0 2",
    ),
    ("receipt goods(item = \"i\"; nothing = 1);", "fill 0 2"),
    (
        "receipt goods(item = \"i\"; quantity = head.nothing);",
        "fill 0 2",
    ),
    (
        "receipt goods(item = \"i\"; quantity = total.nothing);",
        "fill 0 2",
    ),
    ("expense nowhere(item = \"i\"; quantity = 1);", "fill 0 2"),
    ("turn sales(item = \"i\"; price = 1);", "fill 0 2"),
    ("fifo nowhere(; quantity = 1, amount);", "fill 0 2"),
    (
        "fifo stock(warehouse = \"m\", item = \"i\"; quantity = 1, nothing);",
        "fill 0 2",
    ),
    (
        "average goods(item = \"i\"; nothing = 1, amount);",
        "fill 0 2",
    ),
    ("require goods(; nothing) >= 1 code \"x\";", "fill 0 2"),
    ("control nowhere quantity;", "fill 0 2"),
    ("control goods nothing;", "fill 0 2"),
    ("entry nowhere(debit none, credit none; 1);", "fill 0 2"),
    (
        "entry main(debit head.nothing(), credit none; 1);",
        "fill 0 2",
    ),
    (
        "entry main(debit \"10\"(line.nothing), credit none; total.quantity);",
        "fill 0 2",
    ),
    (
        "receipt goods(item = \"i\"; quantity = 1) when head.nothing = 1;",
        "fill 0 2",
    ),
];

// Dimensions without a value, or with two.
pub(crate) const BINDS: [(&str, &str); 16] = [
    (
        "expense goods(item = \"a\", item = \"b\"; quantity = 1);",
        "fill 0 4",
    ),
    (
        "expense goods(item = head.limit; quantity = 1);",
        "fill 0 5",
    ),
    ("each line receipt goods(; quantity = 1);", "fill 0 3"),
    (
        "receipt stock(warehouse = \"m\", item = \"i\"; quantity = 1);",
        "fill 0 3",
    ),
    ("expense goods(; quantity = 1);", "fill 0 3"),
    ("turn sales(; quantity = 1);", "fill 0 3"),
    (
        "fifo stock(item = \"i\"; quantity = 1, amount);",
        "fill 0 3",
    ),
    (
        "average stock(warehouse = \"m\", item = \"i\"; quantity = 1, amount);",
        "fill 0 3",
    ),
    ("receipt goods(; quantity = head.warehouse);", "fill 0 3"),
    ("require goods(; quantity) >= 1 code \"x\";", "accepted"),
    (
        "receipt goods(item = \"i\", item = \"j\"; quantity = 1);",
        "fill 0 4",
    ),
    (
        "receipt goods(item = \"i\"; quantity = 1, quantity = 2);",
        "fill 0 4",
    ),
    (
        "turn goods(item = \"i\", item = \"j\"; quantity = 1);",
        "fill 0 4",
    ),
    (
        "fifo stock(warehouse = \"m\", item = \"i\", item = \"i\"; quantity = 1, amount);",
        "fill 0 4",
    ),
    (
        "average goods(item = \"i\"; quantity = 1, quantity);",
        "fill 0 4",
    ),
    (
        "require goods(item = \"i\", item = \"j\"; quantity) >= 1 code \"x\";",
        "fill 0 4",
    ),
];

// Codes for numbers, numbers for codes, and wrong scales.
pub(crate) const TYPES: [(&str, &str); 14] = [
    (
        "receipt goods(item = head.limit; quantity = 1);",
        "fill 0 5",
    ),
    (
        "receipt goods(item = \"i\"; quantity = head.warehouse);",
        "fill 0 5",
    ),
    (
        "receipt goods(item = \"i\"; amount = total.quantity);",
        "fill 0 5",
    ),
    ("receipt goods(item = point; quantity = 1);", "fill 0 5"),
    (
        "receipt stock(warehouse = \"m\", item = \"i\", lot = \"l\"; quantity = 1);",
        "fill 0 5",
    ),
    (
        "receipt goods(item = \"i\"; quantity = 1.2345);",
        "fill 0 5",
    ),
    (
        "receipt goods(item = \"i\"; quantity = 1000000000000);",
        "fill 0 5",
    ),
    (
        "receipt goods(item = \"i\"; quantity = 999999999999.999);",
        "accepted",
    ),
    (
        "receipt goods(item = \"i\"; quantity = 99999999999999999999999999);",
        "fill 0 5",
    ),
    (
        "fifo stock(warehouse = \"m\", item = \"i\", lot = \"l\"; quantity = 1, amount);",
        "fill 0 5",
    ),
    (
        "average goods(item = \"i\"; quantity = 1.2345, amount);",
        "fill 0 5",
    ),
    ("require goods(; amount) >= 1.234 code \"x\";", "fill 0 5"),
    (
        "entry main(debit \"10\"(head.limit), credit none; 1);",
        "fill 0 5",
    ),
    ("entry main(debit none, credit none; 1.234);", "fill 0 5"),
];

// Conditions of mixed types and scales.
pub(crate) const CONDITIONS: [(&str, &str); 11] = [
    (
        "receipt goods(item = \"i\"; quantity = 1) when head.warehouse < 1;",
        "fill 0 5",
    ),
    (
        "receipt goods(item = \"i\"; quantity = 1) when head.limit = \"a\";",
        "fill 0 5",
    ),
    (
        "receipt goods(item = \"i\"; quantity = 1) when head.warehouse = 1;",
        "fill 0 5",
    ),
    (
        "receipt goods(item = \"i\"; quantity = 1) when head.warehouse = head.limit;",
        "fill 0 5",
    ),
    (
        "receipt goods(item = \"i\"; quantity = 1) when head.limit = 1.2345;",
        "fill 0 5",
    ),
    (
        "receipt goods(item = \"i\"; quantity = 1) when 1.2345 = head.limit;",
        "fill 0 5",
    ),
    (
        "receipt goods(item = \"i\"; quantity = 1) when 1.234567 = 2;",
        "accepted",
    ),
    (
        "receipt goods(item = \"i\"; quantity = 1) when 1.2345678 = 2;",
        "fill 0 5",
    ),
    (
        "each line receipt goods(item = \"i\"; quantity = 1) when line.quantity = line.amount;",
        "fill 0 5",
    ),
    (
        "receipt goods(item = \"i\"; quantity = 1) when head.warehouse = \"a\";",
        "accepted",
    ),
    (
        "each line receipt goods(item = \"i\"; quantity = 1) when head.warehouse <> line.item;",
        "accepted",
    ),
];

// Fields of lines and costs where there are none.
pub(crate) const SCOPES: [(&str, &str); 17] = [
    ("receipt goods(item = line.item; quantity = 1);", "fill 0 6"),
    (
        "once receipt goods(item = \"i\"; quantity = line.quantity);",
        "fill 0 6",
    ),
    ("receipt goods(item = \"i\"; amount = cost);", "fill 0 6"),
    ("expense goods(item = line.item; quantity = 1);", "fill 0 6"),
    (
        "turn sales(item = \"i\"; quantity = line.quantity);",
        "fill 0 6",
    ),
    (
        "fifo stock(warehouse = \"m\", item = line.item; quantity = 1, amount);",
        "fill 0 6",
    ),
    (
        "average goods(item = \"i\"; quantity = line.quantity, amount);",
        "fill 0 6",
    ),
    (
        "require goods(item = line.item; quantity) >= 1 code \"x\";",
        "fill 0 6",
    ),
    (
        "entry main(debit \"10\"(line.item), credit none; 1);",
        "fill 0 6",
    ),
    (
        "receipt goods(item = \"i\"; quantity = 1) when line.quantity = 1;",
        "fill 0 6",
    ),
    (
        "receipt goods(item = \"i\"; quantity = 1) when cost = 1.2345678;",
        "fill 0 6",
    ),
    (
        "each line average goods(item = \"i\"; quantity = 1, amount); once receipt goods(item = \"i\"; amount = cost);",
        "fill 59 6",
    ),
    (
        "average goods(item = \"i\"; quantity = 1, amount); turn sales(item = \"i\"; amount = cost);",
        "accepted",
    ),
    (
        "average goods(item = \"i\"; quantity = 1, amount); turn sales(item = \"i\"; quantity = cost);",
        "fill 49 5",
    ),
    ("once control goods quantity;", "fill 0 6"),
    ("each line control goods quantity;", "fill 0 6"),
    ("control goods quantity when 1 = 1;", "fill 0 6"),
];

// Verbs that do not suit their register, and two faults at once.
pub(crate) const REGISTERS: [(&str, &str); 12] = [
    ("once control sales quantity;", "fill 0 6"),
    ("receipt sales(item = \"i\"; quantity = 1);", "fill 0 7"),
    ("expense sales(item = \"i\"; quantity = 1);", "fill 0 7"),
    ("turn goods(item = \"i\"; quantity = 1);", "fill 0 7"),
    (
        "fifo sales(item = \"i\"; quantity = 1, amount);",
        "fill 0 7",
    ),
    (
        "fifo goods(item = \"i\"; quantity = 1, amount);",
        "fill 0 7",
    ),
    (
        "fifo stock(warehouse = \"m\", item = \"i\", lot = point; quantity = 1, amount);",
        "fill 0 7",
    ),
    (
        "average sales(item = \"i\"; quantity = 1, amount);",
        "fill 0 7",
    ),
    ("require sales(; quantity) >= 1 code \"x\";", "fill 0 7"),
    ("control sales quantity;", "fill 0 7"),
    (
        "receipt sales(item = \"i\"; quantity = 1); receipt nowhere(; a = 1);",
        "fill 0 7",
    ),
    (
        "control goods quantity; receipt sales(item = \"i\"; quantity = line.quantity);",
        "fill 24 6",
    ),
];

// Rules of a type that stands in a sequence.
pub(crate) const SEQUENCES: [(&str, &str); 15] = [
    (
        "receipt stock(warehouse = head.warehouse, item = \"i\", lot = point; quantity = 1);",
        "accepted",
    ),
    (
        "receipt stock(warehouse = \"m\", item = \"i\", lot = point; quantity = 1);",
        "sale 0 9",
    ),
    (
        "receipt stock(warehouse = head.other, item = \"i\", lot = point; quantity = 1);",
        "sale 0 9",
    ),
    (
        "each line receipt stock(warehouse = line.item, item = \"i\", lot = point; quantity = 1);",
        "sale 0 9",
    ),
    ("receipt goods(item = \"i\"; quantity = 1);", "accepted"),
    (
        "average goods(item = \"i\"; quantity = 1, amount);",
        "sale 0 9",
    ),
    ("require goods(; quantity) >= 1 code \"x\";", "sale 0 9"),
    ("require stock(; quantity) >= 1 code \"x\";", "sale 0 9"),
    (
        "require stock(warehouse = head.warehouse; quantity) >= 1 code \"x\";",
        "accepted",
    ),
    (
        "fifo stock(warehouse = head.warehouse, item = \"i\"; quantity = 1, amount);",
        "accepted",
    ),
    (
        "fifo stock(warehouse = \"m\", item = \"i\"; quantity = 1, amount);",
        "sale 0 9",
    ),
    (
        "expense stock(warehouse = \"m\", item = \"i\", lot = point; quantity = 1);",
        "sale 0 9",
    ),
    (
        "average stock(warehouse = \"m\", item = \"i\", lot = point; quantity = 1, amount);",
        "sale 0 9",
    ),
    (
        "control stock quantity; control goods quantity;",
        "accepted",
    ),
    ("turn sales(item = \"i\"; quantity = 1);", "accepted"),
];
