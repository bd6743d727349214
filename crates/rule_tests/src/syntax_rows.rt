//! Short texts of rules with the place of what cannot follow, worked out from the text.

// Words, names and codes that can't follow.
pub(crate) const WORDS: [(&str, &str); 21] = [
    ("", "accepted"),
    ("each line receipt goods(quantity = 1);", "fill 35 1"),
    ("é", "fill 0 1"),
    ("receipt goods(item = \"i\"; quantity = 1); #", "fill 41 1"),
    ("once", "fill 4 1"),
    (
        "each once receipt goods(item = \"i\"; quantity = 1);",
        "fill 5 1",
    ),
    ("each line", "fill 9 1"),
    ("rec", "fill 0 1"),
    ("sell goods(item = \"i\"; quantity = 1);", "fill 0 1"),
    ("receipt (item = \"i\"; quantity = 1);", "fill 8 1"),
    ("receipt _goods(item = \"i\"; quantity = 1);", "fill 8 1"),
    ("receipt \"a b\"(item = \"i\"; quantity = 1);", "fill 8 1"),
    ("receipt goods ;", "fill 14 1"),
    ("receipt goods(item \"nail\"; quantity = 1);", "fill 19 1"),
    ("receipt goods(item = nail; quantity = 1);", "fill 21 1"),
    (
        "receipt goods(item = total.quantity; quantity = 1);",
        "fill 21 1",
    ),
    ("receipt goods(item = \"\"; quantity = 1);", "fill 22 1"),
    ("receipt goods(item = \"a b\"; quantity = 1);", "fill 23 1"),
    ("receipt goods(item = \"nail", "fill 26 1"),
    (
        "receipt goods(item = \"aaaaaaaaaaaaaaaaaaaaaaaaaaaaaaaaa\"; quantity = 1);",
        "fill 54 1",
    ),
    (
        "receipt goods(item = \"aaaaaaaaaaaaaaaaaaaaaaaaaaaaaaaa\"; quantity = 1);",
        "accepted",
    ),
];

// Sums and conditions that break off.
pub(crate) const SUMS: [(&str, &str); 23] = [
    (
        "receipt goods(item = \"nail\", ; quantity = 1);",
        "fill 29 1",
    ),
    ("receipt goods(item = point.; quantity = 1);", "fill 26 1"),
    ("receipt goods(item = head; quantity = 1);", "fill 25 1"),
    ("receipt goods(item = head.1; quantity = 1);", "fill 26 1"),
    ("receipt goods(item = \"nail\"; );", "fill 29 1"),
    ("receipt goods(item = \"nail\"; quantity 1);", "fill 38 1"),
    (
        "receipt goods(item = \"nail\"; quantity = 1.);",
        "fill 41 1",
    ),
    (
        "receipt goods(item = \"nail\"; quantity = 1.5.2);",
        "fill 43 1",
    ),
    (
        "receipt goods(item = \"nail\"; quantity = 1 +);",
        "fill 43 1",
    ),
    (
        "receipt goods(item = \"nail\"; quantity = + 1);",
        "fill 40 1",
    ),
    (
        "receipt goods(item = \"nail\"; quantity = - - 1);",
        "fill 42 1",
    ),
    ("receipt goods(item = \"nail\"; quantity = 12", "fill 42 1"),
    ("receipt goods(item = \"nail\"; quantity = 1)", "fill 42 1"),
    (
        "receipt goods(item = \"nail\"; quantity = 1) receipt goods(item = \"i\"; quantity = 1);",
        "fill 43 1",
    ),
    (
        "receipt goods(item = \"i\"; quantity = 1) when ;",
        "fill 45 1",
    ),
    (
        "receipt goods(item = \"i\"; quantity = 1) when 1 ;",
        "fill 47 1",
    ),
    (
        "receipt goods(item = \"i\"; quantity = 1) when 1 = ;",
        "fill 49 1",
    ),
    (
        "receipt goods(item = \"i\"; quantity = 1) when \"a\" < \"b\";",
        "fill 49 1",
    ),
    (
        "receipt goods(item = \"i\"; quantity = 1) when \"a\" = 1;",
        "fill 51 1",
    ),
    (
        "receipt goods(item = \"i\"; quantity = 1) when \"a\" = total.quantity;",
        "fill 51 1",
    ),
    (
        "receipt goods(item = \"i\"; quantity = 1) when \"a\" = cost;",
        "fill 51 1",
    ),
    (
        "receipt goods(item = \"i\"; quantity = 1) when \"a\" = head.warehouse + 1;",
        "fill 66 1",
    ),
    (
        "receipt goods(item = \"i\"; quantity = 1) when head.warehouse < \"a\";",
        "fill 62 1",
    ),
];

// Verbs with something else behind them.
pub(crate) const ACTS: [(&str, &str); 15] = [
    (
        "receipt goods(item = \"i\"; quantity = 1) when head.limit + 1 = \"a\";",
        "fill 62 1",
    ),
    (
        "fifo stock(warehouse = \"m\", item = \"i\"; quantity = 1);",
        "fill 52 1",
    ),
    (
        "average goods(item = \"i\"; quantity = 1, amount = 2);",
        "fill 47 1",
    ),
    (
        "require goods(item = \"i\"; quantity) > 1 code \"x\";",
        "fill 36 1",
    ),
    ("require goods(item = \"i\"; quantity) >= 1 ;", "fill 41 1"),
    (
        "require goods(item = \"i\"; quantity) >= 1 code head.warehouse;",
        "fill 46 1",
    ),
    ("control goods ;", "fill 14 1"),
    ("entry main(\"10\"(), credit \"60\"(); 1);", "fill 11 1"),
    ("entry main(debit point, credit none; 1);", "fill 17 1"),
    ("entry main(debit \"10\", credit none; 1);", "fill 21 1"),
    ("entry main(debit none ; 1);", "fill 22 1"),
    (
        "entry main(debit none, credit \"10\"(\"a\", ); 1);",
        "fill 40 1",
    ),
    ("entry main(debit none, credit none, 1);", "fill 34 1"),
    ("receipt nowhere(; a = 1); x", "fill 26 1"),
    (
        "\t receipt\r\n goods ( item=\"i\" ;quantity=1 ) ;\n",
        "accepted",
    ),
];
