//! The configuration of a whole shop, and the canonical text of the rules of each of its types.

// Stock in lots and in sum, their sales, a ledger, five document types and a sequence.
pub(crate) const SHOP: &str = r#"
[register.stock]
kind = "balance"
dimensions = ["warehouse:code", "item:code", "lot:lot"]
resources = ["quantity:3", "amount:2"]

[register.goods]
kind = "balance"
dimensions = ["item:code"]
resources = ["quantity:3", "amount:2"]
split = true

[register.sales]
kind = "turnover"
dimensions = ["item:code"]
resources = ["quantity:3", "amount:2"]

[ledger.main]
scale = 2
split = true
accounts = [
  { code = "10", name = "Goods", kind = "active", extras = ["item"] },
  { code = "60", name = "Suppliers", kind = "passive" },
  { code = "90", name = "Cost", kind = "active" },
]

[document.receipt]
head = ["warehouse:code"]
lines = ["item:code", "quantity:3", "amount:2"]
rules = '''
each line receipt stock(warehouse = head.warehouse, item = line.item, lot = point; quantity = line.quantity, amount = line.amount);
each line entry main(debit "10"(line.item), credit "60"(); line.amount);
'''

[document.sale]
head = ["warehouse:code"]
lines = ["item:code", "quantity:3"]
rules = '''
each line fifo stock(warehouse = head.warehouse, item = line.item; quantity = line.quantity, amount);
each line turn sales(item = line.item; quantity = line.quantity, amount = cost);
each line entry main(debit "90"(), credit "10"(line.item); cost);
'''

[document.fill]
head = []
lines = ["item:code", "quantity:3", "amount:2"]
rules = "each line receipt goods(item = line.item; quantity = line.quantity, amount = line.amount);"

[document.issue]
head = []
lines = ["item:code", "quantity:3"]
rules = "each line average goods(item = line.item; quantity = line.quantity, amount);"

[document.take]
head = []
lines = ["item:code", "quantity:3"]
rules = "each line expense goods(item = line.item; quantity = line.quantity); control goods quantity;"

[sequence.batches]
documents = ["receipt", "sale"]
registers = ["stock"]
dimensions = ["warehouse"]
"#;

// The places of `fill`, `issue`, `receipt`, `sale` and `take`, and their rules.
pub(crate) const SHOP_PRINTED: [(u8, &str); 5] = [
    (
        0,
        "each line receipt goods(item = line.item; quantity = line.quantity, \
         amount = line.amount);\n",
    ),
    (
        1,
        "each line average goods(item = line.item; quantity = line.quantity, amount);\n",
    ),
    (
        2,
        "each line receipt stock(warehouse = head.warehouse, item = line.item, lot = point; \
         quantity = line.quantity, amount = line.amount);\n\
         each line entry main(debit \"10\"(line.item), credit \"60\"(); line.amount);\n",
    ),
    (
        3,
        "each line fifo stock(warehouse = head.warehouse, item = line.item; \
         quantity = line.quantity, amount);\n\
         each line turn sales(item = line.item; quantity = line.quantity, amount = cost);\n\
         each line entry main(debit \"90\"(), credit \"10\"(line.item); cost);\n",
    ),
    (
        4,
        "each line expense goods(item = line.item; quantity = line.quantity);\n\
         control goods quantity;\n",
    ),
];
