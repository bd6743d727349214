//! A whole configuration with what it says, and entries of a small chart with what is told of them.
// A configuration with each group: stock in lots and in sum, their sales, a ledger, a sequence.
pub(crate) const WHOLE_SHOP: &str = r#"
[register.stock]
kind = "balance"
dimensions = ["warehouse:code", "item:code", "lot:lot"]
resources = ["quantity:3", "amount:2"]

[register.goods]
kind = "balance"
dimensions = ["item:code"]
resources = ["quantity:3", "amount:2"]
split = true

[register.sales]
kind = "turnover"
dimensions = ["item:code"]
resources = ["quantity:3", "amount:2"]

[ledger.main]
scale = 2
split = true
accounts = [
  { code = "10", name = "Goods", kind = "active", extras = ["item"] },
  { code = "60", name = "Suppliers", kind = "passive" },
  { code = "90", name = "Cost", kind = "active" },
]

[document.receipt]
head = ["warehouse:code"]
lines = ["item:code", "quantity:3", "amount:2"]
rules = '''
each line receipt stock(warehouse = head.warehouse, item = line.item, lot = point; quantity = line.quantity, amount = line.amount);
each line entry main(debit "10"(line.item), credit "60"(); line.amount);
'''

[document.sale]
head = ["warehouse:code"]
lines = ["item:code", "quantity:3"]
rules = '''
each line fifo stock(warehouse = head.warehouse, item = line.item; quantity = line.quantity, amount);
each line turn sales(item = line.item; quantity = line.quantity, amount = cost);
each line entry main(debit "90"(), credit "10"(line.item); cost);
'''

[document.fill]
head = []
lines = ["item:code", "quantity:3", "amount:2"]
rules = "each line receipt goods(item = line.item; quantity = line.quantity, amount = line.amount);"

[document.issue]
head = []
lines = ["item:code", "quantity:3"]
rules = "each line average goods(item = line.item; quantity = line.quantity, amount);"

[document.take]
head = []
lines = ["item:code", "quantity:3"]
rules = "each line expense goods(item = line.item; quantity = line.quantity); control goods quantity;"

[sequence.batches]
documents = ["receipt", "sale"]
registers = ["stock"]
dimensions = ["warehouse"]

[clerk.anna]
rights = ["write", "post", "manual", "read", "lock", "admin"]

[clerk.boris]
rights = ["write", "post", "manual", "read", "lock", "admin"]
"#;

// What that configuration says, with the number of bytes of each document type's rules.
pub(crate) const WHOLE_SHOP_TOLD: &str = "\
goods balance split item:code quantity:3 amount:2
sales turnover item:code quantity:3 amount:2
stock balance warehouse:code item:code lot:lot quantity:3 amount:2
main:2 split 10,Goods,Active,item 60,Suppliers,Passive 90,Cost,Active
fill | item:code quantity:3 amount:2 | 90
issue | item:code quantity:3 | 76
receipt warehouse:code | item:code quantity:3 amount:2 | 205
sale warehouse:code | item:code quantity:3 | 249
take | item:code quantity:3 | 92
batches receipt sale | stock | warehouse
anna write post manual read lock admin
boris write post manual read lock admin
";

// A chart with a group, and accounts that are off-balance, given in no order of codes.
pub(crate) const CHART: &str = r#"
[ledger.main]
scale = 2
accounts = [
  { code = "60", name = "Suppliers", kind = "passive" },
  { code = "101", name = "Goods here", kind = "active", parent = "10", extras = ["item", "place"] },
  { code = "002", name = "Goods kept", kind = "both", off = true, extras = ["item"] },
  { code = "10", name = "Goods", kind = "active" },
  { code = "001", name = "Leased", kind = "active", off = true },
]
"#;

// What that chart says.
pub(crate) const CHART_TOLD: &str = "\
main:2 001,Leased,Active,off 002,Goods kept,Both,off,item 10,Goods,Active \
101,Goods here,Active,of 10,item,place 60,Suppliers,Passive
";

// The account of the debit with how many extras it gives, the same of the credit, and the answer.
// A side without an account is not given.
pub(crate) type Entry = (&'static str, u8, &'static str, u8, &'static str);

// Rows of entries.
pub(crate) type Entries = &'static [Entry];

// Entries of goods in the whole configuration.
pub(crate) const GOODS: [Entry; 2] = [
    ("10", 0, "60", 0, "ExtraCount"),
    ("10", 1, "60", 0, "accepted"),
];

// Entries of the chart.
pub(crate) const ENTRIES: [Entry; 24] = [
    ("101", 2, "60", 0, "accepted"),
    ("60", 0, "101", 2, "accepted"),
    ("60", 0, "60", 0, "accepted"),
    ("001", 0, "", 0, "accepted"),
    ("", 0, "002", 1, "accepted"),
    ("001", 0, "002", 1, "accepted"),
    ("7", 0, "60", 0, "UnknownAccount"),
    ("60", 0, "7", 0, "UnknownAccount"),
    ("", 0, "7", 0, "UnknownAccount"),
    ("10", 0, "60", 0, "GroupAccount"),
    ("60", 0, "10", 0, "GroupAccount"),
    ("101", 1, "60", 0, "ExtraCount"),
    ("101", 3, "60", 0, "ExtraCount"),
    ("101", 2, "60", 1, "ExtraCount"),
    ("", 0, "", 0, "Sides"),
    ("60", 0, "", 0, "Sides"),
    ("", 0, "60", 0, "Sides"),
    ("001", 0, "60", 0, "Sides"),
    ("60", 0, "001", 0, "Sides"),
    ("10", 0, "7", 0, "UnknownAccount"),
    ("7", 0, "10", 0, "UnknownAccount"),
    ("101", 0, "10", 0, "GroupAccount"),
    ("10", 1, "101", 0, "GroupAccount"),
    ("001", 1, "60", 0, "ExtraCount"),
];
