//! Files of a few lines, each with the text of the fault that the walk through its text gives.

const NINE_DIMENSIONS: &str =
    "['a:code', 'b:code', 'c:code', 'd:code', 'e:code', 'f:code', 'g:code', 'h:code', 'a:code']";

const NINE_RESOURCES: &str = "['a:1', 'b:1', 'c:1', 'd:1', 'e:1', 'f:1', 'g:1', 'h:1', 'a:1']";

// Files, each with the text of its first fault.
pub(crate) const FILES: [(&str, &str); 48] = [
    ("", "accepted"),
    ("x = 1", "4 Unknown x"),
    ("y = 1\nx = 1", "4 Unknown x"),
    ("x = ", "1 NotToml"),
    ("[ledgers.main]", "4 Unknown ledgers"),
    ("[ledger.main]", "2 Field ledger.main.scale"),
    ("[ledger.main]\nscale = 7", "2 Field ledger.main.scale"),
    ("[ledger.main]\nscale = -1", "2 Field ledger.main.scale"),
    ("[ledger.main]\nscale = 2.0", "2 Field ledger.main.scale"),
    ("[ledger.main]\nscale = '2'", "2 Field ledger.main.scale"),
    ("[ledger.main]\nscale = 6", "2 Field ledger.main.accounts"),
    (
        "[ledger.main]\nscale = 0\nsplit = 'yes'",
        "2 Field ledger.main.split",
    ),
    (
        "[ledger.main]\nsplit = 'yes'\nscale = 9",
        "2 Field ledger.main.scale",
    ),
    ("[ledger.main]\nscale = 9\nx = 1", "4 Unknown x"),
    ("[ledger.closed]", "3 Twice closed"),
    ("[ledger.s]\n[register.s]", "2 Field register.s.kind"),
    (
        "[ledger.s]\n[register.s]\nkind = 'balance'\ndimensions = []\nresources = ['n:0']",
        "3 Twice s",
    ),
    ("[document.doc]", "3 Twice doc"),
    ("[sequence.key]", "3 Twice key"),
    (
        "[document.manual]\nhead = []\nlines = []\nrules = ''",
        "accepted",
    ),
    ("register = 1", "2 Field register"),
    ("clerk = []", "2 Field clerk"),
    ("[register]", "accepted"),
    ("[register]\ns = 1", "2 Field register.s"),
    ("[register.S]", "2 Field register.S"),
    ("[clerk.abcdefghijklmnopqrstuvwx]\nrights = []", "accepted"),
    (
        "[clerk.abcdefghijklmnopqrstuvwxy]",
        "2 Field clerk.abcdefghijklmnopqrstuvwxy",
    ),
    ("[register.documents]", "3 Twice documents"),
    ("[clerk.batch]", "3 Twice batch"),
    ("[clerk.doc]\nx = 1", "3 Twice doc"),
    ("[clerk.a]\nz = 1\nname = 1\nrights = []", "4 Unknown name"),
    ("[clerk.a]", "2 Field clerk.a.rights"),
    ("[clerk.a]\nrights = 'read'", "2 Field clerk.a.rights"),
    ("[clerk.a]\nrights = ['read', 1]", "2 Field clerk.a.rights"),
    ("[clerk.a]\nrights = ['Read']", "2 Field clerk.a.rights"),
    (
        "[clerk.a]\nrights = ['read', 'lock', 'read']",
        "3 Twice read",
    ),
    (
        "[clerk.a]\nrights = ['read', 'read', 'walk']",
        "2 Field clerk.a.rights",
    ),
    (
        "[clerk.b]\n[clerk.a]\nrights = []",
        "2 Field clerk.b.rights",
    ),
    ("[clerk.a]\n[register.s]", "2 Field register.s.kind"),
    ("[register.s]\n[clerk.a]", "2 Field register.s.kind"),
    ("[register.b]\n[register.a]", "2 Field register.a.kind"),
    ("[register.s]\nsplit = true", "2 Field register.s.kind"),
    ("[register.s]\n[x]", "4 Unknown x"),
    ("\u{feff}[clerk.a]\nrights = []", "accepted"),
    ("\u{feff}x = 1", "4 Unknown x"),
    ("[clerk.a]\n\u{feff}rights = []", "1 NotToml"),
    ("[clerk.a]\r\nrights = []\r\n", "accepted"),
    (
        "[clerk.a]\r\nrights = [\r\n'walk',\r\n]\r\n",
        "2 Field clerk.a.rights",
    ),
];

// The kind, the dimensions and the resources of the register `s`, with its file's first fault.
pub(crate) const REGISTERS: [(&str, &str, &str, &str); 26] = [
    ("'balance'", "['a:code']", "['n:3']", "accepted"),
    ("'balance'", "[]", "['n:0', 'm:6']", "accepted"),
    ("1", "1", "1", "2 Field register.s.kind"),
    ("'turnovers'", "1", "1", "2 Field register.s.kind"),
    ("'turnover'", "1", "1", "2 Field register.s.dimensions"),
    ("'turnover'", "['a:lot']", "['n:3']", "accepted"),
    (
        "'balance'",
        "['a:lot', 'b:code', 'c:lot']",
        "1",
        "3 Twice c",
    ),
    (
        "'balance'",
        "['a:lot', 'b:code', 'c:lot', 'b:code']",
        "1",
        "3 Twice c",
    ),
    (
        "'balance'",
        "['a:lot', 'b:code', 'b:code', 'c:lot']",
        "1",
        "3 Twice b",
    ),
    (
        "'balance'",
        "['a:lots']",
        "1",
        "2 Field register.s.dimensions",
    ),
    ("'balance'", "[]", "['n:1']\nsplit = true", "accepted"),
    (
        "'balance'",
        "[]",
        "['n:1']\nsplit = 1",
        "2 Field register.s.split",
    ),
    ("'balance'", "['a']", "1", "2 Field register.s.dimensions"),
    (
        "'balance'",
        "['a:lot']",
        "1",
        "2 Field register.s.resources",
    ),
    (
        "'balance'",
        "['A:code']",
        "1",
        "2 Field register.s.dimensions",
    ),
    (
        "'balance'",
        "['a:code:code']",
        "1",
        "2 Field register.s.dimensions",
    ),
    (
        "'balance'",
        "['a:code', 1]",
        "1",
        "2 Field register.s.dimensions",
    ),
    (
        "'balance'",
        "['a:code', 'b:code', 'a:code']",
        "1",
        "3 Twice a",
    ),
    (
        "'balance'",
        NINE_DIMENSIONS,
        "1",
        "5 Count register.s.dimensions 9",
    ),
    ("'balance'", "[]", "[]", "2 Field register.s.resources"),
    ("'balance'", "[]", "['n:7']", "2 Field register.s.resources"),
    (
        "'balance'",
        "[]",
        "['n:03']",
        "2 Field register.s.resources",
    ),
    ("'balance'", "[]", "['n:']", "2 Field register.s.resources"),
    ("'balance'", "[]", "['n']", "2 Field register.s.resources"),
    ("'balance'", "[]", "['n:1', 'm:2', 'n:3']", "3 Twice n"),
    (
        "'balance'",
        "[]",
        NINE_RESOURCES,
        "5 Count register.s.resources 9",
    ),
];

// The accounts of the ledger `main`, with its file's first fault.
pub(crate) const ACCOUNTS: [(&str, &str); 36] = [
    ("[]", "accepted"),
    ("1", "2 Field ledger.main.accounts"),
    ("[1]", "2 Field ledger.main.accounts"),
    ("[{}]", "2 Field ledger.main.accounts"),
    ("[{ code = '1', name = 'a', kind = 'both' }]", "accepted"),
    (
        "[{ code = '1', name = 'a', kind = 'both' }, 1]",
        "2 Field ledger.main.accounts",
    ),
    (
        "[{ code = '1', name = 'a', kind = 'both', x = 1 }]",
        "2 Field ledger.main.accounts",
    ),
    (
        "[{ code = 1, name = 'a', kind = 'both' }]",
        "2 Field ledger.main.accounts",
    ),
    (
        "[{ code = '1 0', name = 'a', kind = 'both' }]",
        "2 Field ledger.main.accounts",
    ),
    (
        "[{ code = '1', name = '', kind = 'both' }]",
        "2 Field ledger.main.accounts",
    ),
    (
        "[{ code = '1', name = \"a\\tb\", kind = 'both' }]",
        "2 Field ledger.main.accounts",
    ),
    (
        "[{ code = '1', name = 'a name of thirty-two bytes, just', kind = 'both' }]",
        "accepted",
    ),
    (
        "[{ code = '1', name = 'a name of thirty-three bytes, now', kind = 'both' }]",
        "2 Field ledger.main.accounts",
    ),
    (
        "[{ code = '1', name = 'a', kind = 'Active' }]",
        "2 Field ledger.main.accounts",
    ),
    (
        "[{ code = '1', name = 'a', kind = 'active', off = 0 }]",
        "2 Field ledger.main.accounts",
    ),
    (
        "[{ code = '1', name = 'a', kind = 'active', off = true }]",
        "accepted",
    ),
    (
        "[{ code = '1', name = 'a', kind = 'active', parent = 1 }]",
        "2 Field ledger.main.accounts",
    ),
    (
        "[{ code = '1', name = 'a', kind = 'active', parent = '' }]",
        "2 Field ledger.main.accounts",
    ),
    (
        "[{ code = '1', name = 'a', kind = 'active', extras = 'a' }]",
        "2 Field ledger.main.accounts",
    ),
    (
        "[{ code = '1', name = 'a', kind = 'active', extras = ['A'] }]",
        "2 Field ledger.main.accounts",
    ),
    (
        "[{ code = '1', name = 'a', kind = 'active', extras = ['a', 'b', 'c'] }]",
        "accepted",
    ),
    (
        "[{ code = '1', name = 'a', kind = 'active', extras = ['a', 'b', 'c', 'a'] }]",
        "5 Count ledger.main.accounts 4",
    ),
    (
        "[{ code = '1', name = 'a', kind = 'both' }, { code = '1', name = 'b', kind = 'both' }]",
        "3 Twice 1",
    ),
    (
        "[{ code = '1', name = 'a', kind = 'both' }, { code = '1', name = 'b', kind = 'both' }, \
        { code = '2', name = 'c', kind = 'both', extras = ['a', 'b', 'c', 'd', 'e'] }]",
        "5 Count ledger.main.accounts 5",
    ),
    (
        "[{ code = '1', name = 'a', kind = 'both', extras = ['item', 'item'] }, \
        { code = '1', name = 'b', kind = 'both' }]",
        "3 Twice item",
    ),
    (
        "[{ code = '1', name = 'a', kind = 'both', parent = '9' }]",
        "4 Unknown 9",
    ),
    (
        "[{ code = '1', name = 'a', kind = 'both', parent = '9' }, \
        { code = '1', name = 'b', kind = 'both' }]",
        "3 Twice 1",
    ),
    (
        "[{ code = '1', name = 'a', kind = 'both', parent = '2' }, \
        { code = '2', name = 'b', kind = 'both' }]",
        "accepted",
    ),
    (
        "[{ code = '1', name = 'a', kind = 'both', parent = '1' }]",
        "3 Twice 1",
    ),
    (
        "[{ code = '1', name = 'a', kind = 'both', parent = '1' }, \
        { code = '2', name = 'b', kind = 'both', parent = '9' }]",
        "4 Unknown 9",
    ),
    (
        "[{ code = '3', name = 'a', kind = 'both', parent = '1' }, \
        { code = '1', name = 'b', kind = 'both', parent = '2' }, \
        { code = '2', name = 'c', kind = 'both', parent = '3' }]",
        "3 Twice 3",
    ),
    (
        "[{ code = '3', name = 'a', kind = 'both', parent = '1' }, \
        { code = '1', name = 'b', kind = 'both', parent = '2' }, \
        { code = '2', name = 'c', kind = 'both', parent = '1' }]",
        "3 Twice 1",
    ),
    (
        "[{ code = '1', name = 'a', kind = 'both', off = true }, \
        { code = '2', name = 'b', kind = 'both', parent = '1' }]",
        "2 Field ledger.main.accounts",
    ),
    (
        "[{ code = '1', name = 'a', kind = 'both', off = true }, \
        { code = '2', name = 'b', kind = 'both', off = true, parent = '1' }]",
        "accepted",
    ),
    (
        "[{ code = '1', name = 'a', kind = 'both', off = true, parent = '2' }, \
        { code = '2', name = 'b', kind = 'both', parent = '2' }]",
        "3 Twice 2",
    ),
    (
        "[{ code = '1', name = 'a', kind = 'both', off = false }, \
        { code = '2', name = 'b', kind = 'both', off = true, parent = '1' }]",
        "2 Field ledger.main.accounts",
    ),
];

const SEVENTEEN_FIELDS: &str = "['a:1', 'b:1', 'c:1', 'd:1', 'e:1', 'f:1', 'g:1', 'h:1', 'i:1', \
    'j:1', 'k:1', 'l:1', 'm:1', 'n:1', 'o:1', 'p:1', 'a:1']";

// The head, the lines and the rules of the document type `d`, with its file's first fault.
pub(crate) const DOCUMENTS: [(&str, &str, &str, &str); 12] = [
    ("[]", "[]", "''", "accepted"),
    ("['a:code', 'b:0']", "['a:code']", "'x'", "accepted"),
    ("1", "1", "1", "2 Field document.d.head"),
    ("[1, 'a:code']", "1", "1", "2 Field document.d.head"),
    ("['a:lot']", "1", "1", "2 Field document.d.head"),
    ("['a:7']", "1", "1", "2 Field document.d.head"),
    ("['a:code', 'a:2']", "1", "1", "3 Twice a"),
    (SEVENTEEN_FIELDS, "1", "1", "5 Count document.d.head 17"),
    ("[]", "1", "1", "2 Field document.d.lines"),
    ("[]", "['q:3', 'q:3']", "1", "3 Twice q"),
    ("[]", SEVENTEEN_FIELDS, "1", "5 Count document.d.lines 17"),
    ("[]", "[]", "1", "2 Field document.d.rules"),
];

// A register with balances, one of turnovers, and two document types, in front of a sequence `q`.
pub(crate) const SHOP: &str = "[register.b]\nkind = 'balance'\ndimensions = ['w:code', 'l:lot']\n\
    resources = ['n:0']\n[register.t]\nkind = 'turnover'\ndimensions = ['w:code']\n\
    resources = ['n:0']\n[document.r]\nhead = ['w:code', 'l:code']\nlines = []\nrules = ''\n\
    [document.s]\nhead = ['w:2']\nlines = []\nrules = ''\n[sequence.q]\ndocuments = ";

// The document types, registers and dimensions of a sequence `q` of that shop, with the file's
// first fault.
pub(crate) const SEQUENCES: [(&str, &str, &str, &str); 20] = [
    ("['r']", "['b']", "['w']", "accepted"),
    ("['r', 's']", "['b']", "[]", "accepted"),
    ("1", "1", "1", "2 Field sequence.q.documents"),
    ("[]", "1", "1", "2 Field sequence.q.documents"),
    ("['R']", "1", "1", "2 Field sequence.q.documents"),
    ("['x']", "1", "1", "4 Unknown x"),
    ("['x', 'r', 'r']", "1", "1", "3 Twice r"),
    ("['b']", "1", "1", "4 Unknown b"),
    ("['r']", "1", "1", "2 Field sequence.q.registers"),
    ("['r']", "[]", "1", "2 Field sequence.q.registers"),
    ("['r']", "['r']", "1", "4 Unknown r"),
    ("['r']", "['b', 'b']", "1", "3 Twice b"),
    ("['r']", "['t']", "1", "2 Field sequence.q.registers"),
    ("['r']", "['t', 'x']", "1", "4 Unknown x"),
    ("['r']", "['b']", "1", "2 Field sequence.q.dimensions"),
    ("['r']", "['b']", "['w', 'w']", "3 Twice w"),
    ("['r']", "['b']", "['z']", "4 Unknown z"),
    ("['r']", "['b']", "['l']", "4 Unknown l"),
    ("['r', 's']", "['b']", "['w']", "4 Unknown w"),
    ("['r']", "['b']", "['n']", "4 Unknown n"),
];
