//! Files that are refused, each with the row and the fault that are told.

// Headers.
pub(crate) const COLUMNS: &[(&[u8], &str)] = &[
    // nothing at all, a mark alone, and lines that are all empty
    (b"", "1: 3 MissingColumn key"),
    (b"\xEF\xBB\xBF", "1: 3 MissingColumn key"),
    (b"\n\r\n\n", "1: 3 MissingColumn key"),
    // of several missing columns the first is told, whatever the order of those that are there
    (b"kind,date\n", "1: 3 MissingColumn key"),
    (b"date,key\na,b,c\n", "1: 3 MissingColumn kind"),
    (b"kind,comment,key\n", "1: 3 MissingColumn date"),
    // an unknown column, told before a missing one, and the first of two
    (b"key,kind,day\n", "1: 2 UnknownColumn day"),
    (b"Key,kind,day\n", "1: 2 UnknownColumn Key"),
    (
        b"key,kind,date,head.color\n",
        "1: 2 UnknownColumn head.color",
    ),
    (b"key,kind,date,head.item\n", "1: 2 UnknownColumn head.item"),
    (
        b"key,kind,date,line.customer\n",
        "1: 2 UnknownColumn line.customer",
    ),
    (b"key,kind,date,head\n", "1: 2 UnknownColumn head"),
    (b"key,kind,date,head.\n", "1: 2 UnknownColumn head."),
    (
        b"key,kind,date,head.head.customer\n",
        "1: 2 UnknownColumn head.head.customer",
    ),
    (b"key,kind,date, comment\n", "1: 2 UnknownColumn  comment"),
    (b"key,kind,date,\n", "1: 2 UnknownColumn "),
    (b"key;kind;date\n", "1: 2 UnknownColumn key;kind;date"),
    // a column twice is told at its second place
    (b"key,kind,key,day\n", "1: 2 UnknownColumn key"),
    (b"line.item,line.item,key\n", "1: 2 UnknownColumn line.item"),
    // one mark is passed over, and a second one belongs to the first field
    (
        b"\xEF\xBB\xBF\xEF\xBB\xBFkey,kind,date\n",
        "1: 2 UnknownColumn \u{FEFF}key",
    ),
];

// Rows of another shape.
pub(crate) const SHAPES: &[(&[u8], &str)] = &[
    (b"key,kind,date,head.\xFF\n", "1: 1 Shape"),
    (b"day\xFF,day\n", "1: 1 Shape"),
    (b"key,kind,date\na,sale\n", "2: 1 Shape"),
    (b"key,kind,date\na,sale,2024-01-05,\n", "2: 1 Shape"),
    (b"key,kind,date\na,sale,2024-01-05\n\nb\n", "3: 1 Shape"),
    // it is told before a value that does not read
    (b"key,kind,date\n!,sale,2024-13-01,\n", "2: 1 Shape"),
    (
        b"key,kind,date,line.item\n!,sale,2024-13-01,\xC3\n",
        "2: 1 Shape",
    ),
    // a spare comma is a cell
    (
        b"key,kind,date,\na,sale,2024-01-05,\n",
        "1: 2 UnknownColumn ",
    ),
];

// Rows behind a header.
pub(crate) const ROWS: &[(&[u8], &str)] = &[
    // a month that there is not, in the third row
    (
        b"key,kind,date\na,sale,2024-01-05\nb,sale,2024-13-01\n",
        "3: 4 BadValue date",
    ),
    // empty lines, and line feeds inside of quotes, are no rows
    (
        b"key,kind,date,line.item\n\na,sale,2024-01-05,\"x\ny\"\n\n\nb,sale,2024-13-01,z\n",
        "3: 4 BadValue date",
    ),
    // of two values the first in the order of the file
    (
        b"date,kind,key\n2024-02-30,Sale,a b\n",
        "2: 4 BadValue date",
    ),
    (b"key,date,kind\na b,2024-02-30,Sale\n", "2: 4 BadValue key"),
    (b"key,kind,date\n,sale,2024-01-05\n", "2: 4 BadValue key"),
    (b"key,kind,date\na,,2024-01-05\n", "2: 4 BadValue kind"),
    (b"key,kind,date\na,sale,\n", "2: 4 BadValue date"),
    (b"key,kind,date\na,sale,1999-12-31\n", "2: 4 BadValue date"),
    (
        b"key,kind,date,comment\na,sale,2024-01-05,\"two\nlines\"\n",
        "2: 4 BadValue comment",
    ),
    (
        b"key,kind,date,comment\na,sale,2024-01-05,\
          12345678901234567890123456789012345678901234567890123456789012345\n",
        "2: 4 BadValue comment",
    ),
    // a key that came before, with another one in between
    (
        b"key,kind,date\na,sale,2024-01-05\nb,sale,2024-01-05\na,sale,2024-01-05\n",
        "4: 5 Scattered",
    ),
    (
        b"key,kind,date\na,sale,2024-01-05\nb,sale,2024-01-05\na,sale,2024-01-06\n",
        "4: 5 Scattered",
    ),
    // it is told behind a value that does not read
    (
        b"key,kind,date\na,sale,2024-01-05\nb,sale,2024-01-05\na,sale,x\n",
        "4: 4 BadValue date",
    ),
    // what a document has once, given otherwise
    (
        b"key,kind,date\na,sale,2024-01-05\na,receipt,2024-01-06\n",
        "3: 6 HeadDiffers kind",
    ),
    (
        b"date,key,kind\n2024-01-05,a,sale\n2024-01-06,a,receipt\n",
        "3: 6 HeadDiffers date",
    ),
    (
        b"key,kind,date,comment\na,sale,2024-01-05,late\na,sale,2024-01-05,\n",
        "3: 6 HeadDiffers comment",
    ),
    (
        b"key,kind,date,head.customer\na,sale,2024-01-05,\na,sale,2024-01-05,mill\n",
        "3: 6 HeadDiffers head.customer",
    ),
    // all rows are held to the first one of their document, not to the one before
    (
        b"key,kind,date,line.item\na,sale,2024-01-05,x\na,sale,2024-01-05,y\na,sale,2024-01-06,x\n",
        "4: 6 HeadDiffers date",
    ),
    // of two rows the first, though its fault has the greater number
    (
        b"key,kind,date\na,sale,2024-01-05\na,receipt,2024-01-05\nb\n",
        "3: 6 HeadDiffers kind",
    ),
    (
        b"key,kind,date\na,sale,2024-01-05\na,sale,2024-13-01\nb\n",
        "3: 4 BadValue date",
    ),
];
