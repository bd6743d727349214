//! Files with the documents that they ask to post.

// A line for each document: its key, and the request that posts it.
pub(crate) const GROUPS: &[(&[u8], &str)] = &[
    (b"key,kind,date\n", ""),
    (b"date,line.item,kind,key", ""),
    // a comment that is not there, and cells that are empty
    (
        b"key,kind,date\na,sale,2024-01-05\n",
        "a {\"clerk\":\"batch\",\"date\":\"2024-01-05T00:00:00\",\"head\":{},\"key\":\"a\",\
         \"kind\":\"sale\",\"lines\":[{}],\"no\":1,\"op\":\"post\"}\n",
    ),
    (
        b"key,kind,date,comment,head.customer,line.item\na,sale,2024-01-05T09:30:00,,,\n",
        "a {\"clerk\":\"batch\",\"date\":\"2024-01-05T09:30:00\",\"head\":{},\"key\":\"a\",\
         \"kind\":\"sale\",\"lines\":[{}],\"no\":1,\"op\":\"post\"}\n",
    ),
    // two rows of one key are two lines of one document, and a third is another document
    (
        b"key,kind,date,line.item\na,sale,2024-01-05,nail\na,sale,2024-01-05,bolt\n\
          b,sale,2024-01-05,nail\n",
        "a {\"clerk\":\"batch\",\"date\":\"2024-01-05T00:00:00\",\"head\":{},\"key\":\"a\",\
         \"kind\":\"sale\",\"lines\":[{\"item\":\"nail\"},{\"item\":\"bolt\"}],\
         \"no\":1,\"op\":\"post\"}\n\
         b {\"clerk\":\"batch\",\"date\":\"2024-01-05T00:00:00\",\"head\":{},\"key\":\"b\",\
         \"kind\":\"sale\",\"lines\":[{\"item\":\"nail\"}],\"no\":1,\"op\":\"post\"}\n",
    ),
    // a day is its first second, so that both rows have one date
    (
        b"key,kind,date\na,sale,2024-01-05\na,sale,2024-01-05T00:00:00\n",
        "a {\"clerk\":\"batch\",\"date\":\"2024-01-05T00:00:00\",\"head\":{},\"key\":\"a\",\
         \"kind\":\"sale\",\"lines\":[{},{}],\"no\":1,\"op\":\"post\"}\n",
    ),
    // members stand in byte order of names; a field of another type is for the desk to refuse
    (
        b"line.quantity,head.warehouse,key,line.item,head.customer,date,kind\n\
          1,main,a,nail,mill,2024-01-05,sale\n",
        "a {\"clerk\":\"batch\",\"date\":\"2024-01-05T00:00:00\",\
         \"head\":{\"customer\":\"mill\",\"warehouse\":\"main\"},\"key\":\"a\",\
         \"kind\":\"sale\",\"lines\":[{\"item\":\"nail\",\"quantity\":\"1\"}],\
         \"no\":1,\"op\":\"post\"}\n",
    ),
    // a comment as it is given, and a text that is no code
    (
        b"key,kind,date,comment,head.customer\na,sale,2024-01-05, caf\xC3\xA9,the mill\n",
        "a {\"clerk\":\"batch\",\"comment\":\" caf\u{e9}\",\"date\":\"2024-01-05T00:00:00\",\
         \"head\":{\"customer\":\"the mill\"},\"key\":\"a\",\
         \"kind\":\"sale\",\"lines\":[{}],\"no\":1,\"op\":\"post\"}\n",
    ),
];

// What the three writers say.
const SOLD: &str = "a {\"clerk\":\"batch\",\"date\":\"2024-01-05T00:00:00\",\
     \"head\":{\"customer\":\"mill, the \\\"old\\\"\\none\"},\"key\":\"a\",\
     \"kind\":\"sale\",\"lines\":[{\"item\":\"nail\"}],\"no\":1,\"op\":\"post\"}\n";

// One document, as it is written with commas and line feeds, with carriage returns behind a mark,
// and with each field in quotes.
pub(crate) const WRITERS: &[(&[u8], &str)] = &[
    (
        b"key,kind,date,head.customer,line.item\n\
          a,sale,2024-01-05,\"mill, the \"\"old\"\"\none\",nail\n",
        SOLD,
    ),
    (
        b"\xEF\xBB\xBFkey,kind,date,head.customer,line.item\r\n\
          a,sale,2024-01-05,\"mill, the \"\"old\"\"\none\",nail\r\n",
        SOLD,
    ),
    (
        b"\xEF\xBB\xBF\"key\",\"kind\",\"date\",\"head.customer\",\"line.item\"\r\n\
          \"a\",\"sale\",\"2024-01-05\",\"mill, the \"\"old\"\"\none\",\"nail\"",
        SOLD,
    ),
];
