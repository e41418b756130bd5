//! Files, with what the command `index` prints of them.

use crate::run::{Out, Run, SCRIPT};
use crate::task::Task;

/// Files of all kinds.
pub fn files() -> &'static [Run] {
    &FILES
}

/// What is looked for in them.
pub fn look_ups() -> &'static [Run] {
    &LOOK_UPS
}

/// Records that are left out, and indexes that are refused.
pub fn refused() -> &'static [Run] {
    &REFUSED
}

static FILES: [Run; 12] = [
    Run {
        name: "quotes, commas and ends of lines in fields",
        task: Task::Index(&[
            "--columns",
            "id:int,note:text",
            "--on",
            "note",
            "--workers",
            "2",
            "--range",
            "..",
        ]),
        rest: b"id,note\n1,\"a,b\"\n2,\"say \"\"x\"\"\"\n3,\"two\nlines\"\n4,plain\n",
        out: Out::Is(
            "note: pairs: 4, levels: 1, ready\nline,id,note\n2,1,\"a,b\"\n6,4,plain\n3,2,\"say \"\"x\"\"\"\n4,3,\"two\nlines\"\n",
        ),
        err: "rows read: 4, pages scanned: 1, pairs loaded: 4\nnote: pages leased at most: 1\n",
        ..SCRIPT
    },
    Run {
        name: "empty cells",
        task: Task::Index(&["--columns", "a:int,b:text", "--on", "a,b", "--range", ".."]),
        rest: b"a,b\n,x\n1,\n,\n0,y\n",
        out: Out::Is("a,b: pairs: 4, levels: 1, ready\nline,a,b\n4,,\n2,,x\n5,0,y\n3,1,\n"),
        err: "rows read: 4, pages scanned: 1, pairs loaded: 4\na,b: pages leased at most: 1\n",
        ..SCRIPT
    },
    Run {
        name: "lines that end with two bytes, a blank one, and a byte order mark",
        task: Task::Index(&["--columns", "a:int,b:text", "--on", "a", "--range", ".."]),
        rest: b"\xef\xbb\xbfa,b\r\n2,x\r\n\r\n1,\"y\r\nz\"\r\n3,w\r\n",
        out: Out::Is("a: pairs: 3, levels: 1, ready\nline,a,b\n4,1,\"y\r\nz\"\n2,2,x\n6,3,w\n"),
        err: "rows read: 3, pages scanned: 1, pairs loaded: 3\na: pages leased at most: 1\n",
        ..SCRIPT
    },
    Run {
        name: "lines that end with a carriage return alone",
        task: Task::Index(&["--columns", "a:int", "--on", "a", "--range", ".."]),
        rest: b"a\r2\r1\r\r3\r",
        out: Out::Is("a: pairs: 3, levels: 1, ready\nline,a\n3,1\n2,2\n5,3\n"),
        err: "rows read: 3, pages scanned: 1, pairs loaded: 3\na: pages leased at most: 1\n",
        ..SCRIPT
    },
    Run {
        name: "no end of the last line, and columns that aren't asked for",
        task: Task::Index(&[
            "--columns",
            "c:flag,a:int",
            "--on",
            "c,a:desc",
            "--range",
            "..",
        ]),
        rest: b"a,b,c,,\n1,?,true,,\n2,?,true,,\n3,?,false,,",
        out: Out::Is(
            "c,a:desc: pairs: 3, levels: 1, ready\nline,c,a\n4,false,3\n3,true,2\n2,true,1\n",
        ),
        err: "rows read: 3, pages scanned: 1, pairs loaded: 3\nc,a:desc: pages leased at most: 1\n",
        ..SCRIPT
    },
    Run {
        name: "a name that stands twice, of a column that isn't asked for",
        task: Task::Index(&["--columns", "a:int", "--on", "a", "--find", "2"]),
        rest: b"b,a,b\n1,2,3\n",
        out: Out::Is("a: pairs: 1, levels: 1, ready\nline,a\n2,2\n"),
        err: "rows read: 1, pages scanned: 1, pairs loaded: 1\na: pages leased at most: 1\n",
        ..SCRIPT
    },
    Run {
        name: "no rows",
        task: Task::Index(&[
            "--columns",
            "a:int",
            "--on",
            "a",
            "--unique",
            "a",
            "--range",
            "..",
        ]),
        rest: b"a\n",
        out: Out::Is(
            "a: pairs: 0, levels: 1, ready\na: pairs: 0, levels: 1, unique, ready\nline,a\n",
        ),
        err: "rows read: 0, pages scanned: 0, pairs loaded: 0\na: pages leased at most: 0\na: pages leased at most: 0\n",
        ..SCRIPT
    },
    Run {
        name: "as many rows as a leaf has pairs",
        task: Task::Index(&["--columns", "a:int", "--on", "a"]),
        rest: b"a\n1\n2\n3\n4\n5\n6\n7\n8\n9\n10\n11\n12\n13\n14\n15\n16\n17\n18\n19\n20\n21\n22\n23\n24\n25\n26\n27\n28\n29\n30\n31\n32\n",
        out: Out::Is("a: pairs: 32, levels: 1, ready\n"),
        err: "rows read: 32, pages scanned: 1, pairs loaded: 32\na: pages leased at most: 1\n",
        ..SCRIPT
    },
    Run {
        name: "one row more",
        task: Task::Index(&["--columns", "a:int", "--on", "a"]),
        rest: b"a\n1\n2\n3\n4\n5\n6\n7\n8\n9\n10\n11\n12\n13\n14\n15\n16\n17\n18\n19\n20\n21\n22\n23\n24\n25\n26\n27\n28\n29\n30\n31\n32\n33\n",
        out: Out::Is("a: pairs: 33, levels: 2, ready\n"),
        err: "rows read: 33, pages scanned: 1, pairs loaded: 33\na: pages leased at most: 1\n",
        ..SCRIPT
    },
    Run {
        name: "numbers of both signs",
        task: Task::Index(&["--columns", "n:int", "--on", "n:desc", "--range", ".."]),
        rest: b"n\n5\n-5\n0\n9223372036854775807\n-9223372036854775808\n+7\n007\n-0\n",
        out: Out::Is(
            "n:desc: pairs: 8, levels: 1, ready\nline,n\n5,9223372036854775807\n7,7\n8,7\n2,5\n4,0\n9,0\n3,-5\n6,-9223372036854775808\n",
        ),
        err: "rows read: 8, pages scanned: 1, pairs loaded: 8\nn:desc: pages leased at most: 1\n",
        ..SCRIPT
    },
    Run {
        name: "texts of many scripts, by their bytes",
        task: Task::Index(&["--columns", "t:text", "--on", "t", "--range", ".."]),
        rest: b"t\n\xe6\x9d\xb1\n\xd1\x8f\na\n\xf0\x9d\x84\x9e\n\xc3\xa9\n\xd8\xb9\nZ\n\xc3\x9f\n\xe4\xba\xac\n\xd0\x96\n\xd7\x90\n",
        out: Out::Is(
            "t: pairs: 11, levels: 1, ready\nline,t\n8,Z\n4,a\n9,ß\n6,é\n11,Ж\n3,я\n12,א\n7,ع\n10,京\n2,東\n5,𝄞\n",
        ),
        err: "rows read: 11, pages scanned: 1, pairs loaded: 11\nt: pages leased at most: 1\n",
        ..SCRIPT
    },
    Run {
        name: "rows that share a key",
        task: Task::Index(&["--columns", "k:text,v:int", "--on", "k", "--find", "b"]),
        rest: b"k,v\nb,1\na,2\nb,3\na,4\n",
        out: Out::Is("k: pairs: 4, levels: 1, ready\nline,k,v\n2,b,1\n4,b,3\n"),
        err: "rows read: 4, pages scanned: 1, pairs loaded: 4\nk: pages leased at most: 1\n",
        ..SCRIPT
    },
];

static LOOK_UPS: [Run; 8] = [
    Run {
        name: "the beginning of a key",
        task: Task::Index(&[
            "--columns",
            "k:text,v:int",
            "--on",
            "k,v:desc",
            "--find",
            "b",
        ]),
        rest: b"k,v\nb,1\na,2\nb,3\nbb,4\n",
        out: Out::Is("k,v:desc: pairs: 4, levels: 1, ready\nline,k,v\n4,b,3\n2,b,1\n"),
        err: "rows read: 4, pages scanned: 1, pairs loaded: 4\nk,v:desc: pages leased at most: 1\n",
        ..SCRIPT
    },
    Run {
        name: "a key and a range, one after the other",
        task: Task::Index(&[
            "--columns",
            "n:int",
            "--on",
            "n",
            "--find=-1",
            "--range=-1..1",
        ]),
        rest: b"n\n1\n0\n-1\n-2\n",
        out: Out::Is("n: pairs: 4, levels: 1, ready\nline,n\n4,-1\nline,n\n4,-1\n3,0\n"),
        err: "rows read: 4, pages scanned: 1, pairs loaded: 4\nn: pages leased at most: 1\n",
        ..SCRIPT
    },
    Run {
        name: "a range that begins with the greater cell",
        task: Task::Index(&["--columns", "n:int", "--on", "n:desc", "--range", "4..2"]),
        rest: b"n\n4\n3\n2\n1\n",
        out: Out::Is("n:desc: pairs: 4, levels: 1, ready\nline,n\n2,4\n3,3\n"),
        err: "rows read: 4, pages scanned: 1, pairs loaded: 4\nn:desc: pages leased at most: 1\n",
        ..SCRIPT
    },
    Run {
        name: "a range with points in quotes",
        task: Task::Index(&[
            "--columns",
            "t:text",
            "--on",
            "t",
            "--range",
            "\"a..b\"..\"a..c\"",
        ]),
        rest: b"t\na..b\na\na..c\nb\n",
        out: Out::Is("t: pairs: 4, levels: 1, ready\nline,t\n2,a..b\n"),
        err: "rows read: 4, pages scanned: 1, pairs loaded: 4\nt: pages leased at most: 1\n",
        ..SCRIPT
    },
    Run {
        name: "a range with quotes inside of a cell",
        task: Task::Index(&["--columns", "t:text", "--on", "t", "--range", "a\"..b"]),
        rest: b"t\n\"a\"\"\"\na\nb\n",
        out: Out::Is("t: pairs: 3, levels: 1, ready\nline,t\n2,\"a\"\"\"\n"),
        err: "rows read: 3, pages scanned: 1, pairs loaded: 3\nt: pages leased at most: 1\n",
        ..SCRIPT
    },
    Run {
        name: "rows with a lesser cell",
        task: Task::Index(&[
            "--columns",
            "a:int,b:text",
            "--on",
            "a",
            "--where",
            "a<3",
            "--range",
            "..",
        ]),
        rest: b"a,b\n1,x\n5,\n2,y\n,x\n",
        out: Out::Is("a: pairs: 2, levels: 1, ready\nline,a,b\n2,1,x\n4,2,y\n"),
        err: "rows read: 4, pages scanned: 1, pairs loaded: 2\na: pages leased at most: 1\n",
        ..SCRIPT
    },
    Run {
        name: "rows with a given cell",
        task: Task::Index(&[
            "--columns",
            "a:int,b:text",
            "--on",
            "a",
            "--where",
            "b=x",
            "--range",
            "..",
        ]),
        rest: b"a,b\n1,x\n5,\n2,y\n,x\n",
        out: Out::Is("a: pairs: 2, levels: 1, ready\nline,a,b\n5,,x\n2,1,x\n"),
        err: "rows read: 4, pages scanned: 1, pairs loaded: 2\na: pages leased at most: 1\n",
        ..SCRIPT
    },
    Run {
        name: "rows with an empty cell",
        task: Task::Index(&[
            "--columns",
            "a:int,b:text",
            "--on",
            "a",
            "--where",
            "b~",
            "--range",
            "..",
        ]),
        rest: b"a,b\n1,x\n5,\n2,y\n,x\n",
        out: Out::Is("a: pairs: 1, levels: 1, ready\nline,a,b\n3,5,\n"),
        err: "rows read: 4, pages scanned: 1, pairs loaded: 1\na: pages leased at most: 1\n",
        ..SCRIPT
    },
];

static REFUSED: [Run; 4] = [
    Run {
        name: "records that are left out",
        task: Task::Index(&[
            "--columns",
            "id:int,name:text",
            "--on",
            "name",
            "--unique",
            "id",
            "--skip-bad",
            "--range",
            "..",
        ]),
        rest: b"id,name\n1,a\nx,b\n2\n3,yyyyyyyyyyyyyyyyyyyyyyyyyyyyyyyyyyyyyyyyyyyyyyyyyyyyyyyyyyyyyyyyyyyyyyyyyyyyyyyyyyyyyyyyyyyyyyyyyyyyy\n\
            \n4,d\n4,e\n1,f\n",
        out: Out::Is(
            "name: pairs: 4, levels: 1, ready\nid: unique, refused: lines 2 and 9 share the key 1\nrecords left out: 3\n\
            line,id,name\n2,1,a\n7,4,d\n8,4,e\n9,1,f\n",
        ),
        err: "rows read: 4, pages scanned: 1, pairs loaded: 4\nname: pages leased at most: 1\nid: pages leased at most: 1\n",
        status: 1,
        ..SCRIPT
    },
    Run {
        name: "a key that two rows share",
        task: Task::Index(&["--columns", "a:int,b:text", "--unique", "a,b"]),
        rest: b"a,b\n1,x\n1,y\n1,x\n",
        out: Out::Is("a,b: unique, refused: lines 2 and 4 share the key 1,x\n"),
        err: "rows read: 3, pages scanned: 1, pairs loaded: 0\na,b: pages leased at most: 1\n",
        status: 1,
        ..SCRIPT
    },
    Run {
        name: "an empty key that two rows share",
        task: Task::Index(&["--columns", "a:int", "--unique", "a"]),
        rest: b"a\n\"\"\n\"\"\n",
        out: Out::Is("a: unique, refused: lines 2 and 3 share the key \"\"\n"),
        err: "rows read: 2, pages scanned: 1, pairs loaded: 0\na: pages leased at most: 1\n",
        status: 1,
        ..SCRIPT
    },
    Run {
        name: "no rows of an index that is refused",
        task: Task::Index(&["--columns", "a:int", "--unique", "a", "--range", ".."]),
        rest: b"a\n7\n8\n7\n",
        out: Out::Is("a: unique, refused: lines 2 and 4 share the key 7\n"),
        err: "rows read: 3, pages scanned: 1, pairs loaded: 0\na: pages leased at most: 1\nsfbuild index: the first index isn't ready, and gives no rows\n",
        status: 1,
        ..SCRIPT
    },
];
