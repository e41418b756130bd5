//! Words of the command `index` that are refused before the file is read.

/// Words, each with what is said of them.
pub static REFUSED: [(&[&str], &str); 22] = [
    (
        &["--columns", "a:int", "--on", "a", "--find", "x"],
        "sfbuild index: `x`: no key: column `a`: no whole number of 64 bits\n",
    ),
    (
        &[
            "--columns",
            "b:flag,a:int",
            "--on",
            "b,a",
            "--find",
            "true,x",
        ],
        "sfbuild index: `true,x`: no key: column `a`: no whole number of 64 bits\n",
    ),
    (
        &[
            "--columns",
            "a:text",
            "--on",
            "a",
            "--find",
            "yyyyyyyyyyyyyyyyyyyyyyyyyyyyyyyyyyyyyyyyyyyyyyyyyyyyyyyyyyyyyyyyyyyyyyyyyyyyyyyyyyyyyyyyyyyyyyyyyyyyy",
        ],
        "sfbuild index: `yyyyyyyyyyyyyyyyyyyyyyyyyyyyyyyyyyyyyyyyyyyyyyyyyyyyyyyyyyyyyyyyyyyyyyyyyyyyyyyyyyyyyyyyyyyyyyyyyyyyy`\
        : no key: column `a`: a text of more than 100 bytes\n",
    ),
    (
        &["--columns", "a:int", "--on", "a", "--find", "1\n2"],
        "sfbuild index: `1\n2`: more than one line\n",
    ),
    (
        &["--columns", "a:int", "--on", "a", "--find", "1,2"],
        "sfbuild index: `1,2`: more cells than the first index has columns\n",
    ),
    (
        &["--columns", "a:int", "--on", "a", "--range", "1"],
        "sfbuild index: `1`: no range: that is a key, two points outside quotes and a key, of which either may be left out\n",
    ),
    (
        &["--columns", "a:text", "--on", "a", "--range", "\"1..2\""],
        "sfbuild index: `\"1..2\"`: no range: that is a key, two points outside quotes and a key, of which either may be left out\n",
    ),
    (
        &["--columns", "a:int", "--on", "a", "--range", "1..x"],
        "sfbuild index: `x`: no key: column `a`: no whole number of 64 bits\n",
    ),
    (
        &["--columns", "a:int", "--on", "a", "--where", "a<x"],
        "sfbuild index: `a<x`: no condition: that is COLUMN<CELL, COLUMN=CELL or COLUMN~, and the cell is of the column's kind\n",
    ),
    (
        &["--columns", "a:int", "--on", "a", "--where", "a"],
        "sfbuild index: `a`: no condition: that is COLUMN<CELL, COLUMN=CELL or COLUMN~, and the cell is of the column's kind\n",
    ),
    (
        &["--columns", "a:int", "--on", "a", "--where", "b<1"],
        "sfbuild index: `b<1`: no condition: that is COLUMN<CELL, COLUMN=CELL or COLUMN~, and the cell is of the column's kind\n",
    ),
    (
        &["--columns", "a:int", "--on", "a", "--where", "a="],
        "sfbuild index: `a=`: no condition: that is COLUMN<CELL, COLUMN=CELL or COLUMN~, and the cell is of the column's kind\n",
    ),
    (
        &["--columns", "a:int", "--on", "a", "--where", "~"],
        "sfbuild index: `~`: no condition: that is COLUMN<CELL, COLUMN=CELL or COLUMN~, and the cell is of the column's kind\n",
    ),
    (
        &["--columns", "a:int", "--on", "b"],
        "sfbuild index: `b`: no column that --columns names\n",
    ),
    (
        &["--columns", "a:int", "--on", "a,a"],
        "sfbuild index: `a,a`: no columns of an index: these are 1 to 4, each named once\n",
    ),
    (
        &["--columns", "a:number", "--on", "a"],
        "sfbuild index: `a:number`: no column with its kind, as people:int, where the kind is int, text or flag\n",
    ),
    (
        &["--columns", "a:int,a:text", "--on", "a"],
        "sfbuild index: `a`: named twice in --columns\n",
    ),
    (
        &["--columns", "a:int,:int", "--on", "a"],
        "sfbuild index: `a:int,:int`: a column without a name: --columns takes NAME:KIND,..\n",
    ),
    (
        &["--columns", "", "--on", "a"],
        "sfbuild index: a column without a name: --columns takes NAME:KIND,..\n",
    ),
    (
        &["--columns", "a:int"],
        "sfbuild index: no index is asked for: --on or --unique names the columns of one\n",
    ),
    (
        &[
            "--columns",
            "a:int",
            "--on",
            "a",
            "--on",
            "a",
            "--on",
            "a",
            "--on",
            "a",
            "--on",
            "a",
            "--on",
            "a",
            "--on",
            "a",
            "--on",
            "a",
            "--on",
            "a",
        ],
        "sfbuild index: `a`: one index too many: there are at most 8\n",
    ),
    (
        &[
            "--columns",
            "a:int,b:int,c:int,d:int,e:int,f:int,g:int,h:int,i:int,j:int,k:int,l:int,m:int",
            "--on",
            "a",
        ],
        "sfbuild index: `m`: one column too many: a table has at most 12\n",
    ),
];
