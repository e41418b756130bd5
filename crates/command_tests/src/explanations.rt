//! What is wrong with a bad script, in words.

/// Bad scripts, each with what a check says of it.
pub static EXPLAINED: [(&[u8], &str); 29] = [
    (
        b"table,2,int\nrow,x\n",
        "script: record 2 is bad: field 2, \"x\", is no cell (~, a number, =text, true or false)\n",
    ),
    (
        b"#\ntable,2,int\n\nget,1\n",
        "script: record 3 is bad: field 2, \"1\", is no RID (a page and a slot, as 12.3)\n",
    ),
    (
        b"table,2,int\nbegin,a b\n",
        "script: record 2 is bad: field 2, \"a b\", is no label (1 to 16 ASCII letters and digits)\n",
    ),
    (
        b"table,2,int,number\n",
        "script: record 1 is bad: field 4, \"number\", is no kind (int, text or flag)\n",
    ),
    (
        b"table,-2,int\n",
        "script: record 1 is bad: field 2, \"-2\", is no number (decimal digits, at most 4294967295)\n",
    ),
    (
        b"table,2,int\nstart,1,4,,n:0\n",
        "script: record 2 is bad: field 4, \"\", is no dealing (ends of ranges, as 4;8, or their number, as even:2)\n",
    ),
    (
        b"table,2,int\nstart,1,4,0,n:0,n\n",
        "script: record 2 is bad: field 6, \"n\", is no spec (n: or u: and columns, with d behind one that descends, as n:0;2d, \
         and maybe a condition, as n:0?1=true, n:0?1<5 or n:0?1~)\n",
    ),
    (
        b"table,2,int\nupdate,A,0.0,1,~,\"a\n\"\"b\"\n",
        "script: record 2 is bad: field 6, \"a\\n\\\"b\", is no cell (~, a number, =text, true or false)\n",
    ),
    (
        b"table,2,int\nrow,0123456789012345678901234567890123456789\n",
        "script: record 2 is bad: field 2, \"0123456789012345678901234567890123456789\", is no cell (~, a number, =text, true or false)\n",
    ),
    (
        b"table,2,int\nrow,012345678901234567890123456789012345678\xc3\xa41\n",
        "script: record 2 is bad: field 2, \"012345678901234567890123456789012345678\u{e4}..\", is no cell (~, a number, =text, true or false)\n",
    ),
    (
        b"table,2,int\nrow,1,x,y\n",
        "script: record 2 is bad: field 3, \"x\", is no cell (~, a number, =text, true or false)\n",
    ),
    (
        b"table,2,int\nupdate,a_b\n",
        "script: record 2 is bad: field 2, \"a_b\", is no label (1 to 16 ASCII letters and digits)\n",
    ),
    (
        b"table,2,int\nfly\n",
        "script: record 2 is bad: field 1, \"fly\", is no command (table, row, begin, insert, update, delete, undo, commit, get, spools, \
            start, scan, digest, seal, load, feed, apply, fence, switch, abandon, side, pairs or rest)\n",
    ),
    (
        b"table,2,int\nupdate,A,0.0\n",
        "script: record 2 is bad: it has too few fields (update,A,RID,CELL,..)\n",
    ),
    (
        b"table,2,int\nbegin\n",
        "script: record 2 is bad: it has too few fields (begin,A)\n",
    ),
    (
        b"table,2,int\nswitch,0\n",
        "script: record 2 is bad: it has too many fields (switch)\n",
    ),
    (
        b"table,2,int\nrest,n:0,n:1\n",
        "script: record 2 is bad: it has too many fields (rest,SPEC)\n",
    ),
    (
        b"table,2\n",
        "script: record 1 is bad: it has too few fields (table,L,KIND,..)\n",
    ),
    (
        b"#a\n#\xff\ntable,2,int\n",
        "script: record 2 is bad: it is not UTF-8\n",
    ),
    (
        b"row,1\ntable,2,int\n",
        "script: record 2 is bad: a table comes first, and only once\n",
    ),
    (
        b"table,2,int\n#\ntable,2,int\n",
        "script: record 3 is bad: a table comes first, and only once\n",
    ),
    (
        b"row,1\n#\n",
        "script: record 3 is bad: no record is a table (table,L,KIND,..)\n",
    ),
    (
        b"",
        "script: record 1 is bad: no record is a table (table,L,KIND,..)\n",
    ),
    (
        b"table,2,int\nscan,0\n",
        "script: record 2 is bad: it has too few fields (scan,R,W)\n",
    ),
    (
        b"table,2,int\nfeed,0\n",
        "script: record 2 is bad: it has too few fields (feed,I,K)\n",
    ),
    (
        b"table,2,int\napply,0,1,2\n",
        "script: record 2 is bad: it has too many fields (apply,I,K)\n",
    ),
    (
        b"table,2,int\ndelete,A,0.65536\n",
        "script: record 2 is bad: field 3, \"0.65536\", is no RID (a page and a slot, as 12.3)\n",
    ),
    (
        b"table,2,int\ndigest\n",
        "script: record 2 is bad: it has too few fields (digest,W)\n",
    ),
    (
        b"table,2,int\nseal,-1\nfly\n",
        "script: record 2 is bad: field 2, \"-1\", is no number (decimal digits, at most 4294967295)\n",
    ),
];
