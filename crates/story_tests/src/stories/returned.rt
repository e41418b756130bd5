//! Spools come back ended however a build goes, and with them all pages.

use crate::story::{PLAIN, Story};

pub static STORIES: [Story; 2] = [
    Story {
        name: "a table that ends in a build",
        script: "table,255,int
begin,1
240*insert,1,+0
commit,1
start,1,1,even:1,n:0
scan,0,0
seal,0
",
        answers: "1,ok
2,ok,1
240*+3,ok,+1,0.+0
243,ok,241
244,ok,1
245,ok,0
246,ok,1
",
        is_short: true,
        is_list: true,
        ..PLAIN
    },
    Story {
        name: "a table that ends with a build",
        script: "table,255,int
begin,1
240*insert,1,+0
commit,1
start,1,1,even:1,n:0
scan,0,0
seal,0
load,0
switch
",
        answers: "1,ok
2,ok,1
240*+3,ok,+1,0.+0
243,ok,241
244,ok,1
245,ok,0
246,ok,1
247,ok,240
248,ok,242,ready:0
248,pages,0
",
        is_short: true,
        is_list: true,
        ..PLAIN
    },
];
