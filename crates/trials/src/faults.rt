// Runs that end by a fault, and runs that just do not: 21 to 26.
use crate::case::Case;

pub const PLAIN: [(&str, &str); 30] = [
    (
        "{ fee := 5; fee := true; }",
        "fault 21 12 5\n0 3\n1 0\n2 0\n",
    ),
    ("fee := 1 + true;", "fault 21 7 3\n0 3\n1 0\n2 0\n"),
    ("if days then {} else {}", "fault 21 0 2\n0 3\n1 0\n2 0\n"),
    ("while 1 do {}", "fault 21 0 2\n0 3\n1 0\n2 0\n"),
    (
        "fee := if 1 then 2 else 3;",
        "fault 21 7 2\n0 3\n1 0\n2 0\n",
    ),
    ("open := 1 = true;", "fault 21 8 3\n0 3\n1 0\n2 0\n"),
    ("open := false and 1;", "fault 21 8 3\n0 3\n1 0\n2 0\n"),
    ("open := true or 0;", "fault 21 8 3\n0 3\n1 0\n2 0\n"),
    ("open := not 1;", "fault 21 8 2\n0 3\n1 0\n2 0\n"),
    ("fee := -true;", "fault 21 7 2\n0 3\n1 0\n2 0\n"),
    ("open := not open;", "done 3\n0 3\n1 0\n2 1\n"),
    (
        "open := 1 < 2 and 2 < 1 or true;",
        "done 10\n0 3\n1 0\n2 1\n",
    ),
    ("fee := 2147483647 + 1;", "fault 22 7 3\n0 3\n1 0\n2 0\n"),
    (
        "fee := 0 - 2147483647 - 1;",
        "done 6\n0 3\n1 -2147483648\n2 0\n",
    ),
    (
        "fee := 0 - 2147483647 - 2;",
        "fault 22 7 5\n0 3\n1 0\n2 0\n",
    ),
    ("fee := 65536 * 32768;", "fault 22 7 3\n0 3\n1 0\n2 0\n"),
    (
        "fee := -65536 * 32768;",
        "done 5\n0 3\n1 -2147483648\n2 0\n",
    ),
    (
        "fee := -(0 - 2147483647 - 1);",
        "fault 22 7 6\n0 3\n1 0\n2 0\n",
    ),
    (
        "fee := (1 + 1) * 2147483647;",
        "fault 22 7 5\n0 3\n1 0\n2 0\n",
    ),
    (
        "fee := ((1 + 1) * 2147483647);",
        "fault 22 8 5\n0 3\n1 0\n2 0\n",
    ),
    (
        "{ fun f(n) = if n = 0 then 0 else f(n - 1); fee := f(253); }",
        "done 2290\n0 3\n1 0\n2 0\n",
    ),
    (
        "{ fun f(n) = if n = 0 then 0 else f(n - 1); fee := f(254); }",
        "fault 23 34 2036\n0 3\n1 0\n2 0\n",
    ),
    (
        "{ proc p() call p(); call p(); }",
        "fault 23 11 257\n0 3\n1 0\n2 0\n",
    ),
    (
        "{ proc p() { {} call p(); } call p(); }",
        "fault 23 13 509\n0 3\n1 0\n2 0\n",
    ),
    (
        "{ fun f(n) = if n = 0 then 1+(1+(1+1)) else 1+(1+(1+(1+f(n-1)))); fee := f(127); }",
        "done 2178\n0 3\n1 512\n2 0\n",
    ),
    (
        "{ fun f(n) = if n = 0 then 1+(1+(1+(1+1))) else 1+(1+(1+(1+f(n-1)))); fee := f(127); }",
        "fault 25 38 1537\n0 3\n1 0\n2 0\n",
    ),
    (
        "{ var a = 0; while a < 111110 do a := a + 1; fee := 1; }",
        "done 1000000\n0 3\n1 1\n2 0\n",
    ),
    (
        "{ var a = 0; while a < 111110 do a := a + 1; fee := -1; }",
        "fault 26 0 1000000\n0 3\n1 0\n2 0\n",
    ),
    ("while true do {}", "fault 26 6 1000000\n0 3\n1 0\n2 0\n"),
    (
        "{ var a = 0; while a < 111110 do a := a + 1; fee := true; }",
        "fault 21 45 999999\n0 3\n1 0\n2 0\n",
    ),
];

pub const BUILT: [Case; 2] = [
    Case {
        front: "{ proc p(n) if n = 0 then { ",
        unit: "var b#=1; ",
        times: 28,
        middle: "} else { ",
        unit2: "var a#=1; ",
        times2: 64,
        back: "call p(n - 1); } call p(31); }",
        want: "done 4378\n0 3\n1 0\n2 0\n",
    },
    Case {
        front: "{ proc p(n) if n = 0 then { ",
        unit: "var b#=1; ",
        times: 29,
        middle: "} else { ",
        unit2: "var a#=1; ",
        times2: 64,
        back: "call p(n - 1); } call p(31); }",
        want: "fault 24 26 4256\n0 3\n1 0\n2 0\n",
    },
];
