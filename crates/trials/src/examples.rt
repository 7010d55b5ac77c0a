// The worked examples of the language.
use crate::case::Case;

pub const PLAIN: [(&str, &str); 9] = [
    ("fee := days + 1;", "done 4\n0 3\n1 4\n2 0\n"),
    ("{}", "done 2\n0 3\n1 0\n2 0\n"),
    (
        "{ const days = days + 1; fee := days; }",
        "done 8\n0 3\n1 4\n2 0\n",
    ),
    (
        "{ var a = 1; proc p() a := 9; proc q() { var a = 2; call p(); fee := a; } call q(); fee := fee * 10 + a; }",
        "done 24\n0 3\n1 29\n2 0\n",
    ),
    (
        "fee := let a = 1 in let b = 2 in a;",
        "done 10\n0 3\n1 1\n2 0\n",
    ),
    (
        "fee := let b = 1 in let a = 2 in b;",
        "done 10\n0 3\n1 1\n2 0\n",
    ),
    (
        "fee := if days = 4 and 2147483647 + 1 < 0 then 1 else 2;",
        "fault 22 23 6\n0 3\n1 0\n2 0\n",
    ),
    (
        "{ fee := 5; fee := true; }",
        "fault 21 12 5\n0 3\n1 0\n2 0\n",
    ),
    (
        "fee := 0 - 2147483647 - 1;",
        "done 6\n0 3\n1 -2147483648\n2 0\n",
    ),
];

pub const BUILT: [Case; 2] = [
    Case {
        front: "",
        unit: "{",
        times: 15,
        middle: "",
        unit2: "}",
        times2: 15,
        back: "",
        want: "done 30\n0 3\n1 0\n2 0\n",
    },
    Case {
        front: "",
        unit: "{",
        times: 16,
        middle: "",
        unit2: "}",
        times2: 16,
        back: "",
        want: "refused 14 15\n",
    },
];
