// Small bags of rows, with what each call makes of them.
use crate::keys::AreEqual;
use crate::texts::{read, written};
use hs_rel::{
    EvalStop, Flags, cut, distinct, except, first_group, group, in_order, intersect, join,
    left_join, owned, union,
};
use hs_values::RowList;
use std::alloc::{AllocError, Global};
use std::test::Fail;

/// What is asked of two bags, or of the left one alone.
#[derive(Clone, Copy, Debug)]
enum Call {
    /// The first columns of both sides are equal; the left side has two columns, and so has the right one.
    Join,
    LeftJoin,
    Group(usize),
    Distinct,
    Union,
    UnionAll,
    Intersect,
    Except,
    /// The flag of the first key.
    InOrder(bool),
    Cut(u128, u128),
}

use Call::{Cut, Distinct, Except, Group, InOrder, Intersect, Join, LeftJoin, Union, UnionAll};

/// A call, the left side, the right side, and the answer.
static CASES: [(Call, &str, &str, &str); 39] = [
    (
        Join,
        "1,a;2,b;-,c",
        "2,x;1,y;-,z;1,w",
        "1,a,1,y;1,a,1,w;2,b,2,x",
    ),
    (
        Join,
        "1,a;1,a",
        "1,x;1,x",
        "1,a,1,x;1,a,1,x;1,a,1,x;1,a,1,x",
    ),
    (Join, "1,a;2,b", "", ""),
    (Join, "", "1,x", ""),
    (Join, "2,a", "1,x", ""),
    (Join, "t,a;f,b;t,c", "1,x", "Fault(DivisionByZero)"),
    (Join, "1,a;t,b", "1,x", "Fault(Range)"),
    (Join, "t,a;f,b", "", ""),
    (Join, "t,a;!,b;f,c", "1,x;2,y", "Stop(Damaged(PageNo(7)))"),
    (
        LeftJoin,
        "1,a;2,b;-,c",
        "2,x;1,y;-,z;1,w",
        "1,a,1,y;1,a,1,w;2,b,2,x;-,c,-,-",
    ),
    (LeftJoin, "3,a;1,b", "1,x", "3,a,-,-;1,b,1,x"),
    (LeftJoin, "1,a;1,a;2,b", "", "1,a,-,-;1,a,-,-;2,b,-,-"),
    (LeftJoin, "", "1,x", ""),
    (LeftJoin, "2,a;f,b;t,c", "1,x", "Fault(DivisionByZero)"),
    (
        LeftJoin,
        "t,a;!,b;f,c",
        "1,x;2,y",
        "Stop(Damaged(PageNo(7)))",
    ),
    (LeftJoin, "t,a", "", "t,a,-,-"),
    (
        Group(1),
        "2,a;1,b;2,c;-,d;1,e;-,f",
        "",
        "-,d;-,f;1,b;1,e;2,a;2,c",
    ),
    (Group(2), "2,b;1,c;2,a;2,b", "", "1,c;2,a;2,b;2,b"),
    (Group(0), "2,a;1,b;2,c", "", "2,a;1,b;2,c"),
    (Group(9), "2,b;2,a", "", "2,a;2,b"),
    (Group(1), "", "", ""),
    (Distinct, "2,a;-,b;2,a;-,b;-,-;-,-", "", "-,-;-,b;2,a"),
    (Distinct, "x;;x", "", ";x"),
    (Distinct, "", "", ""),
    (Union, "1;2;2", "2;3;-;-", "-;1;2;3"),
    (Union, "2", "", "2"),
    (UnionAll, "2;1;2", "-;1", "2;1;2;-;1"),
    (UnionAll, "", "1", "1"),
    (Intersect, "1;2;2;-", "2;-;4;-", "-;2"),
    (Intersect, "1;2", "", ""),
    (Except, "5;1;2;2;-;5", "2;4", "-;1;5"),
    (Except, "-;1", "-", "1"),
    (Except, "2;2", "", "2"),
    (InOrder(false), "3,a;-,c;1,b;3,-", "", "-,c;1,b;3,-;3,a"),
    (
        InOrder(true),
        "1,b;3,a;-,c;3,-;2,z",
        "",
        "-,c;3,-;3,a;2,z;1,b",
    ),
    (Cut(1, 2), "1;2;3;4", "", "2;3"),
    (Cut(0, 9), "1;2", "", "1;2"),
    (Cut(2, 1), "1;2", "", ""),
    (
        Cut(
            340282366920938463463374607431768211455,
            340282366920938463463374607431768211455,
        ),
        "1;2",
        "",
        "",
    ),
];

/// The flags of one key.
fn flags(alloc: Global, descending: bool) -> Result<Flags, AllocError> {
    let mut flags = Flags::new(alloc);
    flags.push(descending)?;
    Ok(flags)
}

fn answer(alloc: Global, call: Call, left: &RowList, right: &RowList) -> Result<RowList, EvalStop> {
    let mut on = AreEqual {
        left: 0,
        right: 2,
        judged: 0,
    };
    match call {
        Join => join(alloc, left, right, &mut on),
        LeftJoin => left_join(alloc, left, right, 2, &mut on),
        Group(keys) => group(alloc, left, keys),
        Distinct => distinct(alloc, left),
        Union => union(alloc, left, right, false),
        UnionAll => union(alloc, left, right, true),
        Intersect => intersect(alloc, left, right),
        Except => except(alloc, left, right),
        InOrder(descending) => in_order(alloc, left, &flags(alloc, descending)?),
        Cut(offset, limit) => cut(alloc, left, offset, limit),
    }
}

/// The same of rows that are given away.
fn answer_owned(
    alloc: Global,
    call: Call,
    left: RowList,
    right: RowList,
) -> Result<RowList, EvalStop> {
    match call {
        Join | LeftJoin => answer(alloc, call, &left, &right),
        Group(keys) => owned::group(left, keys),
        Distinct => owned::distinct(left),
        Union => owned::union(left, right, false),
        UnionAll => owned::union(left, right, true),
        Intersect => owned::intersect(alloc, left, &right),
        Except => owned::except(alloc, left, &right),
        InOrder(descending) => owned::in_order(left, &flags(alloc, descending)?),
        Cut(offset, limit) => Ok(owned::cut(left, offset, limit)),
    }
}

fn text_of(alloc: Global, answer: Result<RowList, EvalStop>) -> Result<String, AllocError> {
    match answer {
        Ok(rows) => written(alloc, &rows),
        Err(stop) => format!(in alloc; "{stop:?}"),
    }
}

#[test]
fn answers(rt: HostRuntime) -> Result<(), Fail> {
    let alloc = rt.alloc();
    for (call, left, right, want) in CASES {
        let given = answer(alloc, call, &read(alloc, left)?, &read(alloc, right)?);
        assert_eq!(rt;
            text_of(alloc, given)?.as_str(),
            want,
            "{call:?} of {left} and {right}"
        );
        let given = answer_owned(alloc, call, read(alloc, left)?, read(alloc, right)?);
        assert_eq!(rt;
            text_of(alloc, given)?.as_str(),
            want,
            "owned {call:?} of {left} and {right}"
        );
    }
    Ok(())
}

/// A stop ends a join at once, a fault doesn't.
#[test]
fn rows_that_are_judged(rt: HostRuntime) -> Result<(), Fail> {
    let alloc = rt.alloc();
    let right = read(alloc, "1,x;2,y")?;
    for (left, want) in [("t,a;!,b;1,c", 3), ("t,a;f,b;1,c", 6), ("!,a", 1), ("", 0)] {
        let left = read(alloc, left)?;
        let mut on = AreEqual {
            left: 0,
            right: 2,
            judged: 0,
        };
        let _ = join(alloc, &left, &right, &mut on).is_ok();
        assert_eq!(rt; on.judged, want);
        on.judged = 0;
        let _ = left_join(alloc, &left, &right, 2, &mut on).is_ok();
        assert_eq!(rt; on.judged, want);
    }
    Ok(())
}

/// How long the first group of grouped rows is.
#[test]
fn first_groups(rt: HostRuntime) -> Result<(), Fail> {
    let alloc = rt.alloc();
    let cases = [
        ("", 1, 0),
        ("1,a", 1, 1),
        ("1,a;1,b;2,c", 1, 2),
        ("-,a;-,b;1,c", 1, 2),
        ("1,a;1,a;1,b", 2, 2),
        ("1,a;2,b", 0, 2),
        ("1,a;2,b;2,c", 9, 1),
    ];
    for (rows, keys, want) in cases {
        let rows = read(alloc, rows)?;
        assert_eq!(rt; first_group(rows.as_slice(), keys), want);
    }
    Ok(())
}
