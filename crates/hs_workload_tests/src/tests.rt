// The generated input byte by byte, for 1 and 3 entries, and a line of counts.
use hs_workload::{Summary, text};
use std::alloc::Global;
use std::test::Fail;

// The input that ends with these entries.
fn input(alloc: Global, entries: &str) -> Result<String, Fail> {
    let mut all = String::from_str(
        alloc,
        "s0: CREATE CACHED TABLE W (ID INTEGER PRIMARY KEY, V INTEGER);\ns0: SET DATABASE TRANSACTION CONTROL MVCC;\n",
    )?;
    for i in 0..100 {
        all.push_str(format!(in alloc; "s0: INSERT INTO W VALUES ({i},0);\n")?.as_str())?;
    }
    all.push_str(
        "s0: SET AUTOCOMMIT FALSE;\ns1: SET AUTOCOMMIT FALSE;\ns2: SET AUTOCOMMIT FALSE;\ns3: SET AUTOCOMMIT FALSE;\n",
    )?;
    all.push_str(entries)?;
    Ok(all)
}

#[test]
fn texts_byte_by_byte(rt: HostRuntime) -> Result<(), Fail> {
    let alloc = rt.alloc();
    let one = input(alloc, "s2: UPDATE W SET V = V + 1 WHERE ID = 79;\n")?;
    assert!(rt; text(alloc, 1)?.as_slice() == one.as_bytes());
    let three = input(
        alloc,
        "s0: UPDATE W SET V = V + 1 WHERE ID = 21;\ns1: COMMIT;\ns2: COMMIT;\n",
    )?;
    assert!(rt; text(alloc, 3)?.as_slice() == three.as_bytes());
    assert_eq!(rt;
        one.as_bytes().iter().filter(|byte| **byte == b';').count(),
        107
    );
    Ok(())
}

#[test]
fn a_line_of_counts(rt: HostRuntime) -> Result<(), Fail> {
    let counts = Summary {
        entries: 107,
        ok: 107,
        refused: 0,
        waits: 0,
        rolled_back: 1,
    };
    let line = counts.line(rt.alloc())?;
    assert!(rt;
        line.as_slice()
            == b"summary entries 107 ok 107 refused 0 waits 0 rolled back 1\n".as_slice()
    );
    Ok(())
}
