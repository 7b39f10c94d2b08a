// First groups of slots.
use hs_base::CommitNo;
use hs_claims::ControlKind;
use hs_script::{Head, print_head, read_head};
use hs_values::Chars;
use std::alloc::Global;
use std::process::Abort;
use std::test::Fail;

static WRONG: [&str; 24] = [
    "",
    "FORMAT 2\nCOMMITS 0\nCHANGES 0\nPAGES 0\nCONTROL LOCKS\nLEVEL READ COMMITTED\n",
    "FORMAT 1\nCOMMITS 0\nCHANGES 0\nPAGES 0\nCONTROL LOCKS\nLEVEL READ COMMITTED",
    "FORMAT 1\nCOMMITS 0\nCHANGES 0\nPAGES 0\nCONTROL LOCKS\nLEVEL READ COMMITTED\n\n",
    "FORMAT 1\nCOMMITS 0\nCHANGES 0\nPAGES 0\nCONTROL LOCKS\nLEVEL READ  COMMITTED\n",
    "FORMAT 1\nCOMMITS 0\nCHANGES 0\nPAGES 0\nCONTROL LOCKS\nLEVEL SNAPSHOT\n",
    "FORMAT 1\nCOMMITS 0\nCHANGES 0\nPAGES 0\nCONTROL locks\nLEVEL SERIALIZABLE\n",
    "FORMAT 1\nCOMMITS 0\nCHANGES 0\nPAGES 0\nCONTROL MV\nLEVEL SERIALIZABLE\n",
    "FORMAT 1\nCOMMITS 0\nCHANGES 0\nPAGES 0\nLEVEL SERIALIZABLE\nCONTROL LOCKS\n",
    "FORMAT 1\nCOMMITS 0\nPAGES 0\nCHANGES 0\nCONTROL LOCKS\nLEVEL SERIALIZABLE\n",
    "FORMAT 1\nCOMMITS 00\nCHANGES 0\nPAGES 0\nCONTROL LOCKS\nLEVEL SERIALIZABLE\n",
    "FORMAT 1\nCOMMITS 1\nCHANGES 01\nPAGES 0\nCONTROL LOCKS\nLEVEL SERIALIZABLE\n",
    "FORMAT 1\nCOMMITS +1\nCHANGES 1\nPAGES 0\nCONTROL LOCKS\nLEVEL SERIALIZABLE\n",
    "FORMAT 1\nCOMMITS -1\nCHANGES 1\nPAGES 0\nCONTROL LOCKS\nLEVEL SERIALIZABLE\n",
    "FORMAT 1\nCOMMITS \nCHANGES 1\nPAGES 0\nCONTROL LOCKS\nLEVEL SERIALIZABLE\n",
    "FORMAT 1\nCOMMITS 2\nCHANGES 1\nPAGES 0\nCONTROL LOCKS\nLEVEL SERIALIZABLE\n",
    "FORMAT 1\nCOMMITS 0\nCHANGES 281474976710657\nPAGES 0\nCONTROL LOCKS\nLEVEL SERIALIZABLE\n",
    "FORMAT 1\nCOMMITS 0\nCHANGES 0\nPAGES 1125899906842625\nCONTROL LOCKS\nLEVEL SERIALIZABLE\n",
    "FORMAT 1\nCOMMITS 0\nCHANGES 18446744073709551616\nPAGES 0\nCONTROL LOCKS\nLEVEL SERIALIZABLE\n",
    "FORMAT 1\r\nCOMMITS 0\r\nCHANGES 0\r\nPAGES 0\r\nCONTROL LOCKS\r\nLEVEL SERIALIZABLE\r\n",
    " FORMAT 1\nCOMMITS 0\nCHANGES 0\nPAGES 0\nCONTROL LOCKS\nLEVEL SERIALIZABLE\n",
    "FORMAT 1\nCOMMITS 0\nCHANGES 0\nPAGES 0\n",
    "FORMAT 1\nCOMMITS 0\n",
    "FORMAT 1\nCOMMITS 0 \nCHANGES 0\nPAGES 0\nCONTROL LOCKS\nLEVEL SERIALIZABLE\n",
];

static RIGHT: [(Head, &str); 5] = [
    (
        Head {
            commits: CommitNo(0),
            changes: 0,
            pages: 0,
            control: ControlKind::Locks,
            serializable: false,
        },
        "FORMAT 1\nCOMMITS 0\nCHANGES 0\nPAGES 0\nCONTROL LOCKS\nLEVEL READ COMMITTED\n",
    ),
    (
        Head {
            commits: CommitNo(2),
            changes: 3,
            pages: 0,
            control: ControlKind::MvLocks,
            serializable: true,
        },
        "FORMAT 1\nCOMMITS 2\nCHANGES 3\nPAGES 0\nCONTROL MVLOCKS\nLEVEL SERIALIZABLE\n",
    ),
    (
        Head {
            commits: CommitNo(17),
            changes: 17,
            pages: 9,
            control: ControlKind::Mvcc,
            serializable: false,
        },
        "FORMAT 1\nCOMMITS 17\nCHANGES 17\nPAGES 9\nCONTROL MVCC\nLEVEL READ COMMITTED\n",
    ),
    (
        Head {
            commits: CommitNo(281_474_976_710_656),
            changes: 281_474_976_710_656,
            pages: 1_125_899_906_842_624,
            control: ControlKind::Locks,
            serializable: true,
        },
        "FORMAT 1\nCOMMITS 281474976710656\nCHANGES 281474976710656\nPAGES 1125899906842624\nCONTROL LOCKS\nLEVEL SERIALIZABLE\n",
    ),
    (
        Head {
            commits: CommitNo(0),
            changes: 10,
            pages: 1,
            control: ControlKind::Locks,
            serializable: false,
        },
        "FORMAT 1\nCOMMITS 0\nCHANGES 10\nPAGES 1\nCONTROL LOCKS\nLEVEL READ COMMITTED\n",
    ),
];

/// Whether a head is written so, and read back.
fn agrees(alloc: Global, head: &Head, text: &str) -> Result<bool, Fail> {
    let mut out = Chars::new(alloc);
    print_head(head, &mut out)?;
    Ok(out.as_str() == text && head.is_lawful() && read_head(text) == Some(*head))
}

#[test]
fn heads_are_written_and_read(rt: HostRuntime) -> Result<(), Fail> {
    for (head, text) in &RIGHT {
        assert!(rt; agrees(rt.alloc(), head, text)?, "{text}");
    }
    Ok(())
}

#[test]
fn what_is_no_head_is_not_read(rt: HostRuntime) {
    for text in &WRONG {
        assert!(rt; read_head(text).is_none(), "{text}");
    }
}
