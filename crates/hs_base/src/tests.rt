// What no clause says: that the numbers order as they are, and that each call can be made.
use crate::{
    CommitNo, ConstraintNo, NoMemory, PageNo, RowName, RowNames, RowNo, RowNos, SessionNo, Steps,
    StoreStop, TableNo, Tables,
};
use std::alloc::AllocError;
use std::test::Fail;

// What the steps of the tests are.
#[derive(Drop)]
struct Looks;

#[test]
fn numbers_order(rt: HostRuntime) {
    assert!(rt; RowNo(2) < RowNo(10));
    assert!(rt; CommitNo(0) < CommitNo(1));
    assert!(rt; TableNo(7) == TableNo(7) && TableNo(7) != TableNo(8));
    assert_eq!(rt; ConstraintNo(1).max(ConstraintNo(3)), ConstraintNo(3));
    assert_eq!(rt; PageNo(u64::MAX), PageNo(u64::MAX));
    assert_eq!(rt; SessionNo(64).min(SessionNo(1)), SessionNo(1));
}

#[test]
fn steps_are_counted(rt: HostRuntime) -> Result<(), Fail> {
    let alloc = rt.alloc();
    let mut steps: Steps<Looks> = Steps::new();
    assert_eq!(rt; steps.count(), 0);
    steps.tick();
    steps.tick();
    assert_eq!(rt; steps.count(), 2);
    assert_eq!(rt; NoMemory::from(AllocError), NoMemory);
    assert_eq!(rt; format!(in alloc; "{:?}", RowNo(5))?.as_str(), "RowNo(5)");
    Ok(())
}

fn name(table: u64, row: u64) -> RowName {
    RowName {
        table: TableNo(table),
        row: RowNo(row),
    }
}

#[test]
fn tables_are_listed(rt: HostRuntime) -> Result<(), Fail> {
    let mut tables = Tables::new(rt.alloc());
    assert!(rt; tables.is_empty());
    tables.push(TableNo(3))?;
    tables.push(TableNo(1))?;
    assert_eq!(rt; tables.len(), 2);
    assert!(rt; tables.contains(TableNo(1)) && !tables.contains(TableNo(2)));
    assert_eq!(rt;
        tables.copy()?.as_slice(),
        [TableNo(3), TableNo(1)].as_slice()
    );
    assert_eq!(rt; Tables::from_vec(tables.into_vec()).len(), 2);
    Ok(())
}

#[test]
fn rows_are_listed(rt: HostRuntime) -> Result<(), Fail> {
    let mut rows = RowNos::new(rt.alloc());
    assert!(rt; rows.is_empty());
    rows.push(RowNo(7))?;
    rows.push(RowNo(u64::MAX))?;
    assert_eq!(rt; rows.len(), 2);
    assert!(rt; rows.contains(RowNo(7)) && !rows.contains(RowNo(8)));
    assert_eq!(rt;
        rows.copy()?.as_slice(),
        [RowNo(7), RowNo(u64::MAX)].as_slice()
    );
    assert_eq!(rt; RowNos::from_vec(rows.into_vec()).len(), 2);
    Ok(())
}

#[test]
fn row_names_are_listed(rt: HostRuntime) -> Result<(), Fail> {
    let mut rows = RowNames::new(rt.alloc());
    assert!(rt; rows.is_empty());
    rows.push(name(1, 2))?;
    rows.push(name(2, 1))?;
    assert!(rt; name(1, 2) < name(2, 1) && name(2, 1) < name(2, 3));
    assert_eq!(rt; rows.len(), 2);
    assert!(rt; rows.contains(name(2, 1)) && !rows.contains(name(1, 1)));
    assert_eq!(rt;
        rows.copy()?.as_slice(),
        [name(1, 2), name(2, 1)].as_slice()
    );
    assert_eq!(rt; RowNames::from_vec(rows.into_vec()).len(), 2);
    Ok(())
}

#[test]
fn a_store_stops_for_want_of_memory(rt: HostRuntime) {
    assert_eq!(rt; StoreStop::from(NoMemory), StoreStop::NoMemory);
    assert_eq!(rt; StoreStop::from(AllocError), StoreStop::NoMemory);
    assert!(rt; StoreStop::Damaged(PageNo(1)) != StoreStop::Disk);
}
