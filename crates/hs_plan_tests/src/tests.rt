// The rules of kinds by examples, the order of faults, and that each call can be made.
use hs_base::{RowNo, TableNo, Tables};
use hs_plan::{
    Aggregate, Binary, BinaryOperator, BindFault, Cause, Change, Changes, Expr, FromItem, Kind,
    PlacedFault, Plan, Query, QueryBody, Select, Source, Ternary, Unary, Which, aggregate_kind,
    are_comparable, is_assignable, is_condition, kind_of_type, named_in_plan, widest,
};
use hs_values::{Name, SqlType, Value};
use sqlite_items::{Boxed, Items};
use std::alloc::{AllocError, Global};
use std::test::Fail;

#[test]
fn kinds_follow_the_rules(rt: HostRuntime) {
    let times = Binary::Operator(BinaryOperator::Multiply);
    assert_eq!(rt;
        times.kind(Kind::Decimal(20), Kind::Decimal(18)),
        Some(Kind::Decimal(38))
    );
    assert_eq!(rt;
        times.kind(Kind::Decimal(20), Kind::Decimal(19)),
        Some(Kind::TooWide)
    );
    let plus = Binary::Operator(BinaryOperator::Add);
    assert_eq!(rt;
        plus.kind(Kind::Whole, Kind::Decimal(2)),
        Some(Kind::Decimal(2))
    );
    assert_eq!(rt; plus.kind(Kind::Whole, Kind::Text), None);
    assert_eq!(rt; Unary::Minus.kind(Kind::Null), Some(Kind::Whole));
    assert_eq!(rt; Unary::Not.kind(Kind::Whole), None);
    let between = Ternary::Between {
        negated: false,
        low: None,
        high: None,
    };
    assert_eq!(rt; between.kind(Kind::Date, Kind::Date, Kind::Timestamp), None);
    assert_eq!(rt; aggregate_kind(Aggregate::Sum, Kind::Text), None);
    assert_eq!(rt; widest(Kind::Null, Kind::Date), Some(Kind::Date));
    assert!(rt; !are_comparable(Kind::Boolean, Kind::Whole) && is_condition(Kind::Null));
    assert!(rt; is_assignable(&SqlType::Small, Kind::Decimal(2)));
    assert_eq!(rt; kind_of_type(&SqlType::Varchar { max: 3 }), Kind::Text);
}

#[test]
fn faults_have_an_order(rt: HostRuntime) -> Result<(), Fail> {
    let missing = PlacedFault {
        at: 9,
        cause: Cause::NoSuchColumn(Name::from_text(rt.alloc(), "C")?),
    };
    let wrong = PlacedFault {
        at: 3,
        cause: Cause::Types,
    };
    let limit = PlacedFault {
        at: 0,
        cause: Cause::Limit(Which::Columns),
    };
    assert!(rt; missing.is_before(&wrong) && !wrong.is_before(&missing));
    assert!(rt; wrong.is_before(&limit) && !wrong.is_before(&wrong));
    assert!(rt; matches!(&missing.into_fault(), BindFault::NoSuch(name) if name.as_str() == "C"));
    assert!(rt; matches!(&wrong.into_fault(), BindFault::Types(3)));
    Ok(())
}

// SELECT 1 FROM the table of this number
fn query_of(alloc: Global, table: u64) -> Result<Query, AllocError> {
    let mut items = Items::new(alloc);
    items.push(Expr::Literal(Value::Int(1)))?;
    let mut from = Items::new(alloc);
    from.push(FromItem {
        source: Source::Table {
            table: TableNo(table),
            width: 1,
        },
        joins: Items::new(alloc),
    })?;
    let select = Select {
        distinct: false,
        items,
        from,
        filter: None,
        grouped: false,
        group_by: Items::new(alloc),
        having: None,
    };
    Ok(Query {
        body: QueryBody::Select(Boxed::new(alloc, select)?),
        order_by: Items::new(alloc),
        limit: None,
    })
}

#[test]
fn tables_are_named_and_trees_copied(rt: HostRuntime) -> Result<(), Fail> {
    let alloc = rt.alloc();
    let plan = Plan::Query(query_of(alloc, 7)?.copy(alloc)?);
    let mut named = Tables::new(alloc);
    named_in_plan(&plan, &mut named)?;
    assert_eq!(rt; named.as_slice(), [TableNo(7)].as_slice());
    let mut changes = Changes::new(alloc);
    assert!(rt; changes.is_empty());
    changes.push(Change::Delete(TableNo(7), RowNo(1)))?;
    assert_eq!(rt; changes.copy()?.len(), 1);
    assert_eq!(rt; Changes::from_vec(changes.into_vec()).as_slice().len(), 1);
    Ok(())
}
