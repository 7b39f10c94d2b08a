// What an index tells is what the rows tell.
ghost use Rattle.std.specs.Prelude.{◌<◌};

use hs_base::{NoMemory, RowNo};
use hs_keyed::{Carries, CarriesToo, KeyedRows};
use hs_values::{Chars, Dec, Row, Value};
use std::alloc::{AllocError, Global};
use std::test::Fail;

// A fixed generator.
#[derive(Drop)]
struct Random {
    x: u64,
}

impl Random {
    fn below(&mut self, n: u64) -> u64
        requires { 0 < n }
    {
        self.x = self.x.wrapping_mul(1_103_515_245).wrapping_add(12_345) % 2_147_483_648;
        (self.x / 65_536) % n
    }

    // NULL, a text or a small number, of which 2 comes as 2.0 too.
    fn value(&mut self, alloc: Global) -> Result<Value, AllocError> {
        match self.below(6) {
            0 => Ok(Value::Null),
            1 => Ok(Value::Text(Chars::from_text(alloc, "2")?)),
            2 => Ok(Value::Dec(Dec {
                units: 20,
                scale: 1,
            })),
            3 => Ok(Value::Int(1)),
            _ => Ok(Value::Int(2)),
        }
    }

    fn row(&mut self, alloc: Global) -> Result<Row, AllocError> {
        let mut row = Row::new(alloc);
        row.push(self.value(alloc)?)?;
        row.push(self.value(alloc)?)?;
        Ok(row)
    }
}

// The same rows with indexes and without.
#[derive(Drop)]
struct Both {
    keyed: KeyedRows,
    bare: KeyedRows,
}

impl Both {
    // A random change, some of which take a row out or give it another number.
    fn change(&mut self, alloc: Global, random: &mut Random) -> Result<(), NoMemory> {
        let row = RowNo(random.below(12));
        let to = RowNo(random.below(12));
        if random.below(4) == 0 && self.bare.get(to).is_none() {
            self.keyed.renumber(row, to)?;
            return self.bare.renumber(row, to);
        }
        if random.below(3) == 0 {
            self.keyed.take(row)?;
            return self.bare.take(row);
        }
        let values = random.row(alloc)?;
        self.keyed.put(row, values.copy()?)?;
        self.bare.put(row, values)
    }

    // Whether both find the same rows of a key.
    fn agree(&self, columns: &[u32], key: &Row, number: RowNo) -> Result<bool, NoMemory> {
        let found = self.keyed.rows_with(columns, key)?;
        let other = self.keyed.has_other(columns, key, number)?;
        let too = CarriesToo {
            columns,
            key,
            number,
        };
        Ok(
            found.as_slice() == self.bare.rows_with(columns, key)?.as_slice()
                && self.keyed.has_key(columns, key)? != found.is_empty()
                && self.bare.any(&Carries { columns, key })? != found.is_empty()
                && self.bare.has_other(columns, key, number)? == other
                && self.bare.any(&too)? == other,
        )
    }
}

#[test]
fn an_index_tells_what_the_rows_tell(rt: HostRuntime) -> Result<(), Fail> {
    let alloc = rt.alloc();
    let mut random = Random { x: 1 };
    let mut both = Both {
        keyed: KeyedRows::new(alloc),
        bare: KeyedRows::new(alloc),
    };
    both.keyed.add_index(&[0])?;
    for turn in 0..3_000_u32 {
        if turn == 500 {
            both.keyed.add_index(&[1, 0])?;
        }
        both.change(alloc, &mut random)?;
        let number = RowNo(random.below(12));
        let pair = random.row(alloc)?;
        let mut one = Row::new(alloc);
        one.push(random.value(alloc)?)?;
        assert!(rt; both.agree(&[0], &one, number)? && both.agree(&[1, 0], &pair, number)?);
    }
    Ok(())
}

fn put_copy(rows: &mut KeyedRows, row: u64, values: &Row) -> Result<(), NoMemory> {
    let copied = values.copy()?;
    rows.put(RowNo(row), copied)
}

#[test]
fn rows_are_put_and_taken(rt: HostRuntime) -> Result<(), Fail> {
    let alloc = rt.alloc();
    let mut rows = KeyedRows::new(alloc);
    let mut one = Row::new(alloc);
    one.push(Value::Int(1))?;
    let mut none = Row::new(rows.alloc());
    none.push(Value::Null)?;
    put_copy(&mut rows, 7, &one)?;
    put_copy(&mut rows, 3, &none)?;
    put_copy(&mut rows, 5, &one)?;
    let found = rows.rows_with(&[0], &one)?;
    assert_eq!(rt; found.as_slice(), [RowNo(5), RowNo(7)].as_slice());
    assert!(rt; rows.rows_with(&[0], &none)?.is_empty());
    rows.put(RowNo(7), none)?;
    rows.take(RowNo(5))?;
    rows.take(RowNo(6))?;
    assert!(rt; !rows.has_key(&[0], &one)?);
    assert!(rt; rows.get(RowNo(7)).is_some() && rows.get(RowNo(5)).is_none());
    Ok(())
}

#[test]
fn a_row_gets_another_number(rt: HostRuntime) -> Result<(), Fail> {
    let alloc = rt.alloc();
    let mut rows = KeyedRows::new(alloc);
    let mut one = Row::new(alloc);
    one.push(Value::Int(1))?;
    rows.add_index(&[0])?;
    for row in [9, 3, 5] {
        put_copy(&mut rows, row, &one)?;
    }
    rows.renumber(RowNo(9), RowNo(4))?;
    rows.renumber(RowNo(8), RowNo(2))?;
    let found = rows.rows_with(&[0], &one)?;
    assert_eq!(rt; found.as_slice(), [RowNo(3), RowNo(4), RowNo(5)].as_slice());
    assert!(rt; rows.get(RowNo(9)).is_none() && rows.get(RowNo(4)).is_some());
    rows.renumber(RowNo(3), RowNo(5))?;
    let found = rows.rows_with(&[0], &one)?;
    assert_eq!(rt; found.as_slice(), [RowNo(4), RowNo(5)].as_slice());
    Ok(())
}

#[test]
fn rows_come_in_the_order_of_their_numbers(rt: HostRuntime) -> Result<(), Fail> {
    let alloc = rt.alloc();
    let mut rows = KeyedRows::new(alloc);
    let mut one = Row::new(alloc);
    one.push(Value::Int(1))?;
    for row in [9, 3, 5] {
        put_copy(&mut rows, row, &one)?;
    }
    let copied = rows.copy(alloc)?;
    rows.take(RowNo(5))?;
    assert_eq!(rt; rows.row_behind(None), Some(RowNo(3)));
    assert_eq!(rt; rows.row_behind(Some(RowNo(3))), Some(RowNo(9)));
    assert_eq!(rt; rows.row_behind(Some(RowNo(9))), None);
    assert_eq!(rt; copied.row_behind(Some(RowNo(4))), Some(RowNo(5)));
    Ok(())
}

// The columns of the first index among these, none where there is none.
fn columns_among<'a>(rows: &'a KeyedRows, columns: &[u32]) -> &'a [u32] {
    rows.index_among(columns).unwrap_or(&[])
}

#[test]
fn the_first_index_among_columns_is_told(rt: HostRuntime) -> Result<(), Fail> {
    let mut rows = KeyedRows::new(rt.alloc());
    rows.add_index(&[3, 0])?;
    rows.add_index(&[2])?;
    rows.add_index(&[0])?;
    assert_eq!(rt; columns_among(&rows, &[0, 1, 3]), [3, 0].as_slice());
    assert_eq!(rt; columns_among(&rows, &[2, 0]), [2].as_slice());
    assert_eq!(rt; columns_among(&rows, &[0, 1]), [0].as_slice());
    assert!(rt; rows.index_among(&[1, 3]).is_none());
    Ok(())
}
