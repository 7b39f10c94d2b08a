// A run over a host on which nothing fails.
use crate::tests::support::words;
use hs_memhost::{Images, NeverFails};
use hs_top::Status;
use hs_values::Bytes;
use std::test::Fail;

#[test]
fn nothing_fails(rt: HostRuntime) -> Result<(), Fail> {
    let alloc = rt.alloc();
    let words = words(alloc, &["hsql", "db"])?;
    let mut never = NeverFails::new(alloc, Bytes::new(alloc), Images::new(alloc));
    let status = crate::run_where_nothing_fails(alloc, &words, &mut never);
    assert_eq!(rt; status, Status::Done);
    assert_eq!(rt; never.output(), b"opened at 0\nclosed at 0\n".as_slice());
    Ok(())
}
