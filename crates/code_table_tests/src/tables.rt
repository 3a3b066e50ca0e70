//! Which entries an exception table may have (JVMS2 4.7.3).

use crate::fixture::{decoded, pool};
use code_table::CodeErr;
use jvm_base::TableItem;
use std::test::Fail;

fn entry(start: u16, end: u16, handler: u16) -> TableItem {
    TableItem {
        start,
        end,
        handler,
        class: 0,
    }
}

/// Behind an entry that is good, over an instruction of two bytes and one of one.
#[test]
fn exception_tables(rt: HostRuntime) -> Result<(), Fail> {
    let pool = pool(rt.alloc())?;
    let cases = [
        (0, 2, 0, true),
        (0, 3, 2, true),
        (0, 0, 0, false),
        (0, 1, 0, false),
        (1, 3, 0, false),
        (0, 2, 3, false),
        (2, 0, 0, false),
        (0, 4, 0, false),
    ];
    for (start, end, handler, good) in cases {
        let table = [entry(0, 3, 0), entry(start, end, handler)];
        let code = decoded(rt.alloc(), &pool, &[16, 1, 0], &table);
        let count = code.map(|code| (code.ops.len(), code.table.len()));
        let want = if good {
            Ok((2, 2))
        } else {
            Err(CodeErr::BadTable(1))
        };
        assert_eq!(rt; count, want, "{start} {end} {handler}");
    }
    Ok(())
}
