//! Values that no bytes spell, and values that some do.

use class_format::{ABSTRACT, ClassFile, FieldItem, MethodItem, well_formed};
use jvm_base::{List, NoMemory, Pool, PoolItem, Units};
use std::alloc::Global;
use std::test::Fail;

/// The names and descriptors of some members.
type Keys<'a> = &'a [(u16, u16)];

/// A class of that pool, beside which it names itself by item 2.
fn class(alloc: Global, pool: Pool, fields: Keys, methods: Keys) -> Result<ClassFile, NoMemory> {
    let mut class = ClassFile {
        minor: 0,
        major: 45,
        pool,
        flags: 0,
        this_class: 2,
        super_class: 0,
        interfaces: List::new(alloc),
        fields: List::new(alloc),
        methods: List::new(alloc),
    };
    for (name, desc) in fields {
        class.fields.push(FieldItem {
            flags: 0,
            name: *name,
            desc: *desc,
            constant: None,
        })?;
    }
    for (name, desc) in methods {
        class.methods.push(MethodItem {
            flags: ABSTRACT,
            name: *name,
            desc: *desc,
            code: None,
        })?;
    }
    Ok(class)
}

/// 1: `A`, 2: the class `A`, 3: `I`, 4: `I`, 5: `J`, 6: `()V`, 7: `f`, 8: `f`.
fn pool(alloc: Global) -> Result<Pool, NoMemory> {
    let mut pool = Pool::new(alloc)?;
    let texts: [&[u16]; 7] = [&[65], &[73], &[73], &[74], &[40, 41, 86], &[102], &[102]];
    for text in texts {
        pool.push(PoolItem::Utf8(Units::from_slice(alloc, text)?))?;
        if pool.len() == 2 {
            pool.push(PoolItem::Class(1))?;
        }
    }
    Ok(pool)
}

#[test]
fn tells_members_apart(rt: HostRuntime) -> Result<(), Fail> {
    let cases: [(Keys, Keys, bool); 11] = [
        (&[], &[], true),
        (&[(7, 3)], &[(7, 6)], true),
        (&[(7, 3), (7, 3)], &[], false),
        (&[(7, 3), (8, 4)], &[], false),
        (&[(7, 3), (8, 5)], &[], true),
        (&[(7, 3), (1, 4), (8, 4)], &[], false),
        (&[(7, 3), (1, 4)], &[(7, 6), (1, 6)], true),
        (&[], &[(7, 6), (1, 6), (8, 6)], false),
        (&[(7, 6)], &[], false),
        (&[], &[(7, 3)], false),
        (&[(0, 3)], &[], false),
    ];
    for (fields, methods, want) in cases {
        let class = class(rt.alloc(), pool(rt.alloc())?, fields, methods)?;
        assert_eq!(rt; well_formed(&class), want);
    }
    Ok(())
}

#[test]
fn refuses_what_no_bytes_spell(rt: HostRuntime) -> Result<(), Fail> {
    let last = [
        (PoolItem::Text(8), true),
        (PoolItem::Text(2), false),
        (PoolItem::Text(9), false),
        (PoolItem::Integer(-1), true),
        (PoolItem::Gap, false),
        (PoolItem::Long(1), false),
        (PoolItem::NameAndKind { name: 7, desc: 2 }, false),
    ];
    for (item, want) in last {
        let mut pool = pool(rt.alloc())?;
        pool.push(item)?;
        let class = class(rt.alloc(), pool, &[], &[])?;
        assert_eq!(rt; well_formed(&class), want);
    }
    Ok(())
}
