//! Whole class files.

use crate::rows::{answer, push_given, start, wrong_row};
use class_file::{ClassErr, read_class, well_formed};
use class_write::write_class;
use std::alloc::Global;
use std::test::Fail;

/// `public class A`, version 46.0, whose `main` prints 2 + 3.
const A: &[u8] = b"\
\xca\xfe\xba\xbe\0\0\0.\0\x14\x01\0\x01A\x07\0\x01\x01\0\x10java/lang/Object\x07\0\x03\x01\
\0\x04main\x01\0\x16([Ljava/lang/String;)V\x01\0\x04Code\x01\0\x10java/lang/System\x07\0\
\x08\x01\0\x03out\x01\0\x15Ljava/io/PrintStream;\x0c\0\x0a\0\x0b\x09\0\x09\0\x0c\x01\0\x13\
java/io/PrintStream\x07\0\x0e\x01\0\x07println\x01\0\x04(I)V\x0c\0\x10\0\x11\x0a\0\x0f\0\
\x12\0!\0\x02\0\x04\0\0\0\0\0\x01\0\x09\0\x05\0\x06\0\x01\0\x07\0\0\0\x16\0\x03\0\x01\0\0\
\0\x0a\xb2\0\x0d\x05\x06`\xb6\0\x13\xb1\0\0\0\0\0\0";

/// `public class B` with a `static final int N = 7`.
const B: &[u8] = b"\
\xca\xfe\xba\xbe\0\0\0.\0\x09\x01\0\x01B\x07\0\x01\x01\0\x10java/lang/Object\x07\0\x03\x01\
\0\x01N\x01\0\x01I\x01\0\x0dConstantValue\x03\0\0\0\x07\0!\0\x02\0\x04\0\0\0\x01\0\x18\0\
\x05\0\x06\0\x01\0\x07\0\0\0\x02\0\x08\0\0\0\0";

#[test]
fn a_class_is_read_and_written(rt: HostRuntime) -> Result<(), Fail> {
    let class = read_class(rt.alloc(), A)?;
    assert_eq!(rt; class.pool.len(), 20);
    assert_eq!(rt; (class.this_class, class.super_class), (2, 4));
    let method = class.methods.get(0);
    let heads = method.map(|method| (method.flags, method.name, method.desc));
    assert_eq!(rt; heads, Some((9, 5, 6)));
    let code = method.and_then(|method| method.code.as_ref());
    let sizes = code.map(|code| (code.max_stack, code.max_locals, code.code.len()));
    assert_eq!(rt; sizes, Some((3, 1, 10)));
    for bytes in [A, B] {
        let class = read_class(rt.alloc(), bytes)?;
        assert!(rt; well_formed(&class));
        assert_eq!(rt; write_class(rt.alloc(), &class)?.as_slice(), bytes);
    }
    Ok(())
}

fn refusal(alloc: Global, bytes: &[u8]) -> Option<ClassErr> {
    read_class(alloc, bytes).err()
}

/// Behind the pool: an interface, a field with its constant, a method with code that has a table
/// entry and an attribute, and an attribute of the class.
const FULL: &str = "\
0021 0002 0002 0001 0002 0001 0008 0009 0004 0001 0007 00000002 000a
0001 0001 0009 0005 0001 0006 0000001c 0001 0001 00000002 00b1 0001 0000 0002 0000 0002
0001 0009 00000000 0001 0009 00000000";

/// A file that is cut anywhere is refused by its length.
#[test]
fn cuts(rt: HostRuntime) -> Result<(), Fail> {
    let mut full = start(rt.alloc())?;
    push_given(&mut full, FULL)?;
    assert_eq!(rt; full.len(), 1080);
    for bytes in [A, full.as_slice()] {
        assert_eq!(rt; refusal(rt.alloc(), bytes), None);
        for len in 0..bytes.len() {
            let got = refusal(rt.alloc(), &bytes[..len]);
            assert_eq!(rt; got, Some(ClassErr::Cut(len as u64)), "at {len}");
        }
    }
    Ok(())
}

/// A byte of A, what it is changed to, and the answer.
const CHANGES: [(usize, u8, &str); 18] = [
    (1, 0xff, "magic"),
    (7, 0x31, "version 49.0"),
    (5, 0x01, "version 46.1"),
    (10, 0x02, "pool tag 1"),
    (13, 0x00, "pool text 1"),
    (16, 0x02, "pool link 2"),
    (193, 0x23, "flags 192"),
    (195, 0x01, "item link 194"),
    (197, 0x00, "ok"),
    (197, 0x01, "item link 196"),
    (207, 0x02, "item link 206"),
    (209, 0x05, "item link 208"),
    (204, 0x04, "flags 204"),
    (213, 0x05, "code count 0"),
    (213, 0x02, "item link 212"),
    (217, 0x15, "attribute length 214"),
    (225, 0x00, "code length 0"),
    (241, 0x01, "cut 242"),
];

#[test]
fn changed_bytes(rt: HostRuntime) -> Result<(), Fail> {
    for (at, byte, want) in CHANGES {
        let mut bytes = Vec::new(rt.alloc());
        bytes.extend_from_slice(A)?;
        if let Some(changed) = bytes.as_mut_slice().get_mut(at) {
            *changed = byte;
        }
        let got = answer(rt.alloc(), bytes.as_slice())?;
        assert_eq!(rt; got.as_str(), want, "at {at}");
    }
    let more = " -> ok\n00 -> extra 242";
    assert_eq!(rt; wrong_row(rt.alloc(), A, more, "")?, None);
    Ok(())
}

/// The magic, the minor and the major version, before a pool and a class of it.
const VERSIONS: &str = "\
cafebabe 0000 002e -> ok
cbfebabe 0000 002e -> magic
caffbabe 0000 002e -> magic
cafebbbe 0000 002e -> magic
cafebabf 0000 002e -> magic
bebafeca 0000 002e -> magic
# before the version
00000000 0000 0000 -> magic
cafebabf 0000 0031 -> magic
# 44, 45 with any minor version, 46 to 48 with none, 49
cafebabe 0000 002c -> version 44.0
cafebabe ffff 002c -> version 44.65535
cafebabe 0000 002d -> ok
cafebabe 0003 002d -> ok
cafebabe ffff 002d -> ok
cafebabe 0001 002e -> version 46.1
cafebabe 0000 002f -> ok
cafebabe ffff 002f -> version 47.65535
cafebabe 0000 0030 -> ok
cafebabe 0001 0030 -> version 48.1
cafebabe 0000 0031 -> version 49.0
cafebabe 0000 0000 -> version 0.0
cafebabe 002e 0000 -> version 0.46
cafebabe 0000 ffff -> version 65535.0
cafebabe 0000 012e -> version 302.0
";

/// Files of a few bytes.
const STARTS: &str = " -> cut 0
'x' -> cut 1
'xyz' -> cut 3
'wxyz' -> magic
cafebabe -> cut 4
cafebabe 000100 -> cut 7
cafebabe 0001002e -> version 46.1
";

#[test]
fn versions(rt: HostRuntime) -> Result<(), Fail> {
    assert_eq!(rt; wrong_row(rt.alloc(), b"", STARTS, "")?, None);
    let rest = "0003 010001'A' 070001 0021 0002 0000 0000 0000 0000 0000";
    assert_eq!(rt; wrong_row(rt.alloc(), b"", VERSIONS, rest)?, None);
    Ok(())
}
