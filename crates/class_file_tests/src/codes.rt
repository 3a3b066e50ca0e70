//! Methods with code.

use crate::rows::{answer, push_given, start, wrong_behind};
use std::alloc::{AllocError, Global};
use std::test::Fail;

/// The only attribute of the only method: its name at 1020, its length at 1022, max_stack at 1026.
const CONTENTS: &str = "\
C -> ok
# the length of the attribute
0006 0000 000d 0001 0001 0000 0002 00b1 0000 0000 -> attribute length 1022
0006 0000 000f 0001 0001 0000 0002 00b1 0000 0000 -> attribute length 1022
0006 0000 0000 0001 0001 0000 0002 00b1 0000 0000 -> attribute length 1022
0006 0001 000e 0001 0001 0000 0002 00b1 0000 0000 -> attribute length 1022
0006 ffff ffff 0001 0001 0000 0002 00b1 0000 0000 -> attribute length 1022
# the length of the code; its bytes are asked for next
0006 0000 000c 0001 0001 0000 0000 0000 0000 -> code length 0
0006 0000 0009 0001 0001 0000 0000 0000 0000 -> code length 0
0006 0000 000c 0001 0001 0001 0000 0000 0000 -> code length 0
0006 0000 000c 0001 0001 ffff ffff 0000 0000 -> code length 0
0006 0000 000c 0001 0001 0000 ffff 0000 0000 -> cut 1040
# the class of a table entry at 1044 or 1052, which may be 0
0006 0000 0016 0001 0001 0000 0002 00b1 0001 0000 0002 0000 0000 0000 -> ok
0006 0000 0016 0001 0001 0000 0002 00b1 0001 0009 0008 0007 0002 0000 -> ok
0006 0000 0016 0001 0001 0000 0002 00b1 0001 0000 0002 0000 0001 0000 -> item link 1044
0006 0000 0016 0001 0001 0000 0002 00b1 0001 0000 0002 0000 0020 0000 -> item link 1044
0006 0000 001e 0001 0001 0000 0002 00b1 0002 0000 0002 0000 0000 0000 0002 0000 0002 0000 -> ok
0006 0000001e0001 000100000002 00b100020000 000200000002 000000020000 00090000 -> item link 1052
0006 0000 000e 0001 0001 0000 0002 00b1 0001 0000 0002 0000 0000 0000 -> attribute length 1022
0006 0000 0063 0001 0001 0000 0002 00b1 0001 0000 0002 0000 0001 0000 -> item link 1044
# attributes of the code, none of which is read
0006 0000 0014 0001 0001 0000 0002 00b1 0000 0001 0009 0000 0000 -> ok
0006 0000 0016 0001 0001 0000 0002 00b1 0000 0001 0006 0000 0002 0007 -> ok
0006 0000 0014 0001 0001 0000 0002 00b1 0000 0001 0000 0000 0000 -> item link 1040
0006 0000 0014 0001 0001 0000 0002 00b1 0000 0001 0002 0000 0000 -> item link 1040
0006 0000 0014 0001 0001 0000 0002 00b1 0000 0001 0009 0000 0009 -> cut 1048
0006 0000 000e 0001 0001 0000 0002 00b1 0000 0001 0009 0000 0000 -> attribute length 1022
# what isn't named Code is skipped
0007 0000 000e 0001 0001 0000 0002 00b1 0000 0000 -> code count 0
0002 0000 000e 0001 0001 0000 0002 00b1 0000 0000 -> item link 1020
";

/// The count of methods, and methods with their codes.
const COUNTS: &str = "\
# a method that is neither native nor abstract has one
0001 0001 0009 0005 0000 -> code count 0
0001 0001 0009 0005 0001 C -> ok
0001 0001 0009 0005 0002 C C -> code count 0
0001 0001 0009 0005 0003 C C C -> code count 0
0001 0008 0008 0005 0000 -> code count 0
0001 fac1 0009 0005 0001 C -> ok
# a native or abstract one has none
0001 0101 0009 0005 0000 -> ok
0001 0101 0009 0005 0001 C -> code count 0
0001 0401 0009 0005 0000 -> ok
0001 0401 0009 0005 0001 C -> code count 0
# other attributes don't count
0001 0001 0009 0005 0002 0009 0000 0002 0006 C -> ok
0001 0001 0009 0005 0002 C 0007 0000 0000 -> ok
0001 0001 0009 0005 0001 0007 0000 0002 000a -> code count 0
0001 0101 0009 0005 0001 0007 0000 0000 -> ok
0001 0001 0009 0005 0002 C 0000 0000 0000 -> item link 1040
# each method has its own
0002 0001 0009 0005 0001 C 0001 0001 0005 0001 C -> ok
0002 0001 0009 0005 0000 0001 0001 0005 0001 C -> code count 0
0002 0001 0009 0005 0001 C 0001 0001 0005 0000 -> code count 1
0002 0001 0009 0005 0002 C C 0001 0001 0005 0000 -> code count 0
0003 0100 0009 0005 0000 0400 0001 0005 0000 0001 0004 0005 0000 -> code count 2
0002 010000090005 000000010001 000500010006 0000000c0001 000100000000 00000000 -> code length 1
# each of several is read
0001 0001 0009 0005 0002 C 0006 0000 000c 0001 0001 0000 0000 0000 0000 -> code length 0
0001 000100090005 0002C0006 0000000f0001 000100000002 00b100000000 -> attribute length 1042
0001 0101 0009 0005 0001 0006 0000 000c 0001 0001 0000 0000 0000 0000 -> code length 0
";

#[test]
fn contents_and_counts(rt: HostRuntime) -> Result<(), Fail> {
    let before = "0021 0002 0000 0000 0000 0001 0001 0009 0005 0001";
    assert_eq!(rt; wrong_behind(rt.alloc(), before, CONTENTS, "0000")?, None);
    let before = "0021 0002 0000 0000 0000";
    assert_eq!(rt; wrong_behind(rt.alloc(), before, COUNTS, "0000")?, None);
    Ok(())
}

/// A method whose code is these bytes, with these lengths of the code and of its attribute.
fn with_code(alloc: Global, code: &[u8], len: u32, attribute: u32) -> Result<Vec<u8>, AllocError> {
    let mut bytes = start(alloc)?;
    push_given(
        &mut bytes,
        "0021 0002 0000 0000 0000 0001 0001 0009 0005 0001 0006",
    )?;
    bytes.extend_from_slice(&attribute.to_be_bytes())?;
    push_given(&mut bytes, "0001 0001")?;
    bytes.extend_from_slice(&len.to_be_bytes())?;
    bytes.extend_from_slice(code)?;
    push_given(&mut bytes, "0000 0000 0000")?;
    Ok(bytes)
}

#[test]
fn lengths(rt: HostRuntime) -> Result<(), Fail> {
    let cases = [
        (0, 0, 12, "code length 0"),
        (1, 1, 13, "ok"),
        (1, 1, 12, "attribute length 1022"),
        (1, 1, 14, "attribute length 1022"),
        (65534, 65534, 65546, "ok"),
        (65535, 65535, 65547, "ok"),
        (65535, 65535, 65546, "attribute length 1022"),
        (65535, 65536, 65547, "code length 0"),
        (65536, 65536, 65548, "code length 0"),
    ];
    let room = vec![in rt.alloc(); 0u8; 65536]?;
    for (size, len, attribute, want) in cases {
        if let Some(code) = room.as_slice().get(..size) {
            let bytes = with_code(rt.alloc(), code, len, attribute)?;
            let got = answer(rt.alloc(), bytes.as_slice())?;
            assert_eq!(rt; got.as_str(), want, "{size} {len} {attribute}");
        }
    }
    Ok(())
}
