//! The constant pool: tags, texts and links.

use crate::rows::{LONGS, answer, push_given, wrong_row};
use std::alloc::{AllocError, Global};
use std::test::Fail;

/// Version 46.0.
const VERSION: &str = "cafebabe 0000 002e";

/// Behind a pool: the public class at index 2 with nothing in it.
const PLAIN: &str = "0021 0002 0000 0000 0000 0000 0000";

/// The first row that isn't answered as it says: the count of a pool, and the items behind these.
fn wrong_pool<'a>(
    alloc: Global,
    items: &str,
    table: &'a str,
) -> Result<Option<&'a str>, AllocError> {
    for row in table.lines() {
        if let Some((given, want)) = row.split_once(" -> ") {
            let (count, more) = given.split_once(' ').unwrap_or((given, ""));
            let mut bytes = Vec::new(alloc);
            for part in [VERSION, count, items, more, PLAIN] {
                push_given(&mut bytes, part)?;
            }
            if answer(alloc, bytes.as_slice())?.as_str() != want {
                return Ok(Some(row));
            }
        }
    }
    Ok(None)
}

/// A text and a class of that name, at 1 and 2.
const CLASS: &str = "010001'A' 070001";

/// Items from index 3 on.
const TAGS: &str = "\
0003 -> ok
0004 0000000000 -> pool tag 3
0004 0200000000 -> pool tag 3
0004 0d00010001 -> pool tag 3
0004 ff00000000 -> pool tag 3
0004 010000 -> ok
0004 03ffffffff -> ok
0004 04ffffffff -> ok
0004 050000000000000000 -> pool tag 3
0005 050000000000000000 -> ok
0004 060000000000000000 -> pool tag 3
0005 060000000000000000 -> ok
0006 050000000000000000070001 -> ok
0006 050000000000000000060000000000000000 -> pool tag 5
0007 050000000000000000060000000000000000 -> ok
0005 030000000002 -> pool tag 4
# no tag is asked of the second index of a Long
0005 0500000000000000ff -> ok
# the first refusal from the front
0005 020d -> pool tag 3
0005 0100010002 -> pool text 3
";

/// Texts that are modified UTF-8, and texts that are none.
const TEXTS: &str = "\
0004 010000 -> ok
0004 01000101 -> ok
0004 0100017f -> ok
0004 010002c080 -> ok
0004 010002c280 -> ok
0004 010002c3bf -> ok
0004 010002dfbf -> ok
0004 010003e0a080 -> ok
0004 010003e18080 -> ok
0004 010003eda080 -> ok
0004 010003edbfbf -> ok
0004 010003efbfbf -> ok
0004 010006eda080edb080 -> ok
0004 010007 'A' c280 'B' e0a080 -> ok
0004 01000100 -> pool text 3
0004 010002 'A' 00 -> pool text 3
0004 01000180 -> pool text 3
0004 010001bf -> pool text 3
0004 0100028080 -> pool text 3
# the spellings of 1 and of 127 in two bytes
0004 010002c081 -> pool text 3
0004 010002c0bf -> pool text 3
0004 010002c180 -> pool text 3
0004 010002c1bf -> pool text 3
# two bytes, cut or not gone on with
0004 010001c2 -> pool text 3
0004 010001df -> pool text 3
0004 010002c27f -> pool text 3
0004 010002c2c0 -> pool text 3
0004 010002c000 -> pool text 3
# the spellings of 0 and of 2047 in three bytes
0004 010003e08080 -> pool text 3
0004 010003e09fbf -> pool text 3
# three bytes, cut or not gone on with
0004 010001e1 -> pool text 3
0004 010002e180 -> pool text 3
0004 010002e0a0 -> pool text 3
0004 010003e17f80 -> pool text 3
0004 010003e1c080 -> pool text 3
0004 010003e1807f -> pool text 3
0004 010003e180c0 -> pool text 3
# four bytes
0004 010004f0908080 -> pool text 3
0004 010003f08080 -> pool text 3
0004 010002f080 -> pool text 3
0004 010001f0 -> pool text 3
0004 010001ff -> pool text 3
";

/// Files that end at the pool, from its count on.
const ENDS: &str = "\
00 -> cut 9
0002 -> cut 10
000202 -> pool tag 1
000205 -> pool tag 1
000205000000 -> pool tag 1
00020600000000000000 -> pool tag 1
000305000000 -> cut 14
00030600000000000000 -> cut 18
0002010002 'A' -> cut 14
000201000100 -> pool text 1
0002070001 -> pool link 1
0003010001 'A' 070001 -> cut 17
# counts 0 and 1 leave no index for the class
000000 '!' 0002 -> item link 12
000100 '!' 0002 -> item link 12
000000 '!' 0000 -> item link 12
";

#[test]
fn tags_and_texts(rt: HostRuntime) -> Result<(), Fail> {
    for table in [TAGS, TEXTS] {
        assert_eq!(rt; wrong_pool(rt.alloc(), CLASS, table)?, None);
    }
    let mut version = Vec::new(rt.alloc());
    push_given(&mut version, VERSION)?;
    let wrong = wrong_row(rt.alloc(), version.as_slice(), ENDS, "")?;
    assert_eq!(rt; wrong, None);
    Ok(())
}

/// Items up to 7: 3 and 4 are descriptors of a field and of a method, 5 and 6 pairs with them, 7 is
/// a number.
const LINKED: &str = "\
010001'A' 070001 010001'I' 010003'()V' 0c00010003 0c00010004 0300000000";

/// An item at index 8 that names what it needs, or an item of another kind, or none.
const LINKS: &str = "\
0009 070001 -> ok
0009 070003 -> ok
0009 070004 -> ok
0009 080001 -> ok
0009 080004 -> ok
0009 0900020005 -> ok
0009 0a00020006 -> ok
0009 0b00020006 -> ok
0009 0c00010003 -> ok
0009 0c00010004 -> ok
0009 0c00010001 -> ok
# a class whose name is no text
0009 070000 -> pool link 8
0009 070002 -> pool link 8
0009 070005 -> pool link 8
0009 070007 -> pool link 8
0009 070008 -> pool link 8
0009 070009 -> pool link 8
0009 070101 -> pool link 8
0009 07ffff -> pool link 8
# a text
0009 080000 -> pool link 8
0009 080002 -> pool link 8
0009 080009 -> pool link 8
# a field: its class, its pair, the descriptor there
0009 0900000005 -> pool link 8
0009 0900010005 -> pool link 8
0009 0900050005 -> pool link 8
0009 0900090005 -> pool link 8
0009 0900020000 -> pool link 8
0009 0900020002 -> pool link 8
0009 0900020003 -> pool link 8
0009 0900020009 -> pool link 8
0009 0900020006 -> pool link 8
# a method
0009 0a00000006 -> pool link 8
0009 0a00010006 -> pool link 8
0009 0a00090006 -> pool link 8
0009 0a00020000 -> pool link 8
0009 0a00020004 -> pool link 8
0009 0a00020009 -> pool link 8
0009 0a00020005 -> pool link 8
# a method of an interface
0009 0b00000006 -> pool link 8
0009 0b00010006 -> pool link 8
0009 0b00090006 -> pool link 8
0009 0b00020000 -> pool link 8
0009 0b00020004 -> pool link 8
0009 0b00020009 -> pool link 8
0009 0b00020005 -> pool link 8
# a pair: its name, its descriptor
0009 0c00000003 -> pool link 8
0009 0c00020003 -> pool link 8
0009 0c00090003 -> pool link 8
0009 0c00010000 -> pool link 8
0009 0c00010002 -> pool link 8
0009 0c00010009 -> pool link 8
";

/// The name at 8 of a class at 9.
const CLASS_NAMES: &str = "\
000a 010001'B' 070008 -> ok
000a 010002'[I' 070008 -> ok
000a 010003'[[J' 070008 -> ok
000a 010004'[LA;' 070008 -> ok
000a 010002'A;' 070008 -> ok
000a 010003'a.b' 070008 -> ok
000a 010003'()V' 070008 -> ok
000a 010000 070008 -> pool link 9
000a 010001'[' 070008 -> pool link 9
000a 010002'[[' 070008 -> pool link 9
000a 010002'[V' 070008 -> pool link 9
000a 010003'[L;' 070008 -> pool link 9
000a 010003'[LA' 070008 -> pool link 9
000a 010005'[LA[;' 070008 -> pool link 9
000a 010003'[II' 070008 -> pool link 9
000a 010003'[I;' 070008 -> pool link 9
";

/// A text at 8, a pair with it at 9, and a field, a method or a method of an interface at 10.
const DESCRIPTORS: &str = "\
000b 010001 'B' 0c00010008 0900020009 -> ok
000b 010001 'B' 0c00010008 0a00020009 -> pool link 10
000b 010001 'B' 0c00010008 0b00020009 -> pool link 10
000b 010001 'C' 0c00010008 0900020009 -> ok
000b 010001 'C' 0c00010008 0a00020009 -> pool link 10
000b 010001 'C' 0c00010008 0b00020009 -> pool link 10
000b 010001 'D' 0c00010008 0900020009 -> ok
000b 010001 'D' 0c00010008 0a00020009 -> pool link 10
000b 010001 'D' 0c00010008 0b00020009 -> pool link 10
000b 010001 'F' 0c00010008 0900020009 -> ok
000b 010001 'F' 0c00010008 0a00020009 -> pool link 10
000b 010001 'F' 0c00010008 0b00020009 -> pool link 10
000b 010001 'J' 0c00010008 0900020009 -> ok
000b 010001 'J' 0c00010008 0a00020009 -> pool link 10
000b 010001 'J' 0c00010008 0b00020009 -> pool link 10
000b 010001 'S' 0c00010008 0900020009 -> ok
000b 010001 'S' 0c00010008 0a00020009 -> pool link 10
000b 010001 'S' 0c00010008 0b00020009 -> pool link 10
000b 010001 'Z' 0c00010008 0900020009 -> ok
000b 010001 'Z' 0c00010008 0a00020009 -> pool link 10
000b 010001 'Z' 0c00010008 0b00020009 -> pool link 10
000b 010003 '[[I' 0c00010008 0900020009 -> ok
000b 010003 '[[I' 0c00010008 0a00020009 -> pool link 10
000b 010003 '[[I' 0c00010008 0b00020009 -> pool link 10
000b 010003 'LA;' 0c00010008 0900020009 -> ok
000b 010003 'LA;' 0c00010008 0a00020009 -> pool link 10
000b 010003 'LA;' 0c00010008 0b00020009 -> pool link 10
000b 010006 '[LA/B;' 0c00010008 0900020009 -> ok
000b 010006 '[LA/B;' 0c00010008 0a00020009 -> pool link 10
000b 010006 '[LA/B;' 0c00010008 0b00020009 -> pool link 10
000b 010004 '(I)V' 0c00010008 0900020009 -> pool link 10
000b 010004 '(I)V' 0c00010008 0a00020009 -> ok
000b 010004 '(I)V' 0c00010008 0b00020009 -> ok
000b 01000c '(J[ILA;)[LA;' 0c00010008 0900020009 -> pool link 10
000b 01000c '(J[ILA;)[LA;' 0c00010008 0a00020009 -> ok
000b 01000c '(J[ILA;)[LA;' 0c00010008 0b00020009 -> ok
000b 010003 '()D' 0c00010008 0900020009 -> pool link 10
000b 010003 '()D' 0c00010008 0a00020009 -> ok
000b 010003 '()D' 0c00010008 0b00020009 -> ok
000b 010000 0c00010008 0900020009 -> pool link 10
000b 010000 0c00010008 0a00020009 -> pool link 10
000b 010000 0c00010008 0b00020009 -> pool link 10
000b 010001 'V' 0c00010008 0900020009 -> pool link 10
000b 010001 'V' 0c00010008 0a00020009 -> pool link 10
000b 010001 'V' 0c00010008 0b00020009 -> pool link 10
000b 010001 '[' 0c00010008 0900020009 -> pool link 10
000b 010001 '[' 0c00010008 0a00020009 -> pool link 10
000b 010001 '[' 0c00010008 0b00020009 -> pool link 10
000b 010002 '[V' 0c00010008 0900020009 -> pool link 10
000b 010002 '[V' 0c00010008 0a00020009 -> pool link 10
000b 010002 '[V' 0c00010008 0b00020009 -> pool link 10
000b 010002 'L;' 0c00010008 0900020009 -> pool link 10
000b 010002 'L;' 0c00010008 0a00020009 -> pool link 10
000b 010002 'L;' 0c00010008 0b00020009 -> pool link 10
000b 010002 'LA' 0c00010008 0900020009 -> pool link 10
000b 010002 'LA' 0c00010008 0a00020009 -> pool link 10
000b 010002 'LA' 0c00010008 0b00020009 -> pool link 10
000b 010004 'L[A;' 0c00010008 0900020009 -> pool link 10
000b 010004 'L[A;' 0c00010008 0a00020009 -> pool link 10
000b 010004 'L[A;' 0c00010008 0b00020009 -> pool link 10
000b 010002 'II' 0c00010008 0900020009 -> pool link 10
000b 010002 'II' 0c00010008 0a00020009 -> pool link 10
000b 010002 'II' 0c00010008 0b00020009 -> pool link 10
000b 010004 'LA;;' 0c00010008 0900020009 -> pool link 10
000b 010004 'LA;;' 0c00010008 0a00020009 -> pool link 10
000b 010004 'LA;;' 0c00010008 0b00020009 -> pool link 10
000b 010001 'A' 0c00010008 0900020009 -> pool link 10
000b 010001 'A' 0c00010008 0a00020009 -> pool link 10
000b 010001 'A' 0c00010008 0b00020009 -> pool link 10
000b 010002 '()' 0c00010008 0900020009 -> pool link 10
000b 010002 '()' 0c00010008 0a00020009 -> pool link 10
000b 010002 '()' 0c00010008 0b00020009 -> pool link 10
000b 010002 '(I' 0c00010008 0900020009 -> pool link 10
000b 010002 '(I' 0c00010008 0a00020009 -> pool link 10
000b 010002 '(I' 0c00010008 0b00020009 -> pool link 10
000b 010004 '(V)V' 0c00010008 0900020009 -> pool link 10
000b 010004 '(V)V' 0c00010008 0a00020009 -> pool link 10
000b 010004 '(V)V' 0c00010008 0b00020009 -> pool link 10
000b 010004 '()VV' 0c00010008 0900020009 -> pool link 10
000b 010004 '()VV' 0c00010008 0a00020009 -> pool link 10
000b 010004 '()VV' 0c00010008 0b00020009 -> pool link 10
000b 010004 '()[V' 0c00010008 0900020009 -> pool link 10
000b 010004 '()[V' 0c00010008 0a00020009 -> pool link 10
000b 010004 '()[V' 0c00010008 0b00020009 -> pool link 10
000b 010004 '([)V' 0c00010008 0900020009 -> pool link 10
000b 010004 '([)V' 0c00010008 0a00020009 -> pool link 10
000b 010004 '([)V' 0c00010008 0b00020009 -> pool link 10
000b 010005 '(L;)V' 0c00010008 0900020009 -> pool link 10
000b 010005 '(L;)V' 0c00010008 0a00020009 -> pool link 10
000b 010005 '(L;)V' 0c00010008 0b00020009 -> pool link 10
000b 010003 'I)V' 0c00010008 0900020009 -> pool link 10
000b 010003 'I)V' 0c00010008 0a00020009 -> pool link 10
000b 010003 'I)V' 0c00010008 0b00020009 -> pool link 10
000b 010005 '()()V' 0c00010008 0900020009 -> pool link 10
000b 010005 '()()V' 0c00010008 0a00020009 -> pool link 10
000b 010005 '()()V' 0c00010008 0b00020009 -> pool link 10
";

/// Two items, from index 8 on.
const TWO_ITEMS: &str = "\
# a member, and its pair at the index above
000a 09000200090c00010003 -> ok
000a 09000200090c00010004 -> pool link 8
000a 0a000200090c00010004 -> ok
000a 0a000200090c00010003 -> pool link 8
000a 09000200090c00010002 -> pool link 8
000a 09000200090c00020003 -> pool link 9
000a 0900090005070001 -> ok
# a pair, and a member of it
000a 0c000100020900020008 -> pool link 8
000a 0c000100010900020008 -> pool link 9
# the lowest of two
000a 070000080000 -> pool link 8
000a 070001080000 -> pool link 9
# the gap behind a Long is no item
000b 050000000000000000070009 -> pool link 10
# links are asked of the whole pool
000a 070009010001 'B' -> ok
000a 0700000d0000 -> pool tag 9
000a 07000001000100 -> pool text 9
";

#[test]
fn links(rt: HostRuntime) -> Result<(), Fail> {
    for table in [LINKS, CLASS_NAMES, DESCRIPTORS, TWO_ITEMS] {
        assert_eq!(rt; wrong_pool(rt.alloc(), LINKED, table)?, None);
    }
    Ok(())
}

const BRACKETS: [u8; 256] = [b'['; 256];

/// A pool of that count: the items up to 7, and a text of that head, middle and rest.
fn long_text(
    alloc: Global,
    count: &str,
    head: &str,
    middle: &[u8],
    rest: &str,
) -> Result<String, AllocError> {
    let mut bytes = Vec::new(alloc);
    for part in [VERSION, count, LINKED, head] {
        push_given(&mut bytes, part)?;
    }
    bytes.extend_from_slice(middle)?;
    push_given(&mut bytes, rest)?;
    push_given(&mut bytes, PLAIN)?;
    answer(alloc, bytes.as_slice())
}

/// 255 slots, no receiver counted, and 255 dimensions are the most.
#[test]
fn slots_and_dimensions(rt: HostRuntime) -> Result<(), Fail> {
    let method = "')V' 0c00010008 0a00020009";
    let longs = LONGS.as_slice();
    let brackets = BRACKETS.as_slice();
    let cases = [
        ("000b", "010083'(I'", &longs[..127], method, "ok"),
        ("000b", "010083'('", longs, method, "pool link 10"),
        ("000a", "010100", &brackets[..255], "'I' 070008", "ok"),
        ("000a", "010101", brackets, "'I' 070008", "pool link 9"),
    ];
    for (count, head, middle, rest, want) in cases {
        let got = long_text(rt.alloc(), count, head, middle, rest)?;
        assert_eq!(rt; got.as_str(), want, "{head}");
    }
    Ok(())
}
