//! Rows of tables. A row is bytes, ` -> ` and what reading them answers: two hexadecimal digits are a
//! byte, text between quotes stands for itself, and `C` is a Code attribute. Lines without an arrow
//! are comments.

use class_file::{ClassErr, read_class};
use std::alloc::{AllocError, Global};
use std::test::Fail;

/// A Code attribute whose name is at index 6: its length, max_stack, max_locals, the length of the
/// code, two bytes of code, no table, no attributes.
const CODE: &[u8] = b"\0\x06\0\0\0\x0e\0\x01\0\x01\0\0\0\x02\0\xb1\0\0\0\0";

fn digit(byte: u8) -> Option<u8> {
    match byte {
        b'0'..=b'9' => Some(byte.wrapping_sub(b'0')),
        b'a'..=b'f' => Some(byte.wrapping_sub(b'a').wrapping_add(10)),
        _ => None,
    }
}

/// Puts a byte at the end of the bytes with its second digit; what is left over is a first digit.
fn push_digit(bytes: &mut Vec<u8>, high: Option<u8>, low: u8) -> Result<Option<u8>, AllocError> {
    let Some(first) = high else {
        return Ok(Some(low));
    };
    bytes.push(first.wrapping_mul(16).wrapping_add(low))?;
    Ok(None)
}

/// Puts what a row gives at the end of the bytes.
pub(crate) fn push_given(bytes: &mut Vec<u8>, given: &str) -> Result<(), AllocError> {
    let mut in_text = false;
    let mut high: Option<u8> = None;
    for byte in given.as_bytes() {
        let byte = *byte;
        if byte == b'\'' {
            in_text = !in_text;
        } else if in_text {
            bytes.push(byte)?;
        } else if byte == b'C' {
            bytes.extend_from_slice(CODE)?;
        } else if let Some(low) = digit(byte) {
            high = push_digit(bytes, high, low)?;
        }
    }
    Ok(())
}

/// What reading the bytes answers, in the words of a report; `ok` for a class file.
pub(crate) fn answer(alloc: Global, bytes: &[u8]) -> Result<String, AllocError> {
    match read_class(alloc, bytes) {
        Ok(_) => String::from_str(alloc, "ok"),
        Err(why) => why.to_string(alloc),
    }
}

/// The first row of the table that isn't answered as it says, behind those bytes and before others.
pub(crate) fn wrong_row<'a>(
    alloc: Global,
    before: &[u8],
    table: &'a str,
    after: &str,
) -> Result<Option<&'a str>, AllocError> {
    for row in table.lines() {
        if let Some((given, want)) = row.split_once(" -> ") {
            let mut bytes = Vec::new(alloc);
            bytes.extend_from_slice(before)?;
            push_given(&mut bytes, given)?;
            push_given(&mut bytes, after)?;
            if answer(alloc, bytes.as_slice())?.as_str() != want {
                return Ok(Some(row));
            }
        }
    }
    Ok(None)
}

/// Version 46.0, and a pool of count 32 up to index 27.
const ITEMS: &str = "\
cafebabe 0000 002e 0020
# (1) a text, (2) a class, (3) the empty text
010001'A' 070001 010000
# (4) and (5) descriptors of a field and of a method
010001'I' 010003'()V'
# (6) to (9) names
010004'Code' 01000d'ConstantValue' 010008'<clinit>' 010001'f'
# (10), (11), (12), (14) and (16) constants
0300000007 043f800000 050000000000000009 063ff0000000000000 080001
# (17) to (24) descriptors of fields
010001'J' 010001'F' 010001'D' 010012'Ljava/lang/String;' 010001'S' 010001'C' 010001'B' 010001'Z'
# (25) and (26) the texts of (4) and (9) again, (27) the descriptor of a class
010001'I' 010001'f' 010003'LA;'
";

/// What repeats in a text: 128 longs, which take 256 slots.
pub(crate) const LONGS: [u8; 128] = [b'J'; 128];

const PADDING: [u8; 434] = [b'x'; 434];

/// Version 46.0, and a pool of count 32 that ends at offset 1000.
pub(crate) fn start(alloc: Global) -> Result<Vec<u8>, AllocError> {
    let mut bytes = Vec::new(alloc);
    for row in ITEMS.lines() {
        if !row.starts_with('#') {
            push_given(&mut bytes, row)?;
        }
    }
    let parts: [&[u8]; 11] = [
        // 28 to 30: descriptors whose parameters take 254, 255 and 256 slots
        b"\x01\0\x82(",
        &LONGS[..127],
        b")V",
        b"\x01\0\x83(I",
        &LONGS[..127],
        b")V",
        b"\x01\0\x83(",
        &LONGS,
        b")V",
        // 31: as long as it takes
        b"\x01\x01\xb2",
        &PADDING,
    ];
    for part in parts {
        bytes.extend_from_slice(part)?;
    }
    Ok(bytes)
}

/// The same behind that pool, and what stands between it and each row.
pub(crate) fn wrong_behind<'a>(
    alloc: Global,
    before: &str,
    table: &'a str,
    after: &str,
) -> Result<Option<&'a str>, AllocError> {
    let mut bytes = start(alloc)?;
    push_given(&mut bytes, before)?;
    wrong_row(alloc, bytes.as_slice(), table, after)
}

#[test]
fn the_pool_ends_at_1000(rt: HostRuntime) -> Result<(), Fail> {
    assert_eq!(rt; start(rt.alloc())?.len(), 1000);
    Ok(())
}
