//! Which bytes are modified UTF-8 (JVMS2 4.4.7).

use jvm_base::{NameErr, Units};
use std::test::Fail;

#[test]
fn reads_and_writes(rt: HostRuntime) -> Result<(), Fail> {
    let table: [(&[u8], &[u16]); 4] = [
        (&[0x41, 0x7F], &[0x41, 0x7F]),
        (&[0xC0, 0x80, 0xC3, 0xA9], &[0, 0xE9]),
        (&[0xE2, 0x82, 0xAC], &[0x20AC]),
        (&[0xED, 0xA0, 0x80, 0xED, 0xBF, 0xBF], &[0xD800, 0xDFFF]),
    ];
    for (bytes, units) in table {
        let text = Units::read(rt.alloc(), bytes)?;
        assert_eq!(rt; text.as_slice(), units);
        assert_eq!(rt; text.byte_len(), bytes.len());
        let written = text.write(rt.alloc())?;
        assert_eq!(rt; written.as_slice(), bytes);
    }
    let bad: [&[u8]; 5] = [
        &[0],
        &[0xC1, 0x81],
        &[0xE0, 0x80, 0x80],
        &[0xC3],
        &[0xF0, 0x90, 0x80, 0x80],
    ];
    for bytes in bad {
        assert!(rt; matches!(Units::read(rt.alloc(), bytes), Err(NameErr::BadUtf)));
    }
    Ok(())
}
