//! How long the instruction of each opcode is, and which opcodes have none (JVMS2 6, 9).

use crate::fixture::{decoded, pool};
use code_table::CodeErr;
use jvm_base::Pool;
use std::alloc::Global;
use std::test::Fail;

/// For each opcode, in rows of 16: its instruction's bytes, `t` for the 16 of tableswitch at address
/// 0 up to its bounds, `s` for the 12 of lookupswitch up to its count, `w` for `wide`; `l` where this
/// machine leaves the instruction out, and `u` where there is none.
const OPCODES: [[u8; 16]; 16] = [
    *b"11111111111lllll",
    *b"2323322ll2111111",
    *b"11llllllll111111",
    *b"ll111122ll211111",
    *b"111llllllll11111",
    *b"1ll1111111111111",
    *b"11ll11ll11ll11ll",
    *b"11ll11ll11111111",
    *b"111131ll1lllllll",
    *b"l1111llll3333333",
    *b"33333333llts11ll",
    *b"1133333335u32311",
    *b"3311w4335luuuuuu",
    *b"uuuuuuuuuuuuuuuu",
    *b"uuuuuuuuuuuuuuuu",
    *b"uuuuuuuuuuuuuuuu",
];

/// The same of the opcode behind `wide`, whose bytes count.
const BEHIND_WIDE: [[u8; 16]; 16] = [
    *b"uuuuuuuuuuuuuuuu",
    *b"uuuuu44ll4uuuuuu",
    *b"uuuuuuuuuuuuuuuu",
    *b"uuuuuu44ll4uuuuu",
    *b"uuuuuuuuuuuuuuuu",
    *b"uuuuuuuuuuuuuuuu",
    *b"uuuuuuuuuuuuuuuu",
    *b"uuuuuuuuuuuuuuuu",
    *b"uuuu6uuuuuuuuuuu",
    *b"uuuuuuuuuuuuuuuu",
    *b"uuuuuuuuuluuuuuu",
    *b"uuuuuuuuuuuuuuuu",
    *b"uuuuuuuuuuuuuuuu",
    *b"uuuuuuuuuuuuuuuu",
    *b"uuuuuuuuuuuuuuuu",
    *b"uuuuuuuuuuuuuuuu",
];

/// The letter of an instruction that begins with these bytes, where zeros follow: that of the
/// shortest code which isn't cut.
fn letter(alloc: Global, pool: &Pool, front: &[u8]) -> Result<u8, Fail> {
    let mut code = Vec::from_slice(alloc, front)?;
    for length in front.len()..17 {
        match decoded(alloc, pool, code.as_slice(), &[]) {
            Err(CodeErr::CutOp(0)) => code.push(0)?,
            Err(CodeErr::LeftOutOp(0)) => return Ok(b'l'),
            Err(CodeErr::UnknownOp(0)) if length == front.len() => return Ok(b'u'),
            Err(CodeErr::UnknownOp(0)) => return Ok(b'w'),
            _ => return Ok(b"?123456?????s???t"[length]),
        }
    }
    Ok(b'?')
}

#[test]
fn lengths(rt: HostRuntime) -> Result<(), Fail> {
    let alloc = rt.alloc();
    let pool = pool(alloc)?;
    for op in 0..=255u8 {
        let (high, low) = (op as usize / 16, op as usize % 16);
        assert_eq!(rt; letter(alloc, &pool, &[op])?, OPCODES[high][low], "{op}");
        let wide = letter(alloc, &pool, &[196, op])?;
        assert_eq!(rt; wide, BEHIND_WIDE[high][low], "196 {op}");
    }
    Ok(())
}
