//! Files and calls over memory that the tests share.

use cjvm_io::{MemShelf, VecSink};
use one_jvm::{Outcome, cjvm};
use std::alloc::{AllocError, Global};
use std::test::Fail;

/// The class A, up to the length of its code's attribute: it prints 2 + 3.
const HEAD: &[u8; 214] =
    b"\xca\xfe\xba\xbe\x00\x00\x00.\x00\x14\x01\x00\x01A\x07\x00\x01\x01\x00\x10java/lang/\
    Object\x07\x00\x03\x01\x00\x04main\x01\x00\x16([Ljava/lang/String;)V\x01\x00\x04Code\
    \x01\x00\x10java/lang/System\x07\x00\x08\x01\x00\x03out\x01\x00\x15Ljava/io/PrintStr\
    eam;\x0c\x00\x0a\x00\x0b\x09\x00\x09\x00\x0c\x01\x00\x13java/io/PrintStream\x07\x00\
    \x0e\x01\x00\x07println\x01\x00\x04(I)V\x0c\x00\x10\x00\x11\x0a\x00\x0f\x00\x12\x00!\
    \x00\x02\x00\x04\x00\x00\x00\x00\x00\x01\x00\x09\x00\x05\x00\x06\x00\x01\x00\x07";

/// What follows.
pub const TAIL: &[u8; 28] =
    b"\x00\x00\x00\x16\x00\x03\x00\x01\x00\x00\x00\x0a\xb2\x00\x0d\x05\x06`\xb6\x00\x13\xb1\
    \x00\x00\x00\x00\x00\x00";

/// What a call left.
#[derive(Drop)]
pub struct Left {
    pub outcome: Outcome,
    pub out: Vec<u8>,
    pub err: Vec<u8>,
}

/// The calls that fail, by number, of the shelf, of standard output and of standard error.
#[derive(Clone, Copy)]
pub struct Fails {
    pub shelf: u64,
    pub out: u64,
    pub err: u64,
}

pub const NO_FAILS: Fails = Fails {
    shelf: 0,
    out: 0,
    err: 0,
};

pub fn file_of(alloc: Global, tail: &[u8]) -> Result<Vec<u8>, AllocError> {
    let mut file = Vec::from_slice(alloc, HEAD.as_slice())?;
    file.extend_from_slice(tail)?;
    Ok(file)
}

/// A.class with another byte at a place.
pub fn changed_file(alloc: Global, at: usize, byte: u8) -> Result<Vec<u8>, AllocError> {
    let mut file = file_of(alloc, TAIL.as_slice())?;
    if let Some(place) = file.get_mut(at) {
        *place = byte;
    }
    Ok(file)
}

/// Calls with these words, where the shelf has a file A.class, and the class B in B.class.
pub fn call(alloc: Global, words: &[&str], file: Vec<u8>, fails: Fails) -> Result<Left, Fail> {
    let mut files = Vec::new(alloc);
    files.push((String::from_str(alloc, "A.class")?, file))?;
    files.push((
        String::from_str(alloc, "B.class")?,
        changed_file(alloc, 13, b'B')?,
    ))?;
    call_on(alloc, words, files, fails)
}

/// Calls with these words, where the shelf has these files.
pub fn call_on(
    alloc: Global,
    words: &[&str],
    files: Vec<(String, Vec<u8>)>,
    fails: Fails,
) -> Result<Left, Fail> {
    let mut texts = Vec::new(alloc);
    for word in words {
        texts.push(String::from_str(alloc, word)?)?;
    }
    let mut shelf = MemShelf::new(files, Vec::from_slice(alloc, &[fails.shelf])?);
    let mut out = VecSink::new(alloc, 1000, 3, Vec::from_slice(alloc, &[fails.out])?)?;
    let mut err = VecSink::new(alloc, 1000, 5, Vec::from_slice(alloc, &[fails.err])?)?;
    let outcome = cjvm(alloc, texts.as_slice(), &mut shelf, &mut out, &mut err);
    Ok(Left {
        outcome,
        out: Vec::from_slice(alloc, out.bytes())?,
        err: Vec::from_slice(alloc, err.bytes())?,
    })
}

/// A class of two static methods: a `main` that only returns, and `m`.
#[derive(Clone, Copy)]
pub struct Small<'a> {
    pub name: &'a [u8; 1],
    /// The descriptor of `m`, the ninth item of the pool.
    pub desc: &'a [u8],
    /// Items of the pool behind it, and how many.
    pub items: &'a [u8],
    pub count: u8,
    pub max_stack: u8,
    pub max_locals: u8,
    pub code: &'a [u8],
}

/// Items 2 to 8 of its pool: the class, Object and its name, `main` and its descriptor, `Code`, `m`.
const NAMES: &[u8; 68] =
    b"\x07\x00\x01\x01\x00\x10java/lang/Object\x07\x00\x03\x01\x00\x04main\x01\x00\x16([Ljava\
    /lang/String;)V\x01\x00\x04Code\x01\x00\x01m";

/// From the class's flags to the name of `m`: it is public, has no interface and no field, and its
/// `main` has no operand and one local.
const MEMBERS: &[u8; 43] =
    b"\x00!\x00\x02\x00\x04\x00\x00\x00\x00\x00\x02\x00\x09\x00\x05\x00\x06\x00\x01\x00\x07\x00\x00\
    \x00\x0d\x00\x00\x00\x01\x00\x00\x00\x01\xb1\x00\x00\x00\x00\x00\x09\x00\x08";

/// The length of a short text or code as a byte.
fn length_of(bytes: &[u8]) -> u8 {
    u8::try_from(bytes.len()).unwrap_or(0)
}

/// The file of such a class, of version 46.
pub fn small_file(alloc: Global, class: Small<'_>) -> Result<Vec<u8>, AllocError> {
    let code = length_of(class.code);
    let mut file = Vec::from_slice(alloc, b"\xca\xfe\xba\xbe\x00\x00\x00.\x00".as_slice())?;
    file.extend_from_slice(&[class.count.wrapping_add(10), 1, 0, 1, class.name[0]])?;
    file.extend_from_slice(NAMES.as_slice())?;
    file.extend_from_slice(&[1, 0, length_of(class.desc)])?;
    file.extend_from_slice(class.desc)?;
    file.extend_from_slice(class.items)?;
    file.extend_from_slice(MEMBERS.as_slice())?;
    file.extend_from_slice(&[0, 9, 0, 1, 0, 7, 0, 0, 0, code.wrapping_add(12)])?;
    file.extend_from_slice(&[0, class.max_stack, 0, class.max_locals, 0, 0, 0, code])?;
    file.extend_from_slice(class.code)?;
    file.extend_from_slice(&[0, 0, 0, 0, 0, 0])?;
    Ok(file)
}
