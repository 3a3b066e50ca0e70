//! Names with a meaning of their own.

ghost use Rattle.std.specs.Prelude.{◌≡◌};
ghost use Rattle.class_names.specs.Known.{is_name};
ghost use Rattle.class_names.specs.Texts.{object_name, init_name, clinit_name};

use class_format::CLINIT;

/// `java/lang/Object`
const OBJECT: [u16; 16] = [
    106, 97, 118, 97, 47, 108, 97, 110, 103, 47, 79, 98, 106, 101, 99, 116,
];

/// `<init>`
const INIT: [u16; 6] = [60, 105, 110, 105, 116, 62];

/// Whether the name is that of java/lang/Object.
pub fn is_object(name: &[u16]) -> bool
    ensures { result ≡ is_name object_name name.now }
{
    OBJECT.as_slice() == name
}

/// Whether the name is that of a constructor (JVMS2 3.9).
pub fn is_init(name: &[u16]) -> bool
    ensures { result ≡ is_name init_name name.now }
{
    INIT.as_slice() == name
}

/// Whether the name is that of a class initialiser.
pub fn is_clinit(name: &[u16]) -> bool
    ensures { result ≡ is_name clinit_name name.now }
{
    CLINIT.as_slice() == name
}
