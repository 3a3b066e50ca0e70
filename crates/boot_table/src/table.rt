//! The table of the boot classes.

ghost use Rattle.std.specs.Prelude.{◌≡◌, map};
ghost use Rattle.boot_table.specs.Seen.{seen};
ghost use Rattle.boot_table.specs.Table.{first_rows};

use crate::op::{BootOp, Reference};
use crate::row::{BootClass, BootCode, BootField, BootMethod};
use class_format::{ABSTRACT, FINAL, INTERFACE, NATIVE, PRIVATE, PUBLIC, STATIC, SUPER};

const TARGET: Reference = Reference {
    class: "java/lang/Thread",
    name: "target",
    desc: "Ljava/lang/Runnable;",
};

const RUN: Reference = Reference {
    class: "java/lang/Runnable",
    name: "run",
    desc: "()V",
};

const MESSAGE: Reference = Reference {
    class: "java/lang/Throwable",
    name: "message",
    desc: "Ljava/lang/String;",
};

/// A method without code.
macro_rules! bare {
    ($flags:expr, $name:expr, $desc:expr) => {
        BootMethod {
            flags: $flags,
            name: $name,
            desc: $desc,
            code: None,
        }
    };
}

/// A public method with code.
macro_rules! coded {
    ($name:expr, $desc:expr, $stack:expr, $locals:expr, $ops:expr) => {
        BootMethod {
            flags: PUBLIC,
            name: $name,
            desc: $desc,
            code: Some(BootCode {
                max_stack: $stack,
                max_locals: $locals,
                ops: $ops,
            }),
        }
    };
}

/// A call of a constructor.
macro_rules! constructs {
    ($class:expr, $desc:expr) => {
        BootOp::Invokespecial(Reference {
            class: $class,
            name: "<init>",
            desc: $desc,
        })
    };
}

/// A constructor that calls the superclass's.
macro_rules! init {
    ($above:expr) => {
        coded!("<init>", "()V", 1, 1, &[
            BootOp::Aload0,
            constructs!($above, "()V"),
            BootOp::Return,
        ])
    };
}

/// A constructor that stores what it is given.
macro_rules! init_storing {
    ($desc:expr, $field:expr) => {
        coded!("<init>", $desc, 2, 2, &[
            BootOp::Aload0,
            constructs!("java/lang/Object", "()V"),
            BootOp::Aload0,
            BootOp::Aload1,
            BootOp::Putfield($field),
            BootOp::Return,
        ])
    };
}

/// A class right below `java/lang/Object`.
macro_rules! under_object {
    ($name:expr, $interfaces:expr, $flags:expr, $fields:expr, $methods:expr) => {
        BootClass {
            name: $name,
            super_class: Some("java/lang/Object"),
            interfaces: $interfaces,
            flags: $flags,
            fields: $fields,
            methods: $methods,
        }
    };
}

/// The boot classes in their order, up to java/lang/Throwable. The native method at k, counted
/// through all of them, is intrinsic k.
const ROWS: &[BootClass<'static, 'static>] = &[
    BootClass {
        name: "java/lang/Object",
        super_class: None,
        interfaces: &[],
        flags: PUBLIC | SUPER,
        fields: &[],
        methods: &[
            coded!("<init>", "()V", 0, 1, &[BootOp::Return]),
            bare!(PUBLIC | FINAL | NATIVE, "wait", "()V"),
            bare!(PUBLIC | FINAL | NATIVE, "notify", "()V"),
            bare!(PUBLIC | FINAL | NATIVE, "notifyAll", "()V"),
        ],
    },
    under_object!("java/lang/Class", &[], PUBLIC | FINAL | SUPER, &[], &[]),
    under_object!(
        "java/lang/String",
        &[],
        PUBLIC | FINAL | SUPER,
        &[],
        &[
            bare!(PUBLIC | NATIVE, "length", "()I"),
            bare!(PUBLIC | NATIVE, "charAt", "(I)C"),
            bare!(PUBLIC | NATIVE, "equals", "(Ljava/lang/Object;)Z"),
            bare!(
                PUBLIC | NATIVE,
                "concat",
                "(Ljava/lang/String;)Ljava/lang/String;"
            ),
            bare!(PUBLIC | STATIC | NATIVE, "valueOf", "(I)Ljava/lang/String;"),
            bare!(PUBLIC | STATIC | NATIVE, "valueOf", "(J)Ljava/lang/String;"),
        ]
    ),
    under_object!(
        "java/lang/StringBuffer",
        &[],
        PUBLIC | FINAL | SUPER,
        &[],
        &[
            bare!(PUBLIC | NATIVE, "<init>", "()V"),
            bare!(PUBLIC | NATIVE, "<init>", "(Ljava/lang/String;)V"),
            bare!(PUBLIC | NATIVE, "append", "(I)Ljava/lang/StringBuffer;"),
            bare!(PUBLIC | NATIVE, "append", "(J)Ljava/lang/StringBuffer;"),
            bare!(PUBLIC | NATIVE, "append", "(C)Ljava/lang/StringBuffer;"),
            bare!(PUBLIC | NATIVE, "append", "(Z)Ljava/lang/StringBuffer;"),
            bare!(
                PUBLIC | NATIVE,
                "append",
                "(Ljava/lang/String;)Ljava/lang/StringBuffer;"
            ),
            bare!(PUBLIC | NATIVE, "toString", "()Ljava/lang/String;"),
            bare!(PUBLIC | NATIVE, "length", "()I"),
        ]
    ),
    under_object!(
        "java/lang/System",
        &[],
        PUBLIC | FINAL | SUPER,
        &[BootField {
            flags: PUBLIC | STATIC | FINAL,
            name: "out",
            desc: "Ljava/io/PrintStream;",
        }],
        &[]
    ),
    under_object!(
        "java/io/PrintStream",
        &[],
        PUBLIC | SUPER,
        &[],
        &[
            bare!(PUBLIC | NATIVE, "print", "(I)V"),
            bare!(PUBLIC | NATIVE, "print", "(J)V"),
            bare!(PUBLIC | NATIVE, "print", "(C)V"),
            bare!(PUBLIC | NATIVE, "print", "(Z)V"),
            bare!(PUBLIC | NATIVE, "print", "(Ljava/lang/String;)V"),
            bare!(PUBLIC | NATIVE, "println", "(I)V"),
            bare!(PUBLIC | NATIVE, "println", "(J)V"),
            bare!(PUBLIC | NATIVE, "println", "(C)V"),
            bare!(PUBLIC | NATIVE, "println", "(Z)V"),
            bare!(PUBLIC | NATIVE, "println", "(Ljava/lang/String;)V"),
            bare!(PUBLIC | NATIVE, "println", "()V"),
        ]
    ),
    under_object!(
        "java/lang/Runnable",
        &[],
        PUBLIC | INTERFACE | ABSTRACT,
        &[],
        &[bare!(PUBLIC | ABSTRACT, "run", "()V"),]
    ),
    under_object!(
        "java/lang/Thread",
        &["java/lang/Runnable"],
        PUBLIC | SUPER,
        &[BootField {
            flags: PRIVATE,
            name: "target",
            desc: "Ljava/lang/Runnable;",
        }],
        &[
            init!("java/lang/Object"),
            init_storing!("(Ljava/lang/Runnable;)V", TARGET),
            coded!(
                "run",
                "()V",
                1,
                1,
                &[
                    BootOp::Aload0,
                    BootOp::Getfield(TARGET),
                    BootOp::Ifnull(12),
                    BootOp::Aload0,
                    BootOp::Getfield(TARGET),
                    BootOp::Invokeinterface(RUN),
                    BootOp::Return,
                ]
            ),
            bare!(PUBLIC | NATIVE, "start", "()V"),
            bare!(PUBLIC | NATIVE, "join", "()V"),
            bare!(
                PUBLIC | STATIC | NATIVE,
                "currentThread",
                "()Ljava/lang/Thread;"
            ),
            bare!(PUBLIC | STATIC | NATIVE, "sleep", "(J)V"),
            bare!(PUBLIC | STATIC | NATIVE, "yield", "()V"),
        ]
    ),
    under_object!(
        "java/lang/Throwable",
        &[],
        PUBLIC | SUPER,
        &[BootField {
            flags: PRIVATE,
            name: "message",
            desc: "Ljava/lang/String;",
        }],
        &[
            init!("java/lang/Object"),
            init_storing!("(Ljava/lang/String;)V", MESSAGE),
            coded!(
                "getMessage",
                "()Ljava/lang/String;",
                1,
                1,
                &[BootOp::Aload0, BootOp::Getfield(MESSAGE), BootOp::Areturn,]
            ),
        ]
    ),
];

/// The boot classes in their order, up to java/lang/Throwable.
pub(crate) fn first_rows() -> &'static [BootClass<'static, 'static>]
    ensures { map seen result.now ≡ first_rows }
{
    ROWS
}
