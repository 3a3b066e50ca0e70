//! The table of the exceptions.

ghost use Rattle.std.specs.Prelude.{◌≡◌, map};
ghost use Rattle.boot_table.specs.Seen.{seen_exception};
ghost use Rattle.boot_table.specs.Table.{exceptions};

/// An exception that has nothing but its two constructors.
#[derive(Clone, Copy)]
pub(crate) struct BootException {
    pub(crate) name: &'static str,
    pub(crate) above: &'static str,
    pub(crate) is_abstract: bool,
}

macro_rules! under {
    ($above:expr, $name:expr) => {
        BootException {
            name: $name,
            above: $above,
            is_abstract: false,
        }
    };
}

/// The boot classes behind java/lang/Throwable, in their order.
const EXCEPTIONS: &[BootException] = &[
    under!("java/lang/Throwable", "java/lang/Exception"),
    under!("java/lang/Exception", "java/lang/RuntimeException"),
    under!("java/lang/Throwable", "java/lang/Error"),
    under!(
        "java/lang/RuntimeException",
        "java/lang/ArithmeticException"
    ),
    under!(
        "java/lang/RuntimeException",
        "java/lang/NullPointerException"
    ),
    under!(
        "java/lang/RuntimeException",
        "java/lang/IndexOutOfBoundsException"
    ),
    under!(
        "java/lang/IndexOutOfBoundsException",
        "java/lang/ArrayIndexOutOfBoundsException"
    ),
    under!(
        "java/lang/IndexOutOfBoundsException",
        "java/lang/StringIndexOutOfBoundsException"
    ),
    under!(
        "java/lang/RuntimeException",
        "java/lang/NegativeArraySizeException"
    ),
    under!(
        "java/lang/RuntimeException",
        "java/lang/ArrayStoreException"
    ),
    under!("java/lang/RuntimeException", "java/lang/ClassCastException"),
    under!(
        "java/lang/RuntimeException",
        "java/lang/IllegalMonitorStateException"
    ),
    under!(
        "java/lang/RuntimeException",
        "java/lang/IllegalArgumentException"
    ),
    under!(
        "java/lang/IllegalArgumentException",
        "java/lang/IllegalThreadStateException"
    ),
    under!(
        "java/lang/RuntimeException",
        "java/lang/IllegalStateException"
    ),
    under!("java/lang/Exception", "java/lang/InterruptedException"),
    under!("java/lang/Error", "java/lang/LinkageError"),
    under!(
        "java/lang/LinkageError",
        "java/lang/ExceptionInInitializerError"
    ),
    under!("java/lang/LinkageError", "java/lang/NoClassDefFoundError"),
    under!(
        "java/lang/LinkageError",
        "java/lang/IncompatibleClassChangeError"
    ),
    under!(
        "java/lang/IncompatibleClassChangeError",
        "java/lang/AbstractMethodError"
    ),
    under!(
        "java/lang/IncompatibleClassChangeError",
        "java/lang/IllegalAccessError"
    ),
    BootException {
        name: "java/lang/VirtualMachineError",
        above: "java/lang/Error",
        is_abstract: true,
    },
    under!(
        "java/lang/VirtualMachineError",
        "java/lang/StackOverflowError"
    ),
    under!(
        "java/lang/RuntimeException",
        "java/lang/UnsupportedOperationException"
    ),
];

/// The boot classes behind java/lang/Throwable, in their order.
pub(crate) fn exceptions() -> &'static [BootException]
    ensures { map seen_exception result.now ≡ exceptions }
{
    EXCEPTIONS
}
