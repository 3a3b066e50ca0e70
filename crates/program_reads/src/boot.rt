//! The boot classes that the machine itself names, by number.

/// `java/lang/Class`
pub const CLASS: u32 = 1;

/// `java/lang/String`
pub const STRING: u32 = 2;

/// `java/lang/StringBuffer`
pub const BUFFER: u32 = 3;

/// `java/lang/System`
pub const SYSTEM: u32 = 4;

/// `java/io/PrintStream`
pub const PRINT_STREAM: u32 = 5;

/// `java/lang/Thread`
pub const THREAD: u32 = 7;

/// `java/lang/Error`
pub const ERROR: u32 = 11;

/// `java/lang/ArithmeticException`
pub const ARITHMETIC: u32 = 12;

/// `java/lang/NullPointerException`
pub const NULL_POINTER: u32 = 13;

/// `java/lang/ArrayIndexOutOfBoundsException`
pub const ARRAY_INDEX: u32 = 15;

/// `java/lang/StringIndexOutOfBoundsException`
pub const STRING_INDEX: u32 = 16;

/// `java/lang/NegativeArraySizeException`
pub const NEGATIVE_SIZE: u32 = 17;

/// `java/lang/ArrayStoreException`
pub const ARRAY_STORE: u32 = 18;

/// `java/lang/ClassCastException`
pub const CLASS_CAST: u32 = 19;

/// `java/lang/IllegalMonitorStateException`
pub const MONITOR_STATE: u32 = 20;

/// `java/lang/IllegalThreadStateException`
pub const THREAD_STATE: u32 = 22;

/// `java/lang/ExceptionInInitializerError`
pub const INITIALIZER_ERROR: u32 = 26;

/// `java/lang/NoClassDefFoundError`
pub const NO_CLASS_FOUND: u32 = 27;

/// `java/lang/IncompatibleClassChangeError`
pub const CLASS_CHANGE: u32 = 28;

/// `java/lang/AbstractMethodError`
pub const ABSTRACT_METHOD: u32 = 29;

/// `java/lang/IllegalAccessError`
pub const ILLEGAL_ACCESS: u32 = 30;

/// `java/lang/StackOverflowError`
pub const STACK_OVERFLOW: u32 = 32;
