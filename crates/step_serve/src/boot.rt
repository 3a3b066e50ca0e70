//! Numbers of boot classes (docs/BOOT.md) and of a buffer's methods.

/// `java/lang/String`.
pub(crate) const STRING: u32 = 2;

/// `java/lang/StringBuffer`.
pub(crate) const STRING_BUFFER: u32 = 3;

/// `java/lang/ArrayIndexOutOfBoundsException`.
pub(crate) const ARRAY_INDEX: u32 = 15;

/// `java/lang/ArrayStoreException`.
pub(crate) const ARRAY_STORE: u32 = 18;

/// `java/lang/IllegalMonitorStateException`.
pub(crate) const MONITOR_STATE: u32 = 20;

/// `java/lang/IllegalThreadStateException`.
pub(crate) const THREAD_STATE: u32 = 22;

/// `java/lang/ExceptionInInitializerError`.
pub(crate) const INITIALIZER_ERROR: u32 = 26;

/// `<init>()V` of a buffer.
pub(crate) const NEW_BUFFER: u8 = 9;

/// `<init>(Ljava/lang/String;)V`.
pub(crate) const BUFFER_OF: u8 = 10;

/// `toString()Ljava/lang/String;`.
pub(crate) const BUFFER_TEXT: u8 = 16;

/// `length()I`.
pub(crate) const BUFFER_LENGTH: u8 = 17;
