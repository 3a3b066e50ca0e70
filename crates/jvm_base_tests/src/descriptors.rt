//! Which texts are descriptors (JVMS2 4.3).

use jvm_base::{Desc, MethodDesc, Units};
use std::test::Fail;

#[test]
fn reads(rt: HostRuntime) -> Result<(), Fail> {
    let table: [(&[u8], bool, bool); 9] = [
        (b"I", true, false),
        (b"[[J", true, false),
        (b"Ljava/lang/Object;", true, false),
        (b"(IDLjava/lang/Thread;)Ljava/lang/Object;", false, true),
        (b"([[J)V", false, true),
        (b"V", false, false),
        (b"L;", false, false),
        (b"La[b;", false, false),
        (b"(I)", false, false),
    ];
    for (bytes, is_field, is_method) in table {
        let text = Units::read(rt.alloc(), bytes)?;
        assert_eq!(rt; Desc::is_field(&text), is_field);
        assert_eq!(rt; Desc::read_field(rt.alloc(), &text).is_ok(), is_field);
        assert_eq!(rt; MethodDesc::is_method(&text, 255), is_method);
        assert_eq!(rt;
            MethodDesc::read_method(rt.alloc(), &text).is_ok(),
            is_method
        );
    }
    let wide = Units::read(rt.alloc(), b"(IDLjava/lang/Thread;)Ljava/lang/Object;")?;
    assert!(rt; MethodDesc::is_method(&wide, 4));
    assert!(rt; !MethodDesc::is_method(&wide, 3));
    Ok(())
}
