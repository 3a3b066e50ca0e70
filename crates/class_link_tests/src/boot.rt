//! The boot classes as files.

use boot_table::boot_classes;
use class_file::read_class;
use class_format::well_formed;
use class_write::write_class;
use std::test::Fail;

/// Two class files with the same bytes are the same.
#[test]
fn boot_classes_are_read_as_written(rt: HostRuntime) -> Result<(), Fail> {
    let classes = boot_classes(rt.alloc())?;
    assert_eq!(rt; classes.len(), 34);
    for class in classes.as_slice() {
        assert!(rt; well_formed(class));
        let bytes = write_class(rt.alloc(), class)?;
        let read = read_class(rt.alloc(), bytes.as_slice())?;
        assert!(rt; well_formed(&read));
        let again = write_class(rt.alloc(), &read)?;
        assert_eq!(rt; again.as_slice(), bytes.as_slice());
    }
    Ok(())
}
