// The current folder as a store.
use om_io::{DirStore, Failed, LoadErr, Store};
use std::fs;
use std::test::Fail;

#[test]
fn current_folder(rt: HostRuntime) -> Result<(), Fail> {
    let mut store = DirStore::new(&rt);
    assert_eq!(rt;
        store.load(rt.alloc(), "om_io_saved", 9).err(),
        Some(LoadErr::Missing)
    );
    assert_eq!(rt; store.save("om_io_saved", b"four"), Ok(()));
    assert_eq!(rt;
        store.load(rt.alloc(), "om_io_saved", 3).err(),
        Some(LoadErr::TooLong)
    );
    let loaded = store
        .load(rt.alloc(), "om_io_saved", 4)
        .ok()
        .ok_or("not loaded")?;
    assert_eq!(rt; loaded.as_slice(), b"four".as_slice());
    fs::remove_file(&rt, "om_io_saved")?;
    assert_eq!(rt;
        store.load(rt.alloc(), ".", 9).err(),
        Some(LoadErr::Failed),
        "a folder is no file"
    );
    assert_eq!(rt;
        store.save("om_io_none/file", b""),
        Err(Failed),
        "there is no such folder"
    );
    Ok(())
}
