// The limit on the size of files, as Linux tells it. What the host does to files and streams is tried above this crate.
use crate::database_files::allowed_by;

#[test]
fn limits_are_read(rt: HostRuntime) {
    let told = b"Limit                     Soft Limit           Hard Limit           Units\n\
        Max cpu time              unlimited            unlimited            seconds\n\
        Max file size             65536                unlimited            bytes\n";
    assert_eq!(rt; allowed_by(told), 65_536);
    let none = b"Max file size             unlimited            unlimited            bytes\n";
    assert_eq!(rt; allowed_by(none), u64::MAX);
    assert_eq!(rt; allowed_by(b"Max file size"), u64::MAX);
    assert_eq!(rt; allowed_by(b""), u64::MAX);
}
