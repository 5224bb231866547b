use pkg_manifest::{Json, manifest};
use std::fmt::Write;
use std::test::Fail;

/// Each of many names twice: the time grows with the bytes.
#[test]
fn many_names(rt: HostRuntime) -> Result<(), Fail> {
    let mut text = String::new(rt.alloc());
    text.push_str("{\"exports\":{")?;
    for round in 0..2 {
        for number in 0..100_000u32 {
            if round + number > 0 {
                text.push_str(",")?;
            }
            write!(text, "\"name {number}\":[{round}]")?;
        }
    }
    text.push_str("}}")?;
    let found = manifest(rt.alloc(), text.as_bytes())
        .ok()
        .and_then(|found| found.exports);
    let Some(Json::Object(members)) = found else {
        assert!(rt; false);
        return Ok(());
    };
    assert_eq!(rt; members.len(), 100_000);
    Ok(())
}
