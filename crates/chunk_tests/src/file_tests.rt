use crate::{Files, write_files};
use emit_chunk::runtime;
use std::test::Fail;

#[test]
fn a_bundle_of_three_modules(rt: HostRuntime) -> Result<(), Fail> {
    let Files {
        chunk,
        entry,
        chunk_size,
        entry_size,
    } = write_files(rt.alloc())?;
    let want =
        b"__webpack_chunk__(4, [\n[7, 0, [12], function (module, exports, __webpack_r) {\n/*m \"src/view.js\" 12q15 3*/\nexports.n = __webpack_r(12).n;\n}]\n]);\n";
    assert!(rt; chunk.as_slice() == want.as_slice());
    let tail = entry
        .as_slice()
        .strip_prefix(runtime())
        .ok_or("no runtime")?;
    let want =
        b"__webpack_start__({ g: [[3], [7, 4]], c: [[4, \"124a4a26\"]] }, [\n[3, 1, [12], function* (__webpack_r) {\n\"use strict\";\n/*v const see*/\n__webpack_r.c(3, [\"see\", () => see]);\n__webpack_r.n(3, [\"see\", () => see]);\nyield;\n__webpack_r.e(12);\n/*m \"src/index.js\" 6i3 3r19 2d16 1*/\nconst see = __webpack_r.w(12).n;\n__webpack_r.d(7);\n}],\n[12, 0, [], function (module) {\n/*j \"src/data.json\" 23*/\nmodule.exports = JSON.parse('{\"n\": \"it\\'s \\\\\\\\\"}\\r\\n');\n}]\n]);\n";
    assert!(rt; tail == want.as_slice());
    assert!(rt; chunk_size == chunk.len() as u64);
    assert!(rt; entry_size == entry.len() as u64);
    Ok(())
}
