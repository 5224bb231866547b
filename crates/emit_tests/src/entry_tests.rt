use crate::two_modules_file;
use emit_chunk::runtime;
use std::test::Fail;

#[test]
fn two_modules_are_written(rt: HostRuntime) -> Result<(), Fail> {
    let file = two_modules_file(rt.alloc())?;
    let tail = file.as_slice().strip_prefix(runtime()).ok_or("no runtime")?;
    let want =
        b"__webpack_start__({ g: [[0]], c: [] }, [\n[0, 1, [1], function* (__webpack_r) {\n\"use strict\";\n/*v*/\nyield;\n__webpack_r.e(1);\n/*m \"src/index.js\" 4*/\nf();\n}],\n[1, 0, [], function (module, exports, __webpack_r) {\n/*m \"src/b.js\" 4*/\ng();\n}]\n]);\n";
    assert!(rt; tail == want.as_slice());
    Ok(())
}
