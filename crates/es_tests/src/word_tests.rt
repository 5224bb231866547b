use es_lexer::is_reserved;
use es_tree::ProgramGoal;
use std::process::Abort;

/// The words that are names nowhere.
static RESERVED: [&str; 39] = [
    "break",
    "case",
    "catch",
    "class",
    "const",
    "continue",
    "debugger",
    "default",
    "delete",
    "do",
    "else",
    "enum",
    "export",
    "extends",
    "false",
    "finally",
    "for",
    "function",
    "if",
    "import",
    "in",
    "instanceof",
    "new",
    "null",
    "return",
    "super",
    "switch",
    "this",
    "throw",
    "true",
    "try",
    "typeof",
    "var",
    "void",
    "while",
    "with",
    "let",
    "yield",
    "await",
];

/// The words that are names in scripts alone.
static RESERVED_IN_MODULES: [&str; 7] = [
    "implements",
    "interface",
    "package",
    "private",
    "protected",
    "public",
    "static",
];

/// Words that are names everywhere.
static NAMES: [&str; 26] = [
    "name",
    "require",
    "eval",
    "arguments",
    "undefined",
    "async",
    "of",
    "get",
    "set",
    "from",
    "as",
    "target",
    "a",
    "d",
    "doo",
    "Break",
    "brea",
    "breaks",
    "breal",
    "ins",
    "i",
    "interfaces",
    "pub",
    "statics",
    "$",
    "_",
];

fn expect_reserved(rt: &impl Abort, words: &[&str], goal: ProgramGoal, reserved: bool) {
    for word in words {
        assert!(rt; is_reserved(word.as_bytes(), goal) == reserved, "{word}");
    }
}

#[test]
fn words_are_reserved_by_the_kind_of_program(rt: HostRuntime) {
    expect_reserved(&rt, &RESERVED, ProgramGoal::Script, true);
    expect_reserved(&rt, &RESERVED, ProgramGoal::Module, true);
    expect_reserved(&rt, &RESERVED_IN_MODULES, ProgramGoal::Script, false);
    expect_reserved(&rt, &RESERVED_IN_MODULES, ProgramGoal::Module, true);
    expect_reserved(&rt, &NAMES, ProgramGoal::Script, false);
    expect_reserved(&rt, &NAMES, ProgramGoal::Module, false);
}
