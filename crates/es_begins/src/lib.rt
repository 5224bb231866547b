//! What a token begins or ends: the tests by which a parser of ECMAScript chooses a production, and semicolons.
//!
//! Each test is exact: it answers what the test of its name in `es_reader` says of the text. Most ask of one token alone,
//! which was seen before; those that look at the token behind it too take the cursor by `&mut`, and keep it. Only tests of a
//! Name may want memory. `read_semi` and `read_free_semi` take a semicolon where one stands, and tell where none is needed.
//! `bracketed` and its like give the context of what stands within. No part of the tree is made here.
#![tactic(auto)]

mod contexts;
mod expressions;
mod functions;
mod kinds;
mod modules;
mod operators;
mod semis;
mod shapes;
mod spelling;
mod statements;

pub use contexts::{bracketed, in_arrow, in_class, in_concise, in_function, without_in};
pub use expressions::{
    begins_call, begins_function, begins_member, begins_pattern, begins_suffix, begins_with_name,
    is_literal_word, is_piece, opens,
};
pub use functions::{
    begins_accessor, begins_async_function, begins_async_key, begins_async_method, begins_key,
    begins_method, begins_starred_key, belongs, ends_parts, ends_with_comma, fits_name,
    is_function_on_line,
};
pub use kinds::{is_end, is_id, is_private, is_string, is_template};
pub use modules::{begins_import, begins_import_expr};
pub use operators::{
    begins_nothing, begins_other, fits, is_arrow, is_assignment, is_loose, is_operator, is_postfix,
    is_yield,
};
pub use semis::{
    closes_value, ends_expression, ends_statement, is_closed, read_free_semi, read_semi,
};
pub use shapes::{begins_prefixed, is_await, is_sign, is_update, shape_of};
pub use spelling::is;
pub use statements::{
    begins_declaration, begins_value, ends_cases, ends_clause, is_declaration_word, is_label,
    is_lexical_word,
};
