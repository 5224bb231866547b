use pk_types::{Sequence, Text};

/// A member of an object.
#[derive(Debug, Drop)]
pub struct Member<V> {
    pub name: Text,
    pub value: V,
}

/// A JSON value. The value of a number is not kept. An object has each name once, in the order of
/// the first places of the names.
#[derive(Debug, Drop)]
pub enum Json {
    Null,
    Bool(bool),
    Number,
    Text(Text),
    List(Sequence<Json>),
    Object(Sequence<Member<Json>>),
}
