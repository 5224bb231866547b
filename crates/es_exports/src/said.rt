/// Where a name is said: at a place, or by `default`.
#[derive(Clone, Copy, Debug, PartialEq, Eq)]
pub(crate) enum Said {
    At(u32),
    Default,
}

/// Where what is exported comes from: a binding, a name of a request, or the namespace of a request.
#[derive(Clone, Copy, Debug, PartialEq, Eq)]
pub(crate) enum Whence {
    Own(u32),
    Other(u32, Said),
    Space(u32),
}
