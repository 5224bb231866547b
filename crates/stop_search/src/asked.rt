use pk_types::Name;

// A module, and a name that it is asked for.
#[derive(Drop)]
pub struct Asked<'a> {
    pub number: u32,
    pub name: &'a Name,
}
