// Where a clause stands in a store.

/// A place of a clause in a clause database. Only the database that gave it knows what stands there.
#[derive(Clone, Copy, Debug, PartialEq, Eq)]
pub struct Place(pub usize);
