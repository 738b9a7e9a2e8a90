// The names of the files.

/// The files that the words name.
#[derive(Debug, Drop)]
pub struct Files {
    pub cnf: String,
    pub log: String,
}
