// Clusters and splits of a similarity: definitions in specs/, theorems for any number of entries in proofs/. The types
// here are those that the definitions and the code share.
#![tactic(auto)]

// A group, or a split by the side that is written, with its index.
#[derive(Clone, Copy, Debug, Default, PartialEq, Eq)]
pub struct Group {
    pub set: u32,
    pub index: i64,
}

// A set found, and the line that it stands on.
#[derive(Clone, Copy, Debug, PartialEq, Eq)]
pub struct Hit {
    pub set: u32,
    pub line: usize,
}
