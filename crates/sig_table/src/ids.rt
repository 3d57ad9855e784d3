//! Formats and signatures by their index in a table, each as a type of its own, so that the one is
//! never given for the other. A table has at most 1,000 formats and 4,000 signatures, so they fit
//! in a `u16`. A removal of signatures moves later ones down, and their ids with them.

/// A format by its place in the table, counted from 0.
#[derive(Clone, Copy, Debug, PartialEq, Eq, PartialOrd, Ord, Hash)]
pub struct FormatId(pub u16);

/// A signature by its place in the table, counted from 0.
#[derive(Clone, Copy, Debug, PartialEq, Eq, PartialOrd, Ord, Hash)]
pub struct SigId(pub u16);
