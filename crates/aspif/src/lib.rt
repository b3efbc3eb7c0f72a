// aspif 1.0.0, as document 01 restricts it: reading a text into tables, refusing it, and writing it out.
#![tactic(auto)]

pub mod text; // the lines in order, the whole text
pub mod write; // the stored text, into a lent buffer
pub mod lent; // the stored tables, as `asp` reads them

pub use aspif_tables::table::Counts;
