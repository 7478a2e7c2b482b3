//! Lists of files that are read one after another: [`Shelf`] is such a list, [`HeldShelf`] one of files in memory.
//!
//! [`ResumedShelf`] leaves out files that a report has as good, and [`ComparedShelf`] says of each file what an older
//! report has of it. [`shown`] is a path as it is printed.
#![tactic(auto)]

mod compared_shelf;
mod edges;
mod held_shelf;
mod laws;
mod older;
mod past;
mod printing;
mod record;
mod resumed_shelf;
mod shelf;
mod stamp;

pub use compared_shelf::ComparedShelf;
pub use edges::Edges;
pub use held_shelf::{HeldFile, HeldShelf};
pub use laws::paths_are_shown;
pub use older::Older;
pub use past::{Audio, Earlier, Past};
pub use printing::{escape_of, shown};
pub use record::Record;
pub use resumed_shelf::ResumedShelf;
pub use shelf::Shelf;
pub use stamp::Stamp;
