//! What searches show while writes go on: lists that are published for readers who take no lock and wait for nobody.
#![tactic(auto)]

pub mod fresh;
pub mod front;
pub mod latest;
pub mod listing;
pub mod name;
pub mod note;
pub mod place;
pub mod publisher;
pub mod rule;
pub mod searcher;
pub mod showing;
pub mod shown_records;

pub use name::{Name, Unnamed};
pub use note::Note;
pub use place::Place;
pub use publisher::Publisher;
pub use searcher::{Found, SearchFault, Searcher};
pub use showing::Showing;
pub use shown_records::ShownRecords;
