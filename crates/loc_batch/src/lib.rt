//! Lines in, answers out: the points text is cut into lines however it comes in pieces, each line is answered by what is found for its point,
//! as by a locator and the rows of a legend, and the answers go to a sink in large pieces.
#![tactic(auto)]

mod answerer;
mod answers;
mod batch;
mod block;
mod desk;
mod faces;
mod faults;
mod laws;
mod places;
mod tally;
mod whole;

pub use answerer::{Answerer, Lists};
pub use answers::{
    above, is_among, list_at, list_of, on_corner, on_edge, put_doubled, put_quoted, write_answer,
};
pub use batch::Batch;
pub use faces::{FaceNumbers, Unnumbered};
pub use faults::{BatchFault, FeedFault};
pub use laws::{kept_answers_law, kept_law, marks_law, pieces_law};
pub use places::ByPlace;
pub use tally::Tally;
pub use whole::answer_all;
