// The text of a listing, written into a lent buffer. Every byte of it is promised, and nothing is written where the text does not fit, which no
// `Display` does. What puts a text takes the buffer and an index and gives the index behind it: a struct that lends both would add clauses to each.
#![tactic(auto)]

mod columns;
mod decimal;
mod line;
mod listing;
mod refusal;

pub use columns::numbers;
pub use decimal::put_decimal;
use judgement::Verdict;
pub use line::mark;
pub use listing::put_listing;
use loads::Loads;
pub use refusal::put_refusal;
use site::Name;

// What a line of the listing shows. With the loads first a row is copied in fewer pieces. `Default`, here and of the fields' types, is what
// `ArrayVec::new` fills its places with.
#[derive(Clone, Copy, Default)]
pub struct Row {
    pub loads: Loads,
    pub name: Name,
    pub verdict: Verdict,
}
