// What a data statement comes to.
use hs_claims::Footprint;
use hs_plan::Changes;
use hs_values::Chars;

/// What a data statement comes to where nobody holds it up.
#[derive(Drop)]
pub struct Outcome {
    /// The lines of the rows that it answers, without the item's number and its session.
    pub rows: Vec<Chars>,
    /// Its reply, without the number of a commit.
    pub reply: Chars,
    /// The changes that it makes: none where it is refused.
    pub changes: Changes,
    /// What it touches.
    pub foot: Footprint,
}
