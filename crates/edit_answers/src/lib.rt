// What an edit answers: the total of the new section, or the refusal; and what goes with the total for whoever keeps places.
#![tactic(auto)]

ghost use Rattle.std.specs.Prelude.{◌≡◌};
ghost use Rattle.edit_answers.specs.Answers.{spliced_by, edited_by};

use wire::verdict::Refusal;

// What an edit answers to whoever keeps places of the section: the totals after it and before it, the number of links before
// it, and the place where the link's entry now stands; or the refusal.
#[derive(Clone, Copy)]
pub struct Spliced {
    pub total: usize,
    pub before: usize,
    pub count: usize,
    pub at: usize,
}

impl Spliced {
    // What an edit answered, with the numbers that belong to it where it was accepted.
    pub fn of(
        edited: Result<usize, Refusal>,
        before: usize,
        count: usize,
        at: usize,
    ) -> Result<Spliced, Refusal>
        ensures { result ≡ spliced_by edited before count at }
    {
        let total = edited?;
        Ok(Spliced {
            total,
            before,
            count,
            at,
        })
    }

    // The edit's answer alone.
    pub fn edited(put: Result<Spliced, Refusal>) -> Result<usize, Refusal>
        ensures { result ≡ edited_by put }
    {
        Ok(put?.total)
    }
}
