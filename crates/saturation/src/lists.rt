// The three lists that a caller lends for what a run concludes: types, edges and pairs of the same.
ghost use Rattle.std.specs.Prelude.{◌≡◌};
ghost use Rattle.verdict.specs.Conclude.{came};
ghost use Rattle.rules.specs.Ends.{Spent, cleared};
ghost use Rattle.saturation.specs.Lists.{Same, over, Admission};

use book::refusal::Refusal;
use verdict::conclude::clear_all;
use verdict::end::End;

#[derive(Drop)]
pub struct Lists<'a> {
    pub types: &'a mut [u32],
    pub edges: &'a mut [u32],
    pub pairs: &'a mut [u32],
}

impl Lists<'_> {
    // The budget, or why it is refused: it is too large, or a list is too short for it.
    pub fn admit(&self, budget: u64) -> Result<u32, Refusal>
        ensures { Admission budget self.now.types.now self.now.edges.now result }
    {
        if 1000000 < budget {
            return Err(Refusal::LargeBudget);
        }
        if (self.edges.len() as u64) < 3 * budget {
            return Err(Refusal::ShortEdgeList);
        }
        if (self.types.len() as u64) < 2 * budget {
            return Err(Refusal::ShortTypeList);
        }
        Ok(budget as u32)
    }

    // The end of a run that spent its budget: every entry is 0.
    pub(crate) fn spend(&mut self) -> End
        ensures same { Same self.old self.new }
        ensures outcome { over (came result) self.new ≡ over (λ ts es ps. cleared ts es ps Spent) self.old }
    {
        clear_all(self.types, self.edges, self.pairs);
        End::Spent
    }
}
