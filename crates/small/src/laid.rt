// A book by value, laid out byte after byte.
ghost use Rattle.std.specs.Prelude.{◌≡◌, [], ◌∷◌, ◌<◌};
ghost use Rattle.small.specs.Laying.{added};

// Its bytes stand at the front, and 0 behind them.
#[derive(Clone, Copy)]
pub struct SmallBook {
    pub bytes: [u8; 37],
    pub length: usize,
}

impl SmallBook {
    // One byte more.
    #[tactic(auto, unfolding(crate::specs::Laying::added))]
    pub(crate) fn push(&mut self, b: u8)
        requires { self.old.length < 37 }
        ensures { self.new ≡ added self.old (b ∷ []) }
    {
        self.bytes[self.length] = b;
        self.length += 1;
    }
}
