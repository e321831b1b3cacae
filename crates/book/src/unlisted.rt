// A number of no refusal.
ghost use Rattle.std.specs.Prelude.{◌≡◌, false};
ghost use Rattle.book.specs.Unlisted.{listed};

// A number that is none of the seventeen.
#[derive(Clone, Copy, Debug, PartialEq, Eq)]
pub struct Unlisted {
    pub number: u8,
    pub ghost unlisted: { listed number ≡ false },
}
