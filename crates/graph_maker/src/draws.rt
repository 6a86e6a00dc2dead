//! A sequence of numbers from a seed.

ghost use Rattle.std.specs.Prelude.{◌≡◌, ◌<◌, ◌%◌};
ghost use Rattle.plain_machine.specs.Generator.{next};

/// A sequence of numbers, by the last one.
#[derive(Drop)]
pub struct Draws {
    pub state: u64,
}

impl Draws {
    /// The next number of the sequence, by the limit.
    pub fn draw(&mut self, limit: u64) -> u64
        requires state { self.old.state < 2147483647 }
        requires limit { 0 < limit }
        ensures state { self.new.state ≡ next self.old.state }
        ensures below { self.new.state < 2147483647 }
        ensures drawn { result ≡ self.new.state % limit }
    {
        self.state = 48_271 * self.state % 2_147_483_647;
        self.state % limit
    }
}
