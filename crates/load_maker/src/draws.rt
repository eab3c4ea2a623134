// Numbers that a seed determines.
ghost use Rattle.std.specs.Prelude.{◌≡◌, ◌≤◌};
ghost use Rattle.load_maker.specs.Made.{stepped, drawn};

/// A linear congruential generator of 32 bits.
#[derive(Clone, Copy, Debug, PartialEq, Eq)]
pub struct Draws {
    pub state: u32,
}

impl Draws {
    /// The next number below a count.
    pub fn draw(&mut self, count: u32) -> u32
        requires { 1 ≤ count }
        ensures number { result ≡ drawn count self.new.state }
        ensures state { self.new.state ≡ stepped self.old.state }
    {
        let state = (1_664_525 * u64::from(self.state) + 1_013_904_223) % (1 << 32);
        self.state = state as u32;
        (self.state / 65_536) % count
    }
}
