// What a request asks for: a bit for each choice. docs/DESK.md has the table.
ghost use Rattle.std.specs.Prelude.{◌≤◌, ◌≡◌};
ghost use Rattle.desk.specs.Choices.{asks, mode_of, log_asked, tally_asked, rooms_follow, second_follows, known};

use tree::Mode;

#[derive(Clone, Copy, Debug, PartialEq, Eq)]
pub struct Choices {
    pub bits: usize,
}

impl From<usize> for Choices {
    fn from(bits: usize) -> Self {
        Choices { bits }
    }
}

impl Choices {
    fn asks(self, bit: usize) -> bool
        requires { 1 ≤ bit }
        ensures { result ≡ asks self.bits bit }
    {
        self.bits / bit % 2 == 1
    }

    pub fn mode(self) -> Mode
        ensures { result ≡ mode_of self.bits }
    {
        if self.asks(1) {
            Mode::Strict
        } else {
            Mode::Ordinary
        }
    }

    pub fn log(self) -> bool
        ensures { result ≡ log_asked self.bits }
    {
        self.asks(2)
    }

    pub fn tally(self) -> bool
        ensures { result ≡ tally_asked self.bits }
    {
        self.asks(16384)
    }

    pub fn rooms(self) -> bool
        ensures { result ≡ rooms_follow self.bits }
    {
        self.asks(32768)
    }

    // An accepted list, or a second script's nodes.
    pub fn second(self) -> bool
        ensures { result ≡ second_follows self.bits }
    {
        self.asks(8) || self.asks(32)
    }

    pub fn known(self) -> bool
        ensures { result ≡ known self.bits }
    {
        self.bits % 16384 < 4 && self.bits / 16384 < 4 && !(self.log() && self.tally())
    }
}
