//! What a call comes to.
ghost use Rattle.std.specs.Prelude.{◌≡◌};
ghost use Rattle.test_failures.specs.Outcome.{status_of};

/// What a call came to, and the line that tells it.
#[derive(Drop)]
pub enum Outcome {
    /// It returned a value, or an error of the bytes.
    Answered(String),
    /// Memory was refused, and all that is promised of it holds.
    AllocFailed(String),
    /// Something that is promised does not hold.
    Broken(String),
}

impl Outcome {
    /// The exit status of the program.
    pub fn status(&self) -> u8
        ensures { result ≡ status_of self.now }
    {
        match self {
            Outcome::Answered(_) => 0,
            Outcome::AllocFailed(_) => 3,
            Outcome::Broken(_) => 1,
        }
    }

    /// The line that tells it.
    pub fn line(&self) -> &str {
        match self {
            Outcome::Answered(line) | Outcome::AllocFailed(line) | Outcome::Broken(line) => {
                line.as_str()
            }
        }
    }
}
