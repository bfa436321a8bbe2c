ghost use Rattle.cov_port.specs.LineReading.{ReadsAgain};

/// The text of runs, none of which descends and whose numbers are 1 to 4,194,304, is read as these runs.
pub fn lines_are_read_again()
    ensures { ReadsAgain }
{}
