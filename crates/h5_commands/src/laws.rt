//! Laws of the program's output. Each is the contract of a function that does nothing.
ghost use Rattle.std.specs.Prelude.{◌≡◌, ℕ, List};
ghost use Rattle.h5_commands.specs.Outcome.{Prints};
ghost use Rattle.h5_commands.specs.Words.{CommandText};

/// A command has at most one output for an input.
pub fn an_input_has_one_output()
    ensures { (command : CommandText) (bytes x y : List ℕ) → Prints command bytes x → Prints command bytes y → x ≡ y }
{}
