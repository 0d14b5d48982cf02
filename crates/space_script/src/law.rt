//! The law of lines.

ghost use Rattle.std.specs.Prelude.{◌≡◌, List, ℕ};
ghost use Rattle.space_script.specs.Command.{IsBlankLine, IsCommandLine};
ghost use Rattle.space_script.specs.declared.command.Command.{Command as CommandValue};

/// A line spells at most one command, and none if it has no words.
pub fn line_law()
    ensures one { (line : List ℕ) (c d : CommandValue) → IsCommandLine line c → IsCommandLine line d → c ≡ d }
    ensures blank { (line : List ℕ) (c : CommandValue) → IsBlankLine line → IsCommandLine line c → ⊥ }
{}
