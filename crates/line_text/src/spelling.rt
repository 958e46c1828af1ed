//! The law that a text is that of one list of lines alone.

ghost use Rattle.std.specs.Prelude.{◌≡◌, List};
ghost use Rattle.std.specs.List.{All};
ghost use Rattle.text_model.specs.declared.line.Line.{Line};
ghost use Rattle.text_model.specs.Text.{lines_text};
ghost use Rattle.line_text.specs.Spelling.{IsLine};

/// No two lists of lines have the same text. The law is the contract, and there is nothing to do.
pub fn texts_of_lines_differ()
    ensures { (a b : List Line) → All IsLine a → All IsLine b → lines_text a ≡ lines_text b → a ≡ b }
{}
